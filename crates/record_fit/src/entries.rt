// Tests on lists of entries: by the search, by all of them, by their ends, and by place.
ghost use Rattle.std.specs.Prelude.{◌≡◌, ◌++◌, ◌-◌, ◌≤◌, take, drop, leb};
ghost use Rattle.def_layout.specs.Sizes.{room};
ghost use Rattle.def_layout.specs.Entries.{look, same_entries};
ghost use Rattle.def_model.specs.Fit.{found, found_value, after, nowhere, in_order, last_key_is, link_fits, side_by_side};
ghost use Rattle.law_bytes.specs.EntryBytes.{used};

use codec_entries::{find, same_list, upper_part};
use def_layout::{Entry, ROOM};

pub fn has_key(es: [Entry; ROOM], n: usize, k: u32) -> bool
    requires { n ≤ room }
    ensures { result ≡ found (look k (used n es)) }
{
    let i = find(es, n as u8, k) as usize;
    if i >= n {
        return false;
    }
    if es[i].key != k {
        return false;
    }
    true
}

pub fn has_entry(es: [Entry; ROOM], n: usize, k: u32, v: u32) -> bool
    requires { n ≤ room }
    ensures { result ≡ found_value v (look k (used n es)) }
{
    let i = find(es, n as u8, k) as usize;
    if i >= n {
        return false;
    }
    if es[i].key != k {
        return false;
    }
    es[i].val == v
}

// The key stands nowhere among the n entries, in order or not.
pub fn nowhere(es: [Entry; ROOM], n: usize, k: u32) -> bool
    requires { n ≤ room }
    ensures { result ≡ nowhere k (used n es) }
{
    for i in 0..n {
        if es[i].key == k {
            return false;
        }
    }
    true
}

pub fn last_key_is(es: [Entry; ROOM], n: usize, k: u32) -> bool
    requires { n ≤ room }
    ensures { result ≡ last_key_is k (used n es) }
{
    if n == 0 {
        return false;
    }
    es[n - 1].key == k
}

// Whether the last key is below k, or there is none.
fn ends_below(es: [Entry; ROOM], n: usize, k: u32) -> bool
    requires { n ≤ room }
    ensures { result ≡ leb (after 0 (used n es)) k }
{
    if n == 0 {
        return true;
    }
    es[n - 1].key < k
}

// The first of the m entries of fs stands after the last of the n of es, where there are both.
pub fn in_order(es: [Entry; ROOM], n: usize, fs: [Entry; ROOM], m: usize) -> bool
    requires { (n ≤ room) × (m ≤ room) }
    ensures { result ≡ in_order (used n es) (used m fs) }
{
    if m == 0 {
        return true;
    }
    ends_below(es, n, fs[0].key)
}

pub fn last_joined(es: [Entry; ROOM], n: usize, fs: [Entry; ROOM], m: usize, k: u32) -> bool
    requires { (n ≤ room) × (m ≤ room) }
    ensures { result ≡ last_key_is k (used n es ++ used m fs) }
{
    if m == 0 {
        return last_key_is(es, n, k);
    }
    last_key_is(fs, m, k)
}

// The last of n entries, as many as fs has, are its m.
pub fn ends_with(es: [Entry; ROOM], n: usize, fs: [Entry; ROOM], m: usize) -> bool
    requires { (n ≤ room) × (m ≤ room) }
    ensures { result ≡ same_entries (drop (n - m) (used n es)) (used m fs) }
{
    let k = n.saturating_sub(m);
    let gs = upper_part(es, n, k);
    same_list(gs, n - k, fs, m)
}

pub fn starts_with(es: [Entry; ROOM], n: usize, fs: [Entry; ROOM], m: usize) -> bool
    requires { (n ≤ room) × (m ≤ room) }
    ensures { result ≡ same_entries (take m (used n es)) (used m fs) }
{
    let k = m.min(n);
    same_list(es, k, fs, m)
}

// The entry found for w is (w, b), and u lies strictly between the key before it and w.
pub fn link_fits(es: [Entry; ROOM], n: usize, b: u32, u: u32, w: u32) -> bool
    requires { n ≤ room }
    ensures { result ≡ link_fits b u w 0 (used n es) }
{
    let i = find(es, n as u8, w) as usize;
    if i >= n {
        return false;
    }
    let e = es[i];
    let between = ends_below(es, i, u) & (u < w);
    (e.key == w) & ((e.val == b) & between)
}

// The entry found for u is (u, b), and the one after it (w, c).
pub fn side_by_side(es: [Entry; ROOM], n: usize, b: u32, u: u32, c: u32, w: u32) -> bool
    requires { n ≤ room }
    ensures { result ≡ side_by_side b u c w (used n es) }
{
    let i = find(es, n as u8, u) as usize;
    if i + 1 >= n {
        return false;
    }
    let e = es[i];
    let f = es[i + 1];
    let second = (f.key == w) & (f.val == c);
    (e.key == u) & ((e.val == b) & second)
}
