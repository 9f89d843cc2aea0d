// Fourteen entries by value, as a page and a log record have them: read, written and tested.
#![tactic(auto)]

ghost use Rattle.std.specs.Prelude.{◌≡◌, ◌∷◌, ◌++◌, ◌+◌, ◌-◌, ◌≤◌, ◌<◌, min, length, take, drop};
ghost use Rattle.def_layout.specs.Sizes.{room};
ghost use Rattle.def_layout.specs.Entries.{entry_at, place, ten_bits, same_entries};
ghost use Rattle.def_layout.specs.Numbers.{tab, read_entry, entry_bytes, entries_bytes};
ghost use Rattle.law_bytes.specs.Patch.{patch};
ghost use Rattle.law_bytes.specs.EntryBytes.{used};
ghost use Rattle.law_bytes.specs.Blank.{blank};
ghost use Rattle.codec_entries.specs.Arrays.{splice};

use codec_bytes::{get32, set32};
use def_layout::{Entry, ROOM};
use std::array;

fn read_entry(b: &[u8], from: usize, i: usize) -> Entry
    requires { (from + 112 ≤ length b.now) × (i < room) }
    ensures { result ≡ read_entry b.now from i }
{
    Entry {
        key: get32(b, from + 8 * i),
        val: get32(b, from + 8 * i + 4),
    }
}

// The 14 entries from byte `from` on.
pub fn read_entries(b: &[u8], from: usize) -> [Entry; ROOM]
    requires { from + 112 ≤ length b.now }
    ensures { result ≡ tab room (read_entry b.now from) }
{
    array::from_fn(|i| read_entry(b, from, i))
}

fn write_entry(b: &mut [u8], at: usize, e: Entry)
    requires { at + 8 ≤ length b.old }
    ensures { b.new ≡ patch b.old at (entry_bytes e) }
{
    set32(b, at, e.key);
    set32(b, at + 4, e.val);
}

// Entry k, or none past the last.
fn nth(es: [Entry; ROOM], k: usize) -> Entry
    ensures { result ≡ entry_at es k }
{
    es.get(k).copied().unwrap_or_default()
}

// Entry i of the n in use, or none past them.
pub fn entry_in(es: [Entry; ROOM], n: usize, i: usize) -> Entry
    ensures { result ≡ entry_at (used n es) i }
{
    if i < n { nth(es, i) } else { Entry::default() }
}

// The first n entries go to the 112 bytes from `from` on, and zeros where the others would stand.
pub fn write_entries(b: &mut [u8], from: usize, es: [Entry; ROOM], n: usize)
    requires { from + 112 ≤ length b.old }
    ensures { b.new ≡ patch b.old from (entries_bytes (used n es)) }
{
    for i in 0..ROOM {
        write_entry(b, from + 8 * i, entry_in(es, n, i));
    }
}

// Whether the entries from the n-th on are zero, as those not in use have to be.
pub fn blank_from(es: [Entry; ROOM], n: usize) -> bool
    ensures { result ≡ blank (drop n es) }
{
    for i in n..ROOM {
        if es[i] != Entry::default() {
            return false;
        }
    }
    true
}

// SEARCH IN A PAGE, in 8 bits, as its callers count entries (`position` gives a usize, to be brought back to 8 bits: no plainer): the place
// of the first of n entries whose key is not below k, or n. Where an insert or delete is redone at a page's own bytes, `record_leaf` has
// the same search of those.
pub fn find(es: [Entry; ROOM], n: u8, k: u32) -> u8
    requires { n ≤ room }
    ensures { (result ≡ place k (used n es)) × (result ≤ n) }
{
    for place in 0..n {
        if es[place as usize].key >= k {
            return place;
        }
    }
    n
}

// The first i entries of es, and behind them those of fs from place k on, as many as there is room for.
fn spliced(es: [Entry; ROOM], i: usize, fs: [Entry; ROOM], k: usize) -> [Entry; ROOM]
    requires { (i ≤ room) × (k ≤ room) }
    ensures { result ≡ tab room (splice es i fs k) }
{
    array::from_fn(|j| if j < i { es[j] } else { nth(fs, k + (j - i)) })
}

// With e put in at place i of the n in use. Of fifteen the first fourteen stay.
pub fn insert_at(es: [Entry; ROOM], n: usize, i: usize, e: Entry) -> [Entry; ROOM]
    requires { (n ≤ room) × (i ≤ n) }
    ensures { used (min 14 (n + 1)) result ≡ take 14 (take i (used n es) ++ (e ∷ drop i (used n es))) }
{
    if i == ROOM {
        return es;
    }
    let mut front = es;
    front[i] = e;
    spliced(front, i + 1, es, i)
}

// With the one at place i of the n in use taken out.
pub fn remove_at(es: [Entry; ROOM], n: usize, i: usize) -> [Entry; ROOM]
    requires { (n ≤ room) × (i < n) }
    ensures { used (n - 1) result ≡ take i (used n es) ++ drop (i + 1) (used n es) }
{
    spliced(es, i, es, i + 1)
}

// The entries from place i on, moved to the front.
pub fn upper_part(es: [Entry; ROOM], n: usize, i: usize) -> [Entry; ROOM]
    requires { (n ≤ room) × (i ≤ n) }
    ensures { used (n - i) result ≡ drop i (used n es) }
{
    spliced(es, 0, es, i)
}

// The m entries of fs behind the n of es; the first fourteen stay.
pub fn append(es: [Entry; ROOM], n: usize, fs: [Entry; ROOM], m: usize) -> [Entry; ROOM]
    requires { (n ≤ room) × (m ≤ room) }
    ensures { used (min 14 (n + m)) result ≡ take 14 (used n es ++ used m fs) }
{
    spliced(es, n, fs, 0)
}

// Whether the n children have ten bits.
pub fn children_fit(es: [Entry; ROOM], n: usize) -> bool
    requires { n ≤ room }
    ensures { result ≡ ten_bits (used n es) }
{
    es[..n].iter().all(|e| e.val < 1024)
}

// Whether n entries and m others are the same.
pub fn same_list(es: [Entry; ROOM], n: usize, fs: [Entry; ROOM], m: usize) -> bool
    requires { (n ≤ room) × (m ≤ room) }
    ensures { result ≡ same_entries (used n es) (used m fs) }
{
    es[..n] == fs[..m]
}
