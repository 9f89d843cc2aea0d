// Going down to remove key k: a child with four entries is joined with a neighbour on the way.
#![tactic(auto)]

ghost use Rattle.std.specs.Prelude.{◌≡◌, ◌∷◌, ◌+◌, ◌/◌, ◌≤◌, ◌<◌};
ghost use Rattle.def_layout.specs.Sizes.{room};
ghost use Rattle.def_layout.specs.Pages as layout;
ghost use Rattle.def_layout.specs.Records.{kind_of};
ghost use Rattle.def_model.specs.Update as model;
ghost use Rattle.law_bytes.specs.AreaSizes.{HasPages, HasAreas};
ghost use Rattle.law_bytes.specs.EntryBytes.{used};
ghost use Rattle.record_apply.specs.Lists.{listed};
ghost use Rattle.record_pages.specs.Pages.{Pages};
ghost use Rattle.tree_write.specs.Shows.{Does};
ghost use Rattle.tree_add.specs.Rooms.{ShowsAt, ShowsPair, DoesAt};
ghost use Rattle.tree_remove.specs.Shares.{moved_of, shared_key};

use codec_entries::{entry_in, find};
use codec_page::Page;
use def_layout::MOST_ENTRIES;
use record_apply::lists::{EntryList, without_first};
use record_make::{data_row, lower_row, merge_row, redistribute_row, unlink_row};
use record_pages::page_at;
use tree_add::{At, Pair, direct, half, link_child, list_of, make_room, raise_root};
use tree_lookup::{before, entry_for};
use tree_write::{Run, emit};

// 01: "Redistribution gives the left page the larger half": how many of a and b entries it gets.
fn share(a: usize, b: usize) -> usize
    requires { (a ≤ room) × (b ≤ room) }
    ensures { result ≡ (a + b + 1) / 2 }
{
    (a + b + 1) / 2
}

// The entries that a redistribution moves, to the left page or to the right one.
fn moved(x: Page, y: Page) -> EntryList
    requires { (x.count ≤ room) × (y.count ≤ room) }
    ensures { (listed result ≡ moved_of (used x.count x.entries) (used y.count y.entries)) × (result.count ≤ room) }
{
    let a = x.count as usize;
    let c = share(a, y.count as usize);
    if a < c {
        let entries = y.entries;
        return EntryList {
            count: c - a,
            entries,
        };
    }
    without_first(x.entries, a, c)
}

// The left page's last key after it.
fn shared_key(x: Page, y: Page) -> u32
    requires { (x.count ≤ room) × (y.count ≤ room) × (room < x.count + y.count) }
    ensures { result ≡ shared_key (used x.count x.entries) (used y.count y.entries) }
{
    let a = x.count as usize;
    let b = y.count as usize;
    let i = share(a, b) - 1;
    if i < a {
        return entry_in(x.entries, a, i).key;
    }
    entry_in(y.entries, b, i - a).key
}

// 01: "Join means merge if together they hold at most 14; otherwise redistribute, then link again."
fn join(
    wp: &mut [u8],
    wl: &mut [u8],
    n: usize,
    m: usize,
    t: Run,
    p: u32,
    l: u32,
    r: u32,
    w: u32,
) -> Run
    requires { HasAreas n m wp.old wl.old }
    ensures { Does n m wp wl t result (model.join p l r w) }
{
    let x = page_at(wp, n, l);
    let y = page_at(wp, n, r);
    if x.count + y.count <= MOST_ENTRIES {
        let row = merge_row(l, r, y.high, y.right, list_of(y));
        return emit(wp, wl, n, m, t, row);
    }
    let row = redistribute_row(l, r, shared_key(x, y), moved(x, y));
    let u = emit(wp, wl, n, m, t, row);
    link_child(wp, wl, n, m, u, p, l, w)
}

// 01: "link an indirect page after R".
fn link_after(
    wp: &mut [u8],
    wl: &mut [u8],
    n: usize,
    m: usize,
    t: Run,
    p: u32,
    r: u32,
    w: u32,
) -> Run
    requires { HasAreas n m wp.old wl.old }
    ensures { Does n m wp wl t result (model.link_after p r w) }
{
    let x = page_at(wp, n, r);
    if x.high >= w {
        return t;
    }
    link_child(wp, wl, n, m, t, p, r, w)
}

// 01: "unlink R; join Q and R"; "unlink Q; join L and Q".
fn unlink_join(
    wp: &mut [u8],
    wl: &mut [u8],
    n: usize,
    m: usize,
    t: Run,
    p: u32,
    l: u32,
    r: u32,
) -> Run
    requires { HasAreas n m wp.old wl.old }
    ensures { Does n m wp wl t result (model.unlink_join p l r) }
{
    let x = page_at(wp, n, l);
    let y = page_at(wp, n, r);
    let u = emit(wp, wl, n, m, t, unlink_row(p, l, r, x.high, y.high));
    join(wp, wl, n, m, u, p, l, r, y.high)
}

// The left neighbour of q: the child d of the entry before, or the page after it that has just been linked.
fn join_left(
    wp: &mut [u8],
    wl: &mut [u8],
    n: usize,
    m: usize,
    t: Run,
    p: u32,
    d: u32,
    q: u32,
) -> Run
    requires { HasAreas n m wp.old wl.old }
    ensures { Does n m wp wl t result (model.join_left p d q) }
{
    let x = page_at(wp, n, d);
    if x.right == q {
        return unlink_join(wp, wl, n, m, t, p, d, q);
    }
    unlink_join(wp, wl, n, m, t, p, x.right, q)
}

// 01: "If Q is not P's last child, take R, the next ..; If Q is last, take its left neighbour L, linking it first if indirect".
fn restock(wp: &mut [u8], wl: &mut [u8], n: usize, m: usize, t: Run, k: u32, q: u32, p: u32) -> Run
    requires { HasAreas n m wp.old wl.old }
    ensures { Does n m wp wl t result (λ (s : model.Run). model.restock k q (record { run = s; page = p })) }
{
    let x = page_at(wp, n, p);
    let es = x.entries;
    let count = x.count as u8;
    let i = find(es, count, k);
    if i + 1 < count {
        let f = es[i as usize + 1];
        let u = link_after(wp, wl, n, m, t, p, f.val, f.key);
        return unlink_join(wp, wl, n, m, u, p, q, f.val);
    }
    let d = before(es, i).unwrap_or_default();
    let u = link_after(wp, wl, n, m, t, p, d.val, d.key);
    join_left(wp, wl, n, m, u, p, d.val, q)
}

// 01: "Go on in the page covering k."
fn refind(wp: &[u8], n: usize, k: u32, p: u32) -> u32
    requires { HasPages n wp.now }
    ensures { (s : model.Run) → Pages n wp.now s.pages s.lefts → result ≡ (model.refind k p s).page }
{
    let x = page_at(wp, n, p);
    let e = entry_for(x, k);
    half(wp, n, k, e.val)
}

// Step 3: "if Q has 4 entries: split P if full", then join.
fn stocked(wp: &mut [u8], wl: &mut [u8], n: usize, m: usize, d: Pair, k: u32) -> At
    requires { HasAreas n m wp.old wl.old }
    ensures { (e : model.Pair) → ShowsPair n m wp.old wl.old d e → ShowsAt n m wp.new wl.new result (model.stocked k e) }
{
    let x = page_at(wp, n, d.child);
    if x.count != 4 {
        return At {
            run: d.run,
            page: d.child,
        };
    }
    let a = make_room(wp, wl, n, m, d.run, k, d.parent);
    let u = restock(wp, wl, n, m, a.run, k, d.child, a.page);
    At {
        run: u,
        page: refind(wp, n, k, a.page),
    }
}

// The root takes the level and the entries of its only child q.
fn lower_root(wp: &mut [u8], wl: &mut [u8], n: usize, m: usize, t: Run, q: u32) -> Run
    requires { HasAreas n m wp.old wl.old }
    ensures { Does n m wp wl t result (model.lower_root q) }
{
    let x = page_at(wp, n, q);
    emit(wp, wl, n, m, t, lower_row(x.level, q, list_of(x)))
}

// Step 3: "if P is the root with one link, lower it and repeat from there."
fn step(wp: &mut [u8], wl: &mut [u8], n: usize, m: usize, d: Pair, k: u32) -> At
    requires { HasAreas n m wp.old wl.old }
    ensures { (e : model.Pair) → ShowsPair n m wp.old wl.old d e
        → ShowsAt n m wp.new wl.new result (model.step_by (model.lone e) k e) }
{
    if d.parent != 1 || page_at(wp, n, 1).count != 1 {
        return stocked(wp, wl, n, m, d, k);
    }
    let u = lower_root(wp, wl, n, m, d.run, d.child);
    At { run: u, page: 1 }
}

// Down to the leaf that covers k, from the root.
fn descend_remove(wp: &mut [u8], wl: &mut [u8], n: usize, m: usize, t: Run, k: u32) -> At
    requires { HasAreas n m wp.old wl.old }
    ensures { DoesAt n m wp wl t result (λ (s : model.Run). model.descend_remove (layout.at s.pages 1).level k 1 s) }
{
    let root = page_at(wp, n, 1);
    let mut at = At { run: t, page: 1 };
    for _ in 0..root.level {
        let d = direct(wp, wl, n, m, at.run, k, at.page);
        at = step(wp, wl, n, m, d, k);
    }
    at
}

// A REMOVAL: a delete or an undo-insert.
pub fn remove_record(
    wp: &mut [u8],
    wl: &mut [u8],
    n: usize,
    m: usize,
    t: Run,
    kind: u32,
    batch: u32,
    previous: u32,
    k: u32,
    v: u32,
) -> Run
    requires { HasAreas n m wp.old wl.old × (kind < 9) }
    ensures { Does n m wp wl t result (model.remove_record (kind_of kind) batch previous k v) }
{
    let u = raise_root(wp, wl, n, m, t);
    let a = descend_remove(wp, wl, n, m, u, k);
    let r = data_row(kind, batch, previous, a.page, k, v);
    emit(wp, wl, n, m, a.run, r)
}
