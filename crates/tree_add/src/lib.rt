// Going down to add key k: pages are split and linked on the way, and a full leaf is split.
#![tactic(auto)]

ghost use Rattle.std.specs.Prelude.{◌≡◌, List, ℕ, ◌≤◌, ◌<◌, leb};
ghost use Rattle.def_layout.specs.Sizes.{room};
ghost use Rattle.def_base.specs.Tests.{pick};
ghost use Rattle.def_layout.specs.Pages as layout;
ghost use Rattle.def_layout.specs.Records.{kind_of};
ghost use Rattle.def_model.specs.Update as model;
ghost use Rattle.law_bytes.specs.AreaSizes.{HasPages, HasAreas};
ghost use Rattle.law_bytes.specs.EntryBytes.{used};
ghost use Rattle.record_apply.specs.Lists.{listed};
ghost use Rattle.record_apply.specs.Pages.{rec};
ghost use Rattle.record_pages.specs.Pages.{Pages};
ghost use Rattle.tree_write.specs.Shows.{Does};
ghost use Rattle.tree_add.specs.Rooms.{DoesAt, DoesPair};
ghost use Rattle.tree_add.specs.Rows.{split_from};

use codec_entries::entry_in;
use codec_page::Page;
use def_layout::MOST_ENTRIES;
use record_apply::Record;
use record_apply::lists::{EntryList, without_first};
use record_make::{data_row, link_row, raise_row, split_row};
use record_pages::page_at;
use tree_lookup::entry_for;
use tree_write::{Run, emit, emit_taking, fresh};

// A run, and the page that it has come to.
#[derive(Clone, Copy)]
pub struct At {
    pub run: Run,
    pub page: u32,
}

// A run, an index page and its child that covers k.
#[derive(Clone, Copy)]
pub struct Pair {
    pub run: Run,
    pub parent: u32,
    pub child: u32,
}

// The entries of a page.
pub fn list_of(x: Page) -> EntryList
    requires { x.count ≤ room }
    ensures { (listed result ≡ used x.count x.entries) × (result.count ≤ room) }
{
    let entries = x.entries;
    EntryList {
        count: x.count as usize,
        entries,
    }
}

// The half covering k, of page p and the one after it.
pub fn half(wp: &[u8], n: usize, k: u32, p: u32) -> u32
    requires { HasPages n wp.now }
    ensures { (xs : List layout.Page) (ls : List ℕ) → Pages n wp.now xs ls → result ≡ pick (leb k (layout.at xs p).high) p (layout.at xs p).right }
{
    let x = page_at(wp, n, p);
    if k <= x.high {
        return p;
    }
    x.right
}

// 01: "A split of 14 leaves 7 and 7 .. the left page's high key becomes its last entry's": the row of page p's split, where b is taken.
fn split_of(x: Page, p: u32, b: u32) -> Record
    requires { x.count ≤ room }
    ensures { (rec result ≡ split_from x.level x.high x.right (used x.count x.entries) p b) × (result.count ≤ room) }
{
    let es = x.entries;
    let count = x.count as usize;
    let key = entry_in(es, count, 6).key;
    let moved = without_first(es, count, 7);
    split_row(x.level, p, b, key, x.high, x.right, moved)
}

fn split_page(wp: &mut [u8], wl: &mut [u8], n: usize, m: usize, t: Run, p: u32) -> Run
    requires { HasAreas n m wp.old wl.old }
    ensures { Does n m wp wl t result (model.split_page p) }
{
    let x = page_at(wp, n, p);
    let b = fresh(wp, n);
    let r = split_of(x, p, b);
    emit_taking(wp, wl, n, m, t, r, b)
}

// 01: "split P if it has 14 entries and go on in the half covering k".
pub fn make_room(wp: &mut [u8], wl: &mut [u8], n: usize, m: usize, t: Run, k: u32, p: u32) -> At
    requires { HasAreas n m wp.old wl.old }
    ensures { DoesAt n m wp wl t result (model.make_room k p) }
{
    let x = page_at(wp, n, p);
    if x.count != MOST_ENTRIES {
        return At { run: t, page: p };
    }
    let u = split_page(wp, wl, n, m, t, p);
    At {
        run: u,
        page: half(wp, n, k, p),
    }
}

// The page after q is linked under p's entry w.
pub fn link_child(
    wp: &mut [u8],
    wl: &mut [u8],
    n: usize,
    m: usize,
    t: Run,
    p: u32,
    q: u32,
    w: u32,
) -> Run
    requires { HasAreas n m wp.old wl.old }
    ensures { Does n m wp wl t result (model.link_child p q w) }
{
    let x = page_at(wp, n, q);
    emit(wp, wl, n, m, t, link_row(p, q, x.right, x.high, w))
}

// Step 2: "At index page P, child Q has the least entry key not below k. If Q's high key is below that entry: .. link; Q becomes the half
// covering k."
pub fn direct(wp: &mut [u8], wl: &mut [u8], n: usize, m: usize, t: Run, k: u32, p: u32) -> Pair
    requires { HasAreas n m wp.old wl.old }
    ensures { DoesPair n m wp wl t result (model.direct k p) }
{
    let x = page_at(wp, n, p);
    let e = entry_for(x, k);
    let q = page_at(wp, n, e.val);
    if q.high >= e.key {
        return Pair {
            run: t,
            parent: p,
            child: e.val,
        };
    }
    let a = make_room(wp, wl, n, m, t, k, p);
    let u = link_child(wp, wl, n, m, a.run, a.page, e.val, e.key);
    Pair {
        run: u,
        parent: a.page,
        child: half(wp, n, k, e.val),
    }
}

// Step 1: "If the root has a right sibling: raise."
pub fn raise_root(wp: &mut [u8], wl: &mut [u8], n: usize, m: usize, t: Run) -> Run
    requires { HasAreas n m wp.old wl.old }
    ensures { Does n m wp wl t result model.raise_root }
{
    let x = page_at(wp, n, 1);
    if x.right == 0 {
        return t;
    }
    let c = fresh(wp, n);
    let r = raise_row(x.level, x.right, c, x.high, list_of(x));
    emit_taking(wp, wl, n, m, t, r, c)
}

// Down to the leaf that covers k, from the root.
fn descend_add(wp: &mut [u8], wl: &mut [u8], n: usize, m: usize, t: Run, k: u32) -> At
    requires { HasAreas n m wp.old wl.old }
    ensures { DoesAt n m wp wl t result (λ (s : model.Run). model.descend_add (layout.at s.pages 1).level k 1 s) }
{
    let root = page_at(wp, n, 1);
    let mut at = At { run: t, page: 1 };
    for _ in 0..root.level {
        let d = direct(wp, wl, n, m, at.run, k, at.page);
        at = At {
            run: d.run,
            page: d.child,
        };
    }
    at
}

// The leaf to add k to. Step 4: "When adding, a full leaf is split."
fn find_add(wp: &mut [u8], wl: &mut [u8], n: usize, m: usize, t: Run, k: u32) -> At
    requires { HasAreas n m wp.old wl.old }
    ensures { DoesAt n m wp wl t result (model.find_add k) }
{
    let u = raise_root(wp, wl, n, m, t);
    let a = descend_add(wp, wl, n, m, u, k);
    make_room(wp, wl, n, m, a.run, k, a.page)
}

// AN ADDITION: an insert or an undo-delete.
pub fn put_record(
    wp: &mut [u8],
    wl: &mut [u8],
    n: usize,
    m: usize,
    t: Run,
    kind: u32,
    batch: u32,
    previous: u32,
    k: u32,
    v: u32,
) -> Run
    requires { HasAreas n m wp.old wl.old × (kind < 9) }
    ensures { Does n m wp wl t result (model.put_record (kind_of kind) batch previous k v) }
{
    let a = find_add(wp, wl, n, m, t, k);
    let r = data_row(kind, batch, previous, a.page, k, v);
    emit(wp, wl, n, m, a.run, r)
}
