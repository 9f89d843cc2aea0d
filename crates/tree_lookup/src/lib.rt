// Fetch, next and previous in the tree, over the lent bytes of the pages: whatever these show, each has an answer.
#![tactic(auto)]

ghost use Rattle.std.specs.Prelude.{◌≡◌, ◌≤◌};
ghost use Rattle.def_layout.specs.Sizes.{room};
ghost use Rattle.def_layout.specs.Entries.{seek, look};
ghost use Rattle.def_layout.specs.Pages.{at};
ghost use Rattle.def_model.specs.Lookup.{entry_for, covering, leaf_of, fetched, first_of, next_above, last_below, last_entry, previous_below};
ghost use Rattle.law_bytes.specs.AreaSizes.{HasPages};
ghost use Rattle.codec_page.specs.Typed.{typed};
ghost use Rattle.law_bytes.specs.PageAreas.{pages_of, lefts_of};
ghost use Rattle.law_areas.specs.Pages.{AllPagesFit};
ghost use Rattle.tree_lookup.specs.Answers.{option_of, shows};
ghost use Rattle.tree_lookup.specs.Searched.{searched};
ghost use Rattle.tree_lookup.specs.Backwards.{Short, preceding};

use codec_entries::find;
use codec_page::{Page, left_of, nth_page, size_of};
use def_layout::page::PageKind;
use def_layout::{Entry, MOST_ENTRIES, ROOM};

// A page of an area, and its number there.
#[derive(Clone, Copy)]
pub struct Node {
    pub number: usize,
    pub page: Page,
}

// How many entries the search goes over: of the map none, and of a count above fourteen the fourteen that there are. The others that such a
// count shows are zero, and no key stops at them.
fn searched(x: Page) -> u8
    ensures { (result ≡ searched x) × (result ≤ room) }
{
    match x.kind {
        PageKind::Map => 0,
        _ => x.count.min(MOST_ENTRIES) as u8,
    }
}

// The first entry of a page whose key is not below k.
fn seek_in(x: Page, k: u32) -> Option<Entry>
    ensures { option_of result ≡ seek k (typed x).entries }
{
    let n = searched(x);
    let es = x.entries;
    let i = find(es, n, k);
    if i < n { Some(es[i as usize]) } else { None }
}

// The value that a page has under k.
fn look_in(x: Page, k: u32) -> Option<u32>
    ensures { option_of result ≡ look k (typed x).entries }
{
    let e = seek_in(x, k)?;
    if e.key == k { Some(e.val) } else { None }
}

// The entry of a page that leads to k.
pub fn entry_for(x: Page, k: u32) -> Entry
    ensures { result ≡ entry_for k (typed x).entries }
{
    match seek_in(x, k) {
        Some(e) => e,
        None => Entry { key: 0, val: 0 },
    }
}

// A page's first entry.
fn first_of(x: Page) -> Option<Entry>
    ensures { option_of result ≡ first_of (typed x).entries }
{
    if size_of(x) == 0 {
        return None;
    }
    let es = x.entries;
    Some(es[0])
}

// The entry before place i.
pub fn before(es: [Entry; ROOM], i: u8) -> Option<Entry>
    requires { i ≤ room }
    ensures { option_of result ≡ preceding i es }
{
    if i == 0 {
        return None;
    }
    Some(es[i as usize - 1])
}

// The last entry of a page whose key is below k.
fn last_below(x: Page, k: u32) -> Option<Entry>
    ensures { Short x → option_of result ≡ last_below k (typed x).entries }
{
    before(x.entries, find(x.entries, searched(x), k))
}

// A page's last entry.
fn last_of(x: Page) -> Option<Entry>
    ensures { Short x → option_of result ≡ last_entry (typed x).entries }
{
    before(x.entries, searched(x))
}

// The page covering k: page p, or the page after it.
pub fn covering(pages: &[u8], n: usize, k: u32, p: usize) -> Node
    requires { HasPages n pages.now }
    ensures { shows result (covering k p (pages_of n pages.now)) (pages_of n pages.now) }
{
    let x = nth_page(pages, n, p);
    if k <= x.high {
        return Node { number: p, page: x };
    }
    let q = x.right as usize;
    Node {
        number: q,
        page: nth_page(pages, n, q),
    }
}

// One level down: the child that leads to k, of the page covering it.
fn child_for(pages: &[u8], n: usize, k: u32, p: usize) -> usize
    requires { HasPages n pages.now }
    ensures { result ≡ (entry_for k (at (pages_of n pages.now) (covering k p (pages_of n pages.now))).entries).val }
{
    let x = covering(pages, n, k, p).page;
    entry_for(x, k).val as usize
}

// The leaf covering k, down from the root as many levels as the root says.
fn leaf_of(pages: &[u8], n: usize, k: u32) -> Node
    requires { HasPages n pages.now }
    ensures { shows result (leaf_of k (pages_of n pages.now)) (pages_of n pages.now) }
{
    let root = nth_page(pages, n, 1);
    let mut p = 1;
    for _ in 0..root.level {
        p = child_for(pages, n, k, p);
    }
    covering(pages, n, k, p)
}

// 01: "Fetch answers a key's value."
pub fn fetched(pages: &[u8], n: usize, k: u32) -> Option<u32>
    requires { HasPages n pages.now }
    ensures { option_of result ≡ fetched k (pages_of n pages.now) }
{
    look_in(leaf_of(pages, n, k).page, k)
}

// 01: "Next answers the first record above a key." In the leaf that covers the key after it, or else first in the leaf after that one.
pub fn next_above(pages: &[u8], n: usize, k: u32) -> Option<Entry>
    requires { HasPages n pages.now }
    ensures { option_of result ≡ next_above k (pages_of n pages.now) }
{
    let above = k.checked_add(1)?;
    let x = leaf_of(pages, n, above).page;
    match seek_in(x, above) {
        Some(e) => Some(e),
        None => first_of(nth_page(pages, n, x.right as usize)),
    }
}

// 02, U5: "previous", the mirror of next. In the leaf that covers the key before it, or else last in the leaf to the left of that one. (No page has more
// than 14 entries.)
pub fn previous_below(pages: &[u8], n: usize, k: u32) -> Option<Entry>
    requires { HasPages n pages.now }
    ensures { AllPagesFit (pages_of n pages.now) → option_of result ≡ previous_below k (pages_of n pages.now) (lefts_of n pages.now) }
{
    let below = k.checked_sub(1)?;
    let leaf = leaf_of(pages, n, below);
    match last_below(leaf.page, k) {
        Some(e) => Some(e),
        None => {
            let left = left_of(pages, n, leaf.number);
            last_of(nth_page(pages, n, left as usize))
        }
    }
}
