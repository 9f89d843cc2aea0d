// The tree rules, judged by a walk over the lent bytes: level by level from the root down, and along each level's chain.
#![tactic(auto)]

ghost use Rattle.std.specs.Prelude.{◌≡◌, true, false, ◌≤◌, ◌<◌, eqb};
ghost use Rattle.def_layout.specs.Sizes.{most_pages, room};
ghost use Rattle.def_layout.specs.Entries.{entry_at};
ghost use Rattle.def_layout.specs.Pages.{at, kind_is, kind_at};
ghost use Rattle.law_bytes.specs.AreaSizes.{HasPages};
ghost use Rattle.law_bytes.specs.EntryBytes.{used};
ghost use Rattle.codec_page.specs.Typed.{typed};
ghost use Rattle.law_bytes.specs.PageAreas.{pages_of};
ghost use Rattle.codec_map.specs.Turns.{marks};
ghost use Rattle.def_model.specs.Fit.{after};
ghost use Rattle.def_model.specs.TreeRules.{first_child, rising, node_ok, walk_ok, tree_ok};
ghost use Rattle.tree_check.specs.Under.{stands};
ghost use Rattle.tree_check.specs.Level.{node, reached, page_fits, level_end};
ghost use Rattle.tree_check.specs.Rules.{root_few, above_root};
ghost use Rattle.tree_check.specs.Above.{shown, Readied, Passed, Started};

use codec_map::count_used;
use codec_page::{Page, marked, nth_page, size_of};
use def_layout::page::PageKind;
use def_layout::{Entry, ROOM};

// 01: a page beside another holds at least 4 entries.
const LEAST: usize = 4;

// One above the highest key.
const PAST_TOP: usize = 4294967296;

// The place in the level above: the entries of a page there, the first of them that is left, the page after it, and how many pages may
// follow. An indirect page is due if the last page passed ended below its entry's key.
#[derive(Clone, Copy)]
struct Above {
    entries: [Entry; ROOM],
    count: usize,
    place: usize,
    next: usize,
    left: usize,
    due: bool,
}

// ---- one page

fn kind_ok(x: Page, level: u32) -> bool
    ensures { result ≡ kind_is (typed x).kind (kind_at level) }
{
    x.kind == PageKind::at_level(level)
}

// Page p is in the area, of the level's kind and level, and marked as used.
fn reached(map: [Entry; ROOM], n: usize, x: Page, p: usize, level: u32) -> bool
    requires { n ≤ most_pages }
    ensures { result ≡ reached n (marks map) level p (typed x) }
{
    if p == 0 {
        return false;
    }
    if p >= n {
        return false;
    }
    if !kind_ok(x, level) {
        return false;
    }
    if x.level != level {
        return false;
    }
    marked(map, p)
}

// Whether the first m keys rise strictly, none of them below `from`.
fn rises(es: [Entry; ROOM], m: usize, from: usize) -> bool
    requires { m ≤ room }
    ensures { result ≡ rising from (used m es) }
{
    let mut least = from;
    for i in 0..m {
        let k = es[i].key as usize;
        if k < least {
            return false;
        }
        least = k + 1;
    }
    true
}

// One above the last of m keys.
fn after(es: [Entry; ROOM], m: usize, from: usize) -> usize
    requires { m ≤ room }
    ensures { result ≡ after from (used m es) }
{
    if m == 0 {
        return from;
    }
    let e = es[m - 1];
    e.key as usize + 1
}

// What a page of the level has to keep by itself: `from` is one above its left neighbour's high key, `few` how few entries it may hold.
fn node_ok(x: Page, level: u32, few: usize, from: usize) -> bool
    ensures { result ≡ node_ok (eqb level 0) few from (node 0 (typed x)) }
{
    let m = size_of(x);
    let high = x.high as usize;
    if m > ROOM {
        return false;
    }
    if m < few {
        return false;
    }
    if high < from {
        return false;
    }
    let es = x.entries;
    if !rises(es, m, from) {
        return false;
    }
    let end = after(es, m, from);
    if level == 0 {
        return end <= high + 1;
    }
    end == high + 1
}

// All that is asked of page p but its place under the level above.
fn page_ok(
    map: [Entry; ROOM],
    n: usize,
    x: Page,
    p: usize,
    level: u32,
    few: usize,
    from: usize,
) -> bool
    requires { n ≤ most_pages }
    ensures { result ≡ page_fits n (marks map) level few from p (typed x) }
{
    if !reached(map, n, x, p, level) {
        return false;
    }
    node_ok(x, level, few, from)
}

// How few entries the pages of the root's level may hold: beside a sibling as many as others, else none as a leaf and one as an index.
fn root_few(x: Page) -> usize
    ensures { result ≡ root_few (typed x) }
{
    if x.right != 0 {
        return LEAST;
    }
    if x.level == 0 {
        return 0;
    }
    1
}

// ---- the level above

// Above the root: it is the child of an entry that goes up to the top key.
fn above_root() -> Above
    ensures { (shown result ≡ above_root) × (result.next ≡ 0) × (result.due ≡ false) }
{
    Above {
        entries: [Entry {
            key: u32::MAX,
            val: 1,
        }; ROOM],
        count: 1,
        place: 0,
        next: 0,
        left: 0,
        due: false,
    }
}

// The first entry of page p, which `left` pages may follow.
fn start_above(pages: &[u8], n: usize, p: usize, left: usize, due: bool) -> Above
    requires { HasPages n pages.now }
    ensures { Started (pages_of n pages.now) p left due result }
{
    let x = nth_page(pages, n, p);
    let es = x.entries;
    Above {
        entries: es,
        count: size_of(x),
        place: 0,
        next: x.right as usize,
        left,
        due,
    }
}

// The same place, at an entry if one is left: from a page's end on to the next page. (A page above has an entry, so this is one step.)
fn ready(pages: &[u8], n: usize, c: Above) -> Above
    requires { HasPages n pages.now }
    ensures { Readied (pages_of n pages.now) c result }
{
    let mut r = c;
    while r.count <= r.place {
        if r.next == 0 || r.left == 0 {
            break;
        }
        r = start_above(pages, n, r.next, r.left - 1, r.due);
    }
    r
}

// The entry at hand.
fn entry_of(c: Above) -> Entry
    ensures { result ≡ entry_at c.entries c.place }
{
    let es = c.entries;
    es.get(c.place).copied().unwrap_or_default()
}

// The page that begins the level below.
fn first_child(c: Above) -> usize
    ensures { result ≡ first_child (shown c) }
{
    if c.count <= c.place {
        return 0;
    }
    entry_of(c).val as usize
}

// Whether page p, of that high key, is what the level above asks for: an entry's child up to its key, or the page that is due, with its key.
fn stands_under(c: Above, p: usize, high: u32) -> bool
    ensures { (result ≡ stands c.due (shown c) p high) × (result ≡ true → c.place < c.count) }
{
    if c.count <= c.place {
        return false;
    }
    let e = entry_of(c);
    if c.due {
        return high == e.key;
    }
    if e.val as usize != p {
        return false;
    }
    high <= e.key
}

// The place after a page of that high key: the entry stays if the page ended below its key.
fn passed(c: Above, high: u32) -> Above
    requires { c.place < c.count }
    ensures { Passed c high result }
{
    if high < entry_of(c).key {
        return Above { due: true, ..c };
    }
    Above {
        due: false,
        place: c.place + 1,
        ..c
    }
}

// Whether a level may end there: its last high key is top, no page is due, and no entry is left.
fn level_ended(c: Above, from: usize) -> bool
    ensures { result ≡ level_end from c.due (shown c) }
{
    if from != PAST_TOP {
        return false;
    }
    if c.due {
        return false;
    }
    c.count <= c.place
}

// ---- the walk

// Level by level and page by page, left at the first rule that is broken; `count` is of the map and the pages passed. (01's form: nested loops over levels and
// chain pages, left by a label. Kept for it.)
fn levels_ok(pages: &[u8], n: usize, map: [Entry; ROOM]) -> bool
    requires { HasPages n pages.now × ((at (pages_of n pages.now) 0).marks ≡ marks map) }
    ensures { result ≡ walk_ok (pages_of n pages.now) }
{
    let root = nth_page(pages, n, 1);
    let mut level = root.level;
    let mut few = root_few(root);
    let mut above = above_root();
    let mut count: usize = 1;
    'levels: loop {
        let first = first_child(above);
        let mut p = first;
        let mut from: usize = 0;
        let mut left = n;
        while p != 0 {
            if left == 0 {
                break 'levels;
            }
            let x = nth_page(pages, n, p);
            if !page_ok(map, n, x, p, level, few, from) {
                break 'levels;
            }
            above = ready(pages, n, above);
            if !stands_under(above, p, x.high) {
                break 'levels;
            }
            above = passed(above, x.high);
            from = x.high as usize + 1;
            p = x.right as usize;
            left -= 1;
            count += 1;
        }
        above = ready(pages, n, above);
        if !level_ended(above, from) {
            break 'levels;
        }
        if level == 0 {
            return count == count_used(map, n);
        }
        above = start_above(pages, n, first, n - 1, false);
        level -= 1;
        few = LEAST;
    }
    false
}

// THE TREE RULES of an area of n pages.
pub fn tree_ok(pages: &[u8], n: usize) -> bool
    requires { HasPages n pages.now }
    ensures { result ≡ tree_ok (pages_of n pages.now) }
{
    let x = nth_page(pages, n, 0);
    let PageKind::Map = x.kind else {
        return false;
    };
    let map = x.entries;
    if !marked(map, 0) {
        return false;
    }
    levels_ok(pages, n, map)
}
