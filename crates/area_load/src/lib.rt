// Pages for records: each page of the tree that a loading builds, by its number and by value, and their map.
#![tactic(auto)]

ghost use Rattle.std.specs.Prelude.{◌≡◌, false, map, suc, ◌+◌, ◌*◌, ◌/◌, ◌-◌, ◌≤◌, ◌<◌, length, leb};
ghost use Rattle.def_layout.specs.Entries.{entry_at};
ghost use Rattle.def_layout.specs.Numbers.{tab};
ghost use Rattle.def_layout.specs.Sizes.{room, page_size};
ghost use Rattle.def_layout.specs.Pages.{node_at, map_bits};
ghost use Rattle.def_layout.specs.PageBytes.{page};
ghost use Rattle.def_model.specs.Loading.{columns, group_count, loaded_count, loaded_pages};
ghost use Rattle.def_model.specs.OnBytes.{pages_bytes};
ghost use Rattle.theory_load.specs.Places.{share_of, group_end, group_start};
ghost use Rattle.theory_load.specs.Rungs.{count_up, under, key_or_top, level_entry, placed};
ghost use Rattle.codec_page.specs.Typed.{typed};
ghost use Rattle.area_load.specs.Placed.{Placed, Within};
ghost use Rattle.area_load.specs.Columns.{Columns, loaded_page};
ghost use Rattle.area_load.specs.Maps.{used_word, used_map};

use codec_page::{Page, write_at, zero_page};
use def_layout::page::PageKind;
use def_layout::{Entry, PAGE_SIZE, ROOM};

// 02: "leaves take 10 each".
const SHARE: usize = 10;

const TOP: u32 = u32::MAX;

// How many of the entries left the next page takes: where the last would be left fewer than 4, the larger half.
fn share(left: usize) -> usize
    ensures { result ≡ share_of left }
{
    if left <= SHARE {
        return left;
    }
    if left <= 13 {
        return (left + 1) / 2;
    }
    SHARE
}

// The pages of a tree that holds n entries.
pub fn tree_pages(n: usize) -> usize
    requires { n ≤ 65536 }
    ensures { result ≡ loaded_count n }
{
    let mut left = n;
    let mut pages = 1;
    while left > ROOM {
        left = (left + 9) / SHARE;
        pages = pages + left;
    }
    pages
}

// Whether so many pages hold n records and the map. (More than 8,960 fill a tenth as many leaves, which is too much for any register.)
pub fn tree_fits(n: usize, pages: usize) -> bool
    requires { pages ≤ map_bits }
    ensures { result ≡ leb (suc (loaded_count n)) pages }
{
    if n > 8960 {
        return false;
    }
    tree_pages(n) < pages
}

// So many of n entries are taken after page j.
fn group_end(n: usize, j: usize) -> usize
    requires { (n ≤ 65536) × (j < group_count n) }
    ensures { result ≡ group_end n j }
{
    if j + 1 == (n + 9) / SHARE {
        return n;
    }
    SHARE * j + share(n - SHARE * j)
}

// And before it.
fn group_start(n: usize, j: usize) -> usize
    requires { (n ≤ 65536) × (j < group_count n) }
    ensures { result ≡ group_start n j }
{
    if j == 0 {
        return 0;
    }
    group_end(n, j - 1)
}

// So many entries stand at a height.
fn level_count(n: usize, height: usize) -> usize
    requires { n ≤ 65536 }
    ensures { result ≡ count_up height n }
{
    let mut count = n;
    for _ in 0..height {
        count = (count + 9) / SHARE;
    }
    count
}

// Of n records the last one in or below entry i of a height; n where that entry ends its level.
pub fn last_under(n: usize, height: usize, i: usize) -> usize
    requires { (n ≤ 65536) × (i < count_up height n) }
    ensures { result ≡ under n height i }
{
    let mut j = i;
    for h in (0..height).rev() {
        let count = level_count(n, h);
        if j + 1 == (count + 9) / SHARE {
            return n;
        }
        j = group_end(count, j) - 1;
    }
    j
}

// What a page holds: so many entries from one of its height's on, and whether it ends its level. Links are to the pages from `below` on.
#[derive(Clone, Copy)]
pub struct Place {
    pub height: usize,
    pub below: usize,
    pub from: usize,
    pub size: usize,
    pub ends: bool,
}

// The place of page p in the tree of n records.
pub fn place_of(n: usize, p: usize) -> Place
    requires { (n ≤ 65536) × (0 < p) × (p ≤ loaded_count n) }
    ensures { Placed n p result }
{
    let mut height = 0;
    let mut count = n;
    let mut end = tree_pages(n) + 1;
    while count > ROOM {
        let pages = (count + 9) / SHARE;
        let first = end - pages;
        if p >= first {
            let from = group_start(count, p - first);
            let size = group_end(count, p - first) - from;
            return Place {
                height,
                below: end,
                from,
                size,
                ends: p - first + 1 == pages,
            };
        }
        count = pages;
        end = first;
        height += 1;
    }
    Place {
        height,
        below: end,
        from: 0,
        size: count,
        ends: true,
    }
}

// The key of record i, top past the last.
fn key_or_top(keys: &[u32], values: &[u32], i: usize) -> u32
    requires { Columns keys.now values.now }
    ensures { result ≡ key_or_top (columns keys.now values.now) i }
{
    if i < keys.len() {
        return keys[i];
    }
    TOP
}

// Entry i of a height.
fn entry_of(keys: &[u32], values: &[u32], height: usize, below: usize, i: usize) -> Entry
    requires { Columns keys.now values.now × (i < count_up height (length keys.now)) × (below + i ≤ 1000000) }
    ensures { result ≡ level_entry (columns keys.now values.now) height below i }
{
    if height == 0 {
        return Entry {
            key: keys[i],
            val: values[i],
        };
    }
    Entry {
        key: key_or_top(keys, values, last_under(keys.len(), height, i)),
        val: (below + i) as u32,
    }
}

// The entries of a page. (The literal stays where they begin: what `Entry::default()` makes is known by its contract alone, and the proof of all 14 computes.)
fn entries_of(keys: &[u32], values: &[u32], x: Place) -> [Entry; ROOM]
    requires { Columns keys.now values.now × Within (length keys.now) x }
    ensures { tab x.size (entry_at result) ≡ tab x.size (λ i. level_entry (columns keys.now values.now) x.height x.below (x.from + i)) }
{
    let mut es = [Entry { key: 0, val: 0 }; ROOM];
    for i in 0..x.size {
        es[i] = entry_of(keys, values, x.height, x.below, x.from + i);
    }
    es
}

// Page p, with these entries.
fn node(x: Place, es: [Entry; ROOM], p: usize, right: u32, high: u32) -> Page
    requires { (x.height ≤ 65536) × (x.size ≤ room) × (p ≤ 65536) }
    ensures { typed result ≡ node_at p x.height right high (tab x.size (entry_at es)) }
{
    let level = x.height as u32;
    Page {
        kind: PageKind::at_level(level),
        level,
        count: x.size as u32,
        right,
        high,
        lsn: 0,
        own: p as u32,
        entries: es,
    }
}

// Page p of the tree.
fn tree_page(keys: &[u32], values: &[u32], p: usize) -> Page
    requires { Columns keys.now values.now × (0 < p) × (p ≤ loaded_count (length keys.now)) }
    ensures { typed result ≡ loaded_page (columns keys.now values.now) p }
{
    let x = place_of(keys.len(), p);
    let es = entries_of(keys, values, x);
    if x.ends {
        return node(x, es, p, 0, TOP);
    }
    let last = es[x.size - 1];
    node(x, es, p, p as u32 + 1, last.key)
}

// Word j of the map of so many used pages: a bit for each of 32 pages, the first one the highest.
fn map_word(used: usize, j: usize) -> u32
    requires { j < 28 }
    ensures { result ≡ used_word used j }
{
    if used <= 32 * j {
        return 0;
    }
    let k = used - 32 * j;
    if k >= 32 {
        return u32::MAX;
    }
    u32::MAX - (u32::MAX >> k)
}

// The map of so many used pages. (The literal stays, as in `entries_of`.)
pub fn load_map(used: usize) -> Page
    requires { used ≤ map_bits }
    ensures { typed result ≡ used_map used }
{
    let mut es = [Entry { key: 0, val: 0 }; ROOM];
    for i in 0..ROOM {
        let key = map_word(used, 2 * i);
        es[i] = Entry {
            key,
            val: map_word(used, 2 * i + 1),
        };
    }
    Page {
        kind: PageKind::Map,
        level: 0,
        count: 0,
        right: 0,
        high: 0,
        lsn: 0,
        own: 0,
        entries: es,
    }
}

// Page p of a register that holds the columns' records: the map, a page of the tree, or a free one.
pub fn load_page(keys: &[u32], values: &[u32], p: usize) -> Page
    requires { Columns keys.now values.now }
    ensures { typed result ≡ loaded_page (columns keys.now values.now) p }
{
    let used = tree_pages(keys.len()) + 1;
    if p == 0 {
        return load_map(used);
    }
    if p < used {
        return tree_page(keys, values, p);
    }
    zero_page()
}

// All of them.
pub fn load_pages(wp: &mut [u8], keys: &[u32], values: &[u32])
    requires { Columns keys.now values.now × (length wp.old ≡ page_size * (length wp.old / page_size)) × (loaded_count (length keys.now) < length wp.old / page_size) }
    ensures { wp.new ≡ pages_bytes (map page (loaded_pages (length wp.old / page_size) (columns keys.now values.now))) }
{
    let n = wp.len() / PAGE_SIZE;
    for p in 0..n {
        write_at(wp, PAGE_SIZE * p, load_page(keys, values, p));
    }
}
