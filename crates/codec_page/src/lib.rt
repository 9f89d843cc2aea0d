// A page by value, read from and written to the 128 bytes where it stands.
#![tactic(auto)]

ghost use Rattle.std.specs.Prelude.{◌≡◌, eqb, true, ℕ, ◌+◌, ◌-◌, ◌*◌, ◌/◌, ◌%◌, ◌≤◌, ◌<◌, length, get_or};
ghost use Rattle.def_layout.specs.Sizes.{page_size, most_pages};
ghost use Rattle.def_layout.specs.Pages.{at, zero_page, layout};
ghost use Rattle.def_layout.specs.PageBytes.{page_fields, page_front, page_bytes, read_block, without_left};
ghost use Rattle.law_bytes.specs.AreaSizes.{HasPages};
ghost use Rattle.law_bytes.specs.Words.{part};
ghost use Rattle.law_bytes.specs.Patch.{patch};
ghost use Rattle.law_bytes.specs.EntryBytes.{used};
ghost use Rattle.codec_page.specs.Typed.{typed, shown_page, written, map_word, map_mark};
ghost use Rattle.law_bytes.specs.PageBytes.{front_word};
ghost use Rattle.law_bytes.specs.PageAreas.{pages_of, lefts_of, judged};
ghost use Rattle.codec_page.specs.Judged.{unused_zero};
ghost use Rattle.codec_page.specs.Working.{spare_zero};
ghost use Rattle.law_bytes.specs.LeftLinks.{linked_word};
ghost use Rattle.def_layout.specs.Numbers.{be32, put32};
ghost use Rattle.codec_page.specs.Layouts.{bare_with, free_layout, leaf_layout, index_layout, map_layout, unmarked_from};
ghost use Rattle.def_model.specs.Areas.{block_ok};

use codec_bytes::{copy, get32, is_zero, set32};
use codec_entries::{blank_from, children_fit, read_entries, write_entries};
use def_layout::page::PageKind;
use def_layout::{Entry, MOST_ENTRIES, MOST_PAGES, PAGE_SIZE, ROOM, page};

// What a page holds. Of the map the 14 entries hold the 28 words of its marks, two to an entry.
#[derive(Clone, Copy)]
pub struct Page {
    pub kind: PageKind,
    pub level: u32,
    pub count: u32,
    pub right: u32,
    pub high: u32,
    pub lsn: u32,
    pub own: u32,
    pub entries: [Entry; ROOM],
}

// How many entries are in use: the map has none.
pub fn size_of(x: Page) -> usize
    ensures { ((typed x).entries ≡ used result x.entries) × (result ≤ x.count) }
{
    match x.kind {
        PageKind::Map => 0,
        _ => x.count as usize,
    }
}

pub fn read_page(b: &[u8]) -> Page
    requires { length b.now ≡ page_size }
    ensures { (typed result ≡ page_fields b.now) × (result ≡ shown_page b.now) }
{
    let w = get32(b, page::FRONT_AT);
    let es = read_entries(b, page::ENTRIES_AT);
    Page {
        kind: PageKind::from_bits(w / page::KIND_UNIT),
        level: w / page::LEVEL_UNIT % 16,
        count: w / page::COUNT_UNIT % 16,
        right: w / page::RIGHT_UNIT % 1024,
        high: get32(b, page::HIGH_AT),
        lsn: get32(b, page::LSN_AT),
        own: get32(b, page::OWN_AT) / page::OWN_UNIT,
        entries: es,
    }
}

// The front's first word.
fn pack_front(p: Page) -> u32
    ensures { result ≡ front_word (typed p) }
{
    u32::from(p.kind) * page::KIND_UNIT
        + p.level % 16 * page::LEVEL_UNIT
        + (size_of(p) as u32) % 16 * page::COUNT_UNIT
        + p.right % 1024 * page::RIGHT_UNIT
}

fn write_front(b: &mut [u8], p: Page)
    requires { length b.old ≡ page_size }
    ensures { b.new ≡ patch b.old 0 (page_front (typed p)) }
{
    set32(b, page::FRONT_AT, pack_front(p));
    set32(b, page::HIGH_AT, p.high);
    set32(b, page::LSN_AT, p.lsn);
    set32(b, page::OWN_AT, p.own % 1024 * page::OWN_UNIT);
}

// How many entries are written: those in use, or all of the map's words.
fn to_write(p: Page) -> usize
    ensures { result ≡ written p }
{
    match p.kind {
        PageKind::Map => ROOM,
        _ => p.count as usize,
    }
}

pub fn write_page(b: &mut [u8], p: Page)
    requires { length b.old ≡ page_size }
    ensures { b.new ≡ page_bytes (typed p) }
{
    write_front(b, p);
    let es = p.entries;
    write_entries(b, page::ENTRIES_AT, es, to_write(p));
}

// The page that stands in an area from byte `a` on. (codec_slot has the same of slots: one generic pair would need a trait with three ghost members, and
// be longer than the four lines.)
pub fn read_at(pages: &[u8], a: usize) -> Page
    requires { a + page_size ≤ length pages.now }
    ensures { (typed result ≡ page_fields (part pages.now a page_size)) × (result ≡ shown_page (part pages.now a page_size)) }
{
    read_page(&pages[a..a + PAGE_SIZE])
}

// The 128-byte part of the area that starts at `a` is lent on and written.
pub fn write_at(pages: &mut [u8], a: usize, p: Page)
    requires { a + page_size ≤ length pages.old }
    ensures { pages.new ≡ patch pages.old a (page_bytes (typed p)) }
{
    write_page(&mut pages[a..a + PAGE_SIZE], p);
}

pub fn zero_page() -> Page
    ensures { typed result ≡ zero_page }
{
    Page {
        kind: PageKind::Free,
        level: 0,
        count: 0,
        right: 0,
        high: 0,
        lsn: 0,
        own: 0,
        entries: [Entry::default(); ROOM],
    }
}

// Page p of an area of n pages; past the last one the page that was never used.
pub fn nth_page(pages: &[u8], n: usize, p: usize) -> Page
    requires { HasPages n pages.now }
    ensures { typed result ≡ at (pages_of n pages.now) p }
{
    if p < n {
        return read_at(pages, PAGE_SIZE * p);
    }
    zero_page()
}

// The right link of page p alone.
pub fn right_of(pages: &[u8], n: usize, p: usize) -> u32
    requires { HasPages n pages.now }
    ensures { result ≡ (at (pages_of n pages.now) p).right }
{
    if p < n {
        return get32(pages, PAGE_SIZE * p) / page::RIGHT_UNIT % 1024;
    }
    0
}

// Whether a page's first word is a leaf's.
fn is_leaf(w: u32) -> bool
    ensures { result ≡ eqb (w / 1073741824) 1 }
{
    PageKind::from_bits(w / page::KIND_UNIT) == PageKind::Leaf
}

// The left link of working page p, 0 for none: only leaves have one.
pub fn left_of(pages: &[u8], n: usize, p: usize) -> u32
    requires { HasPages n pages.now }
    ensures { result ≡ get_or (lefts_of n pages.now) p 0 }
{
    if p >= n {
        return 0;
    }
    let w = get32(pages, PAGE_SIZE * p);
    if !is_leaf(w) {
        return 0;
    }
    w / page::LEFT_UNIT % 1024
}

// A page's first word without its left link.
fn unlinked(w: u32) -> u32
    ensures { result ≡ w - w / 4 % 1024 * 4 }
{
    w - w / page::LEFT_UNIT % 1024 * page::LEFT_UNIT
}

// Leaf p gets the left link l, and nothing else of it changes.
pub fn set_left(pages: &mut [u8], p: usize, l: u32)
    requires { (page_size * p + page_size ≤ length pages.old) × (l < 1024) }
    ensures { pages.new ≡ patch pages.old (page_size * p) (put32 (linked_word (be32 pages.old (page_size * p)) l)) }
{
    let a = PAGE_SIZE * p;
    let w = unlinked(get32(pages, a));
    set32(pages, a, w + l * page::LEFT_UNIT);
}

// A working page's 128 bytes are copied as they are stored: without the left link.
fn copy_unlinked(dst: &mut [u8], src: &[u8])
    requires { (length dst.old ≡ page_size) × (length src.now ≡ page_size) }
    ensures { dst.new ≡ without_left src.now }
{
    copy(dst, src);
    let w = get32(src, page::FRONT_AT);
    if is_leaf(w) {
        set32(dst, page::FRONT_AT, unlinked(w));
    }
}

// 02, U5: "write-out stores it as zero". The page from byte `a` on.
pub fn store_at(stable: &mut [u8], work: &[u8], a: usize)
    requires { (a + page_size ≤ length stable.old) × (a + page_size ≤ length work.now) }
    ensures { stable.new ≡ patch stable.old a (without_left (part work.now a page_size)) }
{
    copy_unlinked(&mut stable[a..a + PAGE_SIZE], &work[a..a + PAGE_SIZE]);
}

// Word j of the map's 28.
pub fn map_word(es: [Entry; ROOM], j: usize) -> u32
    requires { j < 28 }
    ensures { result ≡ map_word es j }
{
    let i = j / 2;
    if j % 2 == 0 {
        return es[i].key;
    }
    es[i].val
}

// "bit p says page p is used", the most significant bit first.
pub fn marked(es: [Entry; ROOM], p: usize) -> bool
    requires { p < most_pages }
    ensures { result ≡ map_mark es p }
{
    let k = 31 - p % 32;
    (map_word(es, p / 32) >> k) % 2 == 1
}

// Whether page i is the first of a word of 32 pages, none of which is marked.
fn is_clear(es: [Entry; ROOM], i: usize) -> bool
    requires { i < most_pages }
    ensures { result ≡ true → (i % 32 ≡ 0) × (map_word es (i / 32) ≡ 0) }
{
    if i % 32 != 0 {
        return false;
    }
    map_word(es, i / 32) == 0
}

// Whether no page from the n-th on is marked. The index steps by hand: by a word of 32 where that is clear, which a `for` cannot do.
pub fn unmarked_from(es: [Entry; ROOM], n: usize) -> bool
    ensures { result ≡ unmarked_from n es }
{
    let mut i = n;
    while i < MOST_PAGES {
        if is_clear(es, i) {
            i += 32;
            continue;
        }
        if marked(es, i) {
            return false;
        }
        i += 1;
    }
    true
}

fn is_bare(x: Page, count: u32) -> bool
    ensures { result ≡ bare_with x count }
{
    if x.level != 0 {
        return false;
    }
    if x.right != 0 {
        return false;
    }
    if x.high != 0 {
        return false;
    }
    count == 0
}

fn free_ok(x: Page, p: usize) -> bool
    ensures { result ≡ free_layout p x }
{
    if p == 0 {
        return false;
    }
    if !is_bare(x, x.count) {
        return false;
    }
    if x.own as usize == p {
        return true;
    }
    if x.own != 0 {
        return false;
    }
    x.lsn == 0
}

fn leaf_ok(x: Page, p: usize) -> bool
    ensures { result ≡ leaf_layout p x }
{
    if p == 0 {
        return false;
    }
    if x.own as usize != p {
        return false;
    }
    if x.level != 0 {
        return false;
    }
    x.count <= MOST_ENTRIES
}

fn index_ok(x: Page, p: usize) -> bool
    ensures { result ≡ index_layout p x }
{
    if p == 0 {
        return false;
    }
    if x.own as usize != p {
        return false;
    }
    if x.level == 0 {
        return false;
    }
    if x.count > MOST_ENTRIES {
        return false;
    }
    let es = x.entries;
    children_fit(es, x.count as usize)
}

fn map_ok(x: Page, n: usize, p: usize) -> bool
    ensures { result ≡ map_layout n p x }
{
    if p != 0 {
        return false;
    }
    if x.own as usize != p {
        return false;
    }
    if !is_bare(x, 0) {
        return false;
    }
    let es = x.entries;
    unmarked_from(es, n)
}

// Page p of n keeps the layout of its kind.
pub fn layout_ok(x: Page, n: usize, p: usize) -> bool
    ensures { result ≡ layout n p (typed x) }
{
    match x.kind {
        PageKind::Free => free_ok(x, p),
        PageKind::Leaf => leaf_ok(x, p),
        PageKind::Index => index_ok(x, p),
        PageKind::Map => map_ok(x, n, p),
    }
}

// What is not in use is zero.
fn unused_zero(x: Page) -> bool
    ensures { result ≡ unused_zero x }
{
    match x.kind {
        PageKind::Map => x.count == 0,
        _ => blank_from(x.entries, x.count as usize),
    }
}

// Whether page p, which is not the map's, was never used: all of it is zero. Its first word tells most others apart.
fn is_never_used(b: &[u8], p: usize) -> bool
    requires { length b.now ≡ page_size }
    ensures { result ≡ true → (be32 b.now 0 ≡ 0) × ((n : ℕ) → block_ok n p (read_block b.now) ≡ true) }
{
    if p == 0 {
        return false;
    }
    if get32(b, page::FRONT_AT) != 0 {
        return false;
    }
    is_zero(b)
}

// Whether the spare bits of a page's first word are zero: of a working leaf those after the left link.
fn is_spare_zero(w: u32, working: bool) -> bool
    ensures { result ≡ spare_zero working w }
{
    if working && is_leaf(w) {
        return w % page::LEFT_UNIT == 0;
    }
    w % page::RIGHT_UNIT == 0
}

// Refusal 3 finds nothing in the 128 bytes of page p of n: a stable page, or a working one, whose left link does not count.
pub fn page_ok(b: &[u8], n: usize, p: usize, working: bool) -> bool
    ensures { result ≡ block_ok n p (read_block (judged working b.now)) }
{
    if b.len() != PAGE_SIZE {
        return false;
    }
    if is_never_used(b, p) {
        return true;
    }
    if !is_spare_zero(get32(b, page::FRONT_AT), working) {
        return false;
    }
    if get32(b, page::OWN_AT) % page::OWN_UNIT != 0 {
        return false;
    }
    let x = read_page(b);
    if !unused_zero(x) {
        return false;
    }
    layout_ok(x, n, p)
}
