// The codecs, run on good and bad bytes. Each line says what was tried; of a page, whether page 5 of 16, or the map, keeps the layout; of a log
// slot, what stands there, and whether it keeps its row.
#![tactic(auto)]

ghost use Rattle.std.specs.Prelude.{◌≡◌, set};

use codec_page::Page;
use codec_slot::{Header, Slot};
use def_layout::page::PageKind;
use def_layout::{Entry, PAGE_SIZE, ROOM, SLOT_SIZE};
use std::io;

// Byte i becomes v, where there is one.
fn poke(b: &mut [u8], i: usize, v: u8)
    ensures { b.new ≡ set b.old i v }
{
    if i < b.len() {
        b[i] = v;
    }
}

// ---- pages

fn say_layout(rt: &impl Print, what: &str, yes: bool) -> io::Result<()> {
    let answer = if yes { "yes" } else { "no" };
    println!(rt; "{what}: {answer}")
}

fn entries(key: u32, val: u32) -> [Entry; ROOM] {
    let mut es = [Entry::default(); ROOM];
    es[0] = Entry { key, val };
    es
}

fn node(kind: PageKind, level: u32, count: u32, lsn: u32, own: u32, es: [Entry; ROOM]) -> Page {
    Page {
        kind,
        level,
        count,
        right: 0,
        high: 0,
        lsn,
        own,
        entries: es,
    }
}

// A page as it is written, with byte i set to v, judged at place p of n.
fn judged(x: Page, i: usize, v: u8, n: usize, p: usize) -> bool {
    let mut b = [0u8; PAGE_SIZE];
    codec_page::write_page(&mut b, x);
    poke(&mut b, i, v);
    codec_page::page_ok(&b, n, p, false)
}

fn as_written(x: Page, n: usize, p: usize) -> bool {
    judged(x, 128, 0, n, p)
}

fn read_back(x: Page) -> bool {
    let mut b = [0u8; PAGE_SIZE];
    codec_page::write_page(&mut b, x);
    let y = codec_page::read_page(&b);
    y.own == x.own && y.count == x.count && y.entries[0] == x.entries[0]
}

fn leaves(rt: &impl Print) -> io::Result<()> {
    let leaf = node(PageKind::Leaf, 0, 1, 33, 5, entries(10, 4294967295));
    say_layout(rt, "a leaf", as_written(leaf, 16, 5))?;
    say_layout(rt, "read back", read_back(leaf))?;
    say_layout(rt, "at another place", as_written(leaf, 16, 6))?;
    say_layout(rt, "a spare bit", judged(leaf, 3, 1, 16, 5))?;
    say_layout(rt, "an unused entry", judged(leaf, 127, 1, 16, 5))?;
    say_layout(
        rt,
        "fifteen entries",
        as_written(node(PageKind::Leaf, 0, 15, 33, 5, entries(10, 1)), 16, 5),
    )?;
    say_layout(
        rt,
        "a leaf above level 0",
        as_written(node(PageKind::Leaf, 1, 1, 33, 5, entries(10, 1)), 16, 5),
    )
}

fn others(rt: &impl Print) -> io::Result<()> {
    say_layout(
        rt,
        "an index",
        as_written(node(PageKind::Index, 1, 1, 33, 5, entries(10, 1023)), 16, 5),
    )?;
    say_layout(
        rt,
        "a child of eleven bits",
        as_written(node(PageKind::Index, 1, 1, 33, 5, entries(10, 1024)), 16, 5),
    )?;
    say_layout(
        rt,
        "an index of level 0",
        as_written(node(PageKind::Index, 0, 1, 33, 5, entries(10, 1)), 16, 5),
    )?;
    say_layout(
        rt,
        "never used",
        as_written(node(PageKind::Free, 0, 0, 0, 0, entries(0, 0)), 16, 5),
    )?;
    say_layout(
        rt,
        "free again",
        as_written(node(PageKind::Free, 0, 0, 9, 5, entries(0, 0)), 16, 5),
    )?;
    say_layout(
        rt,
        "free with a number and no place",
        as_written(node(PageKind::Free, 0, 0, 9, 0, entries(0, 0)), 16, 5),
    )
}

fn maps(rt: &impl Print) -> io::Result<()> {
    let es = entries(3221291008, 0);
    let first = node(PageKind::Map, 0, 0, 0, 0, es);
    say_layout(rt, "the map", as_written(first, 16, 0))?;
    say_layout(rt, "the map at another place", as_written(first, 16, 5))?;
    say_layout(rt, "a mark past the last page", as_written(first, 15, 0))?;
    say_layout(rt, "three marks", codec_map::count_used(es, 16) == 3)?;
    say_layout(
        rt,
        "14 is the highest free",
        codec_map::highest_free(es, 16) == 14,
    )?;
    say_layout(
        rt,
        "none is free in full words",
        codec_map::highest_free(entries(4294967295, 4294967295), 64) == 0,
    )
}

// ---- slots

fn say_row(rt: &impl Print, what: &str, s: Slot) -> io::Result<()> {
    let stands = match s.header {
        Header::Full { .. } if record_check::row_ok(s) => "keeps its row",
        Header::Full { .. } => "breaks its row",
        Header::Empty => "empty",
        Header::Broken => "no record",
    };
    println!(rt; "{what}: {stands}")
}

// A record of batch 1 as it is written, with byte i set to v, read again.
fn again(kind: u32, own: u32, a: u32, second: u32, i: usize, v: u8) -> Slot {
    let s = Slot {
        header: Header::Full {
            kind,
            count: 0,
            level: 0,
            own,
            batch: 1,
            previous: 0,
            a,
            b: 0,
            c: 0,
            key: 0,
            second,
            right: 0,
        },
        entries: [Entry::default(); ROOM],
    };
    let mut area = [0u8; SLOT_SIZE];
    codec_slot::write_slot(&mut area, s);
    poke(&mut area, i, v);
    codec_slot::read_slot(&area)
}

fn nothing(i: usize, v: u8) -> Slot {
    let mut area = [0u8; SLOT_SIZE];
    poke(&mut area, i, v);
    codec_slot::read_slot(&area)
}

fn slots(rt: &impl Print) -> io::Result<()> {
    say_row(rt, "zeros", nothing(144, 0))?;
    say_row(rt, "a number and no kind", nothing(7, 1))?;
    say_row(rt, "a begin", again(1, 1, 0, 0, 144, 0))?;
    say_row(rt, "a begin of another batch", again(1, 2, 0, 0, 144, 0))?;
    say_row(rt, "an insert", again(2, 2, 9, 7, 144, 0))?;
    say_row(rt, "a spare bit", again(2, 2, 9, 7, 3, 1))?;
    say_row(rt, "an unused entry", again(2, 2, 9, 7, 143, 1))?;
    say_row(
        rt,
        "an undone insert with a value",
        again(4, 2, 9, 7, 144, 0),
    )?;
    say_row(rt, "an undone insert", again(4, 2, 9, 0, 144, 0))?;
    say_row(rt, "a split with a batch", again(9, 2, 9, 0, 144, 0))
}

fn main(rt: HostRuntime) -> io::Result<()> {
    leaves(&rt)?;
    others(&rt)?;
    maps(&rt)?;
    slots(&rt)
}
