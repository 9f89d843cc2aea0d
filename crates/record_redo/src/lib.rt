// Restart's redo of a whole log: each record at its pages, judged page by page, with the count of the page changes that it applied.
#![tactic(auto)]

ghost use Rattle.std.specs.Prelude.{◌≡◌, List, [], ◌+◌, ◌*◌, ◌/◌, ◌%◌, ◌≤◌, ◌<◌, length, IfSome, IfNone, OnSome, MatchOption};
ghost use Rattle.def_layout.specs.Sizes.{room, slot_size};
ghost use Rattle.def_layout.specs.Pages as layout;
ghost use Rattle.def_layout.specs.Numbers.{be32};
ghost use Rattle.def_layout.specs.Records.{Rec};
ghost use Rattle.def_layout.specs.RecordBytes.{record_fields};
ghost use Rattle.law_bytes.specs.AreaSizes.{HasPages, HasSlots, HasAreas};
ghost use Rattle.record_apply.specs.Pages.{rec};
ghost use Rattle.record_pages.specs.Pages.{Pages};
ghost use Rattle.record_pages.specs.Records.{Keeps};
ghost use Rattle.record_redo.specs.Logs.{Logged, Slot};
ghost use Rattle.record_redo.specs.Copies.{Copied};
ghost use Rattle.record_redo.specs.Slots.{Tells};
ghost use Rattle.record_redo.specs.AtOnce.{Done};
ghost use Rattle.record_redo.specs.Outcomes.{Answers, pair, part, one_record, whole};

use codec_bytes::{copy_part, get32};
use codec_entries::read_entries;
use def_layout::{MOST_ENTRIES, PAGE_SIZE, SLOT_SIZE, page, slot};
use record_apply::roles::parts_of;
use record_apply::{Record, apply};
use record_fit::fits;
use record_leaf::slide_made;
use record_pages::{page_at, put_page};

// The kinds that change no page and stand in most logs, by their numbers in 01's table.
const BEGIN: u32 = 1;

const COMMIT: u32 = 6;

// The record that 144 bytes show, its count, which has four bits, cut to fourteen. Whether they are a record's was judged before: of others nothing is
// said.
fn record_in(s: &[u8]) -> Record
    requires { length s.now ≡ slot_size }
    ensures { (result.count ≤ room) × (be32 s.now 0 / 16777216 % 16 ≤ room → rec result ≡ record_fields s.now) }
{
    let w = get32(s, slot::FRONT_AT);
    let pages = get32(s, slot::PAGES_AT);
    let entries = read_entries(s, slot::ENTRIES_AT);
    Record {
        kind: w / slot::KIND_UNIT,
        count: MOST_ENTRIES.min(w / slot::COUNT_UNIT % 16),
        level: w / slot::LEVEL_UNIT % 16,
        batch: get32(s, slot::BATCH_AT),
        previous: get32(s, slot::PREVIOUS_AT),
        a: pages / slot::A_UNIT,
        b: pages / slot::B_UNIT % 1024,
        c: pages / slot::C_UNIT % 1024,
        key: get32(s, slot::KEY_AT),
        second: get32(s, slot::SECOND_AT),
        right: get32(s, slot::RIGHT_AT) / slot::RIGHT_UNIT,
        entries,
    }
}

// The record in slot i of a log of m slots, the first slot being 0.
pub fn record_at(log: &[u8], m: usize, i: usize) -> Record
    requires { HasSlots m log.now }
    ensures { (result.count ≤ room) × Tells m log.now i result }
{
    if i >= m {
        return Record::default();
    }
    record_in(&log[SLOT_SIZE * i..SLOT_SIZE * i + SLOT_SIZE])
}

// Record r, number k, at page p: how many changes were applied, one or none. A page whose number is lower must fit: one that does not is left as it is.
pub fn redo_checked(pages: &mut [u8], n: usize, r: Record, k: u32, p: u32) -> Option<u32>
    requires { HasPages n pages.old × (r.count ≤ room) }
    ensures most { IfSome result (λ count. count ≤ 1) }
    ensures misfit { IfNone result (pages.new ≡ pages.old) }
    ensures answer { (xs : List layout.Page) → Pages n pages.old xs [] → Keeps k (rec r) → Answers n pages.new result (pair k (rec r) p xs) }
{
    let x = page_at(pages, n, p);
    if x.lsn >= k {
        return Some(0);
    }
    if !fits(r, p as usize, x) {
        return None;
    }
    let y = apply(r, k, p as usize, x);
    put_page(pages, n, p, y);
    Some(1)
}

// The same where the record has the part.
fn redo_part(pages: &mut [u8], n: usize, r: Record, k: u32, on: bool, p: u32) -> Option<u32>
    requires { HasPages n pages.old × (r.count ≤ room) }
    ensures most { IfSome result (λ count. count ≤ 1) }
    ensures answer { (xs : List layout.Page) → Pages n pages.old xs [] → Keeps k (rec r) → Answers n pages.new result (part on k (rec r) p xs) }
{
    if !on {
        return Some(0);
    }
    redo_checked(pages, n, r, k, p)
}

// Record r, number k, at the pages that it changes: A, then B or C, then the map. None where a page does not fit: those after it stay as they were.
pub fn redo_places(pages: &mut [u8], n: usize, r: Record, k: u32) -> Option<u32>
    requires { HasPages n pages.old × (r.count ≤ room) }
    ensures most { IfSome result (λ count. count ≤ 4) }
    ensures answer { (xs : List layout.Page) → Pages n pages.old xs [] → Keeps k (rec r) → Answers n pages.new result (one_record k (rec r) xs) }
{
    let parts = parts_of(r.kind);
    let a = redo_part(pages, n, r, k, parts.a, r.a)?;
    let b = redo_part(pages, n, r, k, parts.b, r.b)?;
    let c = redo_part(pages, n, r, k, parts.c, r.c)?;
    let map = redo_part(pages, n, r, k, parts.map, 0)?;
    Some(a + b + c + map)
}

// An insert or delete, record number i + 1, at the bytes of its page, where the page is newer or one that the change starts from: how many changes that
// was. Of any other slot or page nothing is done.
fn redo_slide(pages: &mut [u8], n: usize, log: &[u8], m: usize, i: usize) -> Option<u32>
    requires { HasAreas n m pages.old log.now × (i < m) }
    ensures most { IfSome result (λ count. count ≤ 1) }
    ensures cases { MatchOption result (pages.new ≡ pages.old) (λ count. Done n m pages.old log.now i pages.new count) }
{
    let s = &log[SLOT_SIZE * i..SLOT_SIZE * i + SLOT_SIZE];
    let kind = get32(s, slot::FRONT_AT) / slot::KIND_UNIT;
    let a = (get32(s, slot::PAGES_AT) / slot::A_UNIT) as usize;
    if kind < 2 || kind > 3 || a >= n {
        return None;
    }
    let own = (i + 1) as u32;
    let page = &pages[PAGE_SIZE * a..PAGE_SIZE * a + PAGE_SIZE];
    if get32(page, page::LSN_AT) >= own {
        return Some(0);
    }
    let key = get32(s, slot::KEY_AT);
    let second = get32(s, slot::SECOND_AT);
    let b = &mut pages[PAGE_SIZE * a..PAGE_SIZE * a + PAGE_SIZE];
    if !slide_made(b, kind, own, key, second) {
        return None;
    }
    let applied = 1;
    Some(applied)
}

// The record in slot i, number i + 1: at once where that can be, else the long way. A begin and a commit change no page.
fn redo_slot(pages: &mut [u8], n: usize, log: &[u8], m: usize, i: usize) -> Option<u32>
    requires { HasAreas n m pages.old log.now × (i < m) }
    ensures most { IfSome result (λ count. count ≤ 4) }
    ensures answer { Slot n m pages.old log.now i pages.new result }
{
    let s = &log[SLOT_SIZE * i..SLOT_SIZE * i + SLOT_SIZE];
    let kind = get32(s, slot::FRONT_AT) / slot::KIND_UNIT;
    if kind == BEGIN || kind == COMMIT {
        return Some(0);
    }
    if let Some(count) = redo_slide(pages, n, log, m, i) {
        return Some(count);
    }
    let r = record_at(log, m, i);
    redo_places(pages, n, r, (i + 1) as u32)
}

// Slot i of a log of m slots goes to the same place of another.
fn copy_slot(to: &mut [u8], log: &[u8], m: usize, i: usize)
    requires { HasSlots m log.now × HasSlots m to.old × (i < m) }
    ensures { Copied (slot_size * i) log.now to.old → Copied (slot_size * (i + 1)) log.now to.new }
{
    copy_part(to, SLOT_SIZE * i, log, SLOT_SIZE * i, SLOT_SIZE);
}

// The slots from i on go there.
fn copy_from(to: &mut [u8], log: &[u8], m: usize, i: usize)
    requires { HasSlots m log.now × HasSlots m to.old × (i ≤ m) }
    ensures { Copied (slot_size * i) log.now to.old → to.new ≡ log.now }
{
    copy_part(to, SLOT_SIZE * i, log, SLOT_SIZE * i, SLOT_SIZE * (m - i));
}

// The first `logged` records of a log, each at its pages: how many page changes were applied, or none where a page does not fit, and then what follows
// is left. And the log is copied to another area, a slot as soon as it is redone: its bytes are at hand then, and the copy's stores go on while the next
// record is looked at.
pub fn redo_log(
    pages: &mut [u8],
    to: &mut [u8],
    log: &[u8],
    n: usize,
    m: usize,
    logged: u32,
) -> Option<u32>
    requires { HasAreas n m pages.old log.now × HasSlots m to.old × (logged ≤ m) }
    ensures most { IfSome result (λ count. count ≤ 4 * logged) }
    ensures answer { (xs : List layout.Page) (l : List Rec) → Pages n pages.old xs [] → Logged m log.now l → length l ≡ logged → Answers n pages.new result (whole 1 l xs) }
    ensures copied { OnSome result (to.new ≡ log.now) }
{
    let mut count: u32 = 0;
    for i in 0..logged {
        let applied = redo_slot(pages, n, log, m, i as usize)?;
        copy_slot(to, log, m, i as usize);
        count += applied;
    }
    copy_from(to, log, m, logged as usize);
    Some(count)
}
