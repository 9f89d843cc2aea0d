// A log slot by value: its header as an enum of numbers, its 14 entries beside it; read from and written to 144 bytes.
#![tactic(auto)]

ghost use Rattle.std.specs.Prelude.{◌≡◌, ◌+◌, ◌≤◌, ◌<◌, length};
ghost use Rattle.def_layout.specs.Sizes.{slot_size};
ghost use Rattle.def_layout.specs.Numbers.{chunks};
ghost use Rattle.def_layout.specs.Records.{kind_of, kind_number};
ghost use Rattle.def_layout.specs.RecordBytes.{read_slot, slot_bytes};
ghost use Rattle.law_bytes.specs.Words.{part};
ghost use Rattle.law_bytes.specs.Patch.{patch};
ghost use Rattle.codec_slot.specs.Typed.{typed, shown_header, clean, word_bytes};

use codec_bytes::{get32, is_zero, set32, zero};
use codec_entries::{blank_from, read_entries, write_entries};
use def_layout::{Entry, ROOM, SLOT_SIZE, slot};

// 01: "a slot's header is decoded to an enum of numbers". Broken are bytes that are no record's.
#[derive(Clone, Copy)]
pub enum Header {
    Full {
        kind: u32,
        count: u32,
        level: u32,
        own: u32,
        batch: u32,
        previous: u32,
        a: u32,
        b: u32,
        c: u32,
        key: u32,
        second: u32,
        right: u32,
    },
    Empty,
    Broken,
}

#[derive(Clone, Copy)]
pub struct Slot {
    pub header: Header,
    pub entries: [Entry; ROOM],
}

// The header's numbers as they stand, whatever they are.
fn read_header(b: &[u8]) -> Header
    requires { length b.now ≡ slot_size }
    ensures { result ≡ shown_header b.now }
{
    let w = get32(b, slot::FRONT_AT);
    let pages = get32(b, slot::PAGES_AT);
    Header::Full {
        kind: w / slot::KIND_UNIT,
        count: w / slot::COUNT_UNIT % 16,
        level: w / slot::LEVEL_UNIT % 16,
        own: get32(b, slot::OWN_AT),
        batch: get32(b, slot::BATCH_AT),
        previous: get32(b, slot::PREVIOUS_AT),
        a: pages / slot::A_UNIT,
        b: pages / slot::B_UNIT % 1024,
        c: pages / slot::C_UNIT % 1024,
        key: get32(b, slot::KEY_AT),
        second: get32(b, slot::SECOND_AT),
        right: get32(b, slot::RIGHT_AT) / slot::RIGHT_UNIT,
    }
}

// Whether the bytes are a record's: a kind, and zeros in spare bits and unused entries.
fn is_record(b: &[u8], es: [Entry; ROOM]) -> bool
    requires { length b.now ≡ slot_size }
    ensures { result ≡ clean b.now es }
{
    let w = get32(b, slot::FRONT_AT);
    if w / slot::KIND_UNIT == 0 {
        return false;
    }
    if w % slot::LEVEL_UNIT != 0 {
        return false;
    }
    if get32(b, slot::PAGES_AT) % slot::C_UNIT != 0 {
        return false;
    }
    if get32(b, slot::RIGHT_AT) % slot::RIGHT_UNIT != 0 {
        return false;
    }
    let n = w / slot::COUNT_UNIT % 16;
    blank_from(es, n as usize)
}

pub fn read_slot(b: &[u8]) -> Slot
    requires { length b.now ≡ slot_size }
    ensures { typed b.now result ≡ read_slot b.now }
{
    let entries = read_entries(b, slot::ENTRIES_AT);
    if is_zero(b) {
        return Slot {
            header: Header::Empty,
            entries,
        };
    }
    if is_record(b, entries) {
        let header = read_header(b);
        return Slot { header, entries };
    }
    Slot {
        header: Header::Broken,
        entries,
    }
}

// A kind's number as it is written: 1 to 15, and 1 for what is none.
pub fn kind_number(k: u32) -> u32
    ensures { (result ≡ kind_number (kind_of k)) × (0 < result) × (result < 16) }
{
    match k {
        1..=15 => k,
        _ => 1,
    }
}

// The eight words before the entries.
fn write_words(area: &mut [u8], words: [u32; 8])
    requires { 32 ≤ length area.old }
    ensures { area.new ≡ patch area.old 0 (chunks 8 (word_bytes words)) }
{
    for (i, word) in words.iter().enumerate() {
        set32(area, 4 * i, *word);
    }
}

// A record or an empty slot; broken bytes stay as they are.
pub fn write_slot(area: &mut [u8], s: Slot)
    requires { length area.old ≡ slot_size }
    ensures { area.new ≡ slot_bytes (typed area.old s) }
{
    let header = s.header;
    match header {
        Header::Full {
            kind,
            count,
            level,
            own,
            batch,
            previous,
            a,
            b,
            c,
            key,
            second,
            right,
        } => {
            let first = kind_number(kind) * slot::KIND_UNIT
                + count % 16 * slot::COUNT_UNIT
                + level % 16 * slot::LEVEL_UNIT;
            let pages = a % 1024 * slot::A_UNIT + b % 1024 * slot::B_UNIT + c % 1024 * slot::C_UNIT;
            let last = right % 1024 * slot::RIGHT_UNIT;
            write_words(
                area,
                [first, own, batch, previous, pages, key, second, last],
            );
            let es = s.entries;
            write_entries(area, slot::ENTRIES_AT, es, count as usize);
        }
        Header::Empty => {
            zero(area);
        }
        Header::Broken => {}
    }
}

// The slot that stands in a log from byte `at` on.
pub fn read_at(log: &[u8], at: usize) -> Slot
    requires { at + slot_size ≤ length log.now }
    ensures { typed (part log.now at slot_size) result ≡ read_slot (part log.now at slot_size) }
{
    read_slot(&log[at..at + SLOT_SIZE])
}

// The 144-byte part of the log that starts at `at` is lent on and written.
pub fn write_at(log: &mut [u8], at: usize, s: Slot)
    requires { at + slot_size ≤ length log.old }
    ensures { log.new ≡ patch log.old at (slot_bytes (typed (part log.old at slot_size) s)) }
{
    write_slot(&mut log[at..at + SLOT_SIZE], s);
}
