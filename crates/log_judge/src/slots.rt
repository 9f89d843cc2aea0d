// What one slot of the log holds: a record in order, and what it tells the batch chain.
ghost use Rattle.std.specs.Prelude.{◌≡◌, true, suc, ◌*◌, ◌<◌, length, IfSome};
ghost use Rattle.def_layout.specs.Sizes.{slot_size, most_slots};
ghost use Rattle.def_layout.specs.RecordBytes.{read_slot};
ghost use Rattle.def_model.specs.Log.{is_empty};
ghost use Rattle.law_bytes.specs.AreaSizes.{HasSlots};
ghost use Rattle.law_bytes.specs.Words.{part};
ghost use Rattle.log_chain.specs.declared.Batches as chain;
ghost use Rattle.log_judge.specs.Updates.{told_by, BeginOrCommit, Update, TellsUpdate, TellsBatch};
ghost use Rattle.log_judge.specs.Turns.{in_order, Turns};

use codec_bytes::{get32, is_zero};
use codec_slot::{Header, Slot, kind_number, read_at};
use def_layout::{SLOT_SIZE, slot};
use log_chain::Told;
use record_check::{pages_ok, row_ok};

// The first word of a begin and of a commit.
const BEGIN: u32 = slot::KIND_UNIT;

const COMMIT: u32 = 6 * slot::KIND_UNIT;

// The least first word of a change of the tree.
const FIRST_CHANGE: u32 = 9 * slot::KIND_UNIT;

// Record number i + 1 of a register of n pages stands in slot i, and keeps its row and the page count.
pub fn in_order(s: Slot, own: u32, i: usize, n: usize) -> bool
    requires { i < most_slots }
    ensures { result ≡ in_order n (suc i) own s.header s.entries }
{
    if own as usize != i + 1 {
        return false;
    }
    if !row_ok(s) {
        return false;
    }
    pages_ok(s, n)
}

// What a slot's 144 bytes tell the batch chain.
fn told_at(b: &[u8]) -> Told
    requires { length b.now ≡ slot_size }
    ensures { result ≡ told_by b.now }
{
    Told {
        kind: get32(b, slot::FRONT_AT) / slot::KIND_UNIT,
        own: get32(b, slot::OWN_AT),
        batch: get32(b, slot::BATCH_AT),
        previous: get32(b, slot::PREVIOUS_AT),
        key: get32(b, slot::KEY_AT),
        second: get32(b, slot::SECOND_AT),
    }
}

// Whether 144 bytes hold begin or commit `number`: eight words, and zeros after them.
fn is_batch(b: &[u8], number: u32) -> bool
    requires { length b.now ≡ slot_size }
    ensures { result ≡ true → BeginOrCommit number b.now }
{
    let clear = is_zero(&b[slot::ENTRIES_AT..SLOT_SIZE]);
    if get32(b, slot::OWN_AT) != number {
        return false;
    }
    if get32(b, slot::PAGES_AT) != 0 {
        return false;
    }
    if get32(b, slot::KEY_AT) != 0 {
        return false;
    }
    if get32(b, slot::SECOND_AT) != 0 {
        return false;
    }
    if get32(b, slot::RIGHT_AT) != 0 {
        return false;
    }
    let w = get32(b, slot::FRONT_AT);
    if w == COMMIT {
        return clear;
    }
    if w != BEGIN {
        return false;
    }
    if get32(b, slot::BATCH_AT) != number {
        return false;
    }
    if get32(b, slot::PREVIOUS_AT) != 0 {
        return false;
    }
    clear
}

// What a begin or a commit at slot i tells the batch chain. None says nothing of the slot.
pub fn batch_at(log: &[u8], m: usize, n: usize, i: usize) -> Option<Told>
    requires { HasSlots m log.now × (i < m) }
    ensures { IfSome result (TellsBatch n m log.now i) }
{
    let b = &log[SLOT_SIZE * i..SLOT_SIZE * i + SLOT_SIZE];
    if n == 0 {
        return None;
    }
    if !is_batch(b, (i + 1) as u32) {
        return None;
    }
    Some(told_at(b))
}

// Whether 144 bytes hold insert or delete number `own` on a page below n: eight words, and zeros after them.
fn is_update(b: &[u8], own: u32, n: usize) -> bool
    requires { length b.now ≡ slot_size }
    ensures { result ≡ true → Update n own b.now }
{
    let w = get32(b, slot::FRONT_AT);
    if w % slot::KIND_UNIT != 0 {
        return false;
    }
    if w / slot::KIND_UNIT < 2 {
        return false;
    }
    if 3 < w / slot::KIND_UNIT {
        return false;
    }
    if get32(b, slot::OWN_AT) != own {
        return false;
    }
    let pages = get32(b, slot::PAGES_AT);
    if pages % slot::A_UNIT != 0 {
        return false;
    }
    if n <= (pages / slot::A_UNIT) as usize {
        return false;
    }
    if get32(b, slot::RIGHT_AT) != 0 {
        return false;
    }
    is_zero(&b[slot::ENTRIES_AT..SLOT_SIZE])
}

// What an update at slot i tells the batch chain. None says nothing of the slot.
pub fn update_at(log: &[u8], m: usize, n: usize, i: usize) -> Option<Told>
    requires { HasSlots m log.now × (i < m) }
    ensures { IfSome result (TellsUpdate n m log.now i) }
{
    let b = &log[SLOT_SIZE * i..SLOT_SIZE * i + SLOT_SIZE];
    if !is_update(b, (i + 1) as u32, n) {
        return None;
    }
    Some(told_at(b))
}

// Whether slot i holds a change of the tree, in order in all. No batch has it: the rows and marks stay, and need not be passed on.
pub fn is_change(log: &[u8], m: usize, n: usize, i: usize) -> bool
    requires { HasSlots m log.now × (i < m) }
    ensures { result ≡ true → (o : chain.Batches) → Turns n m log.now i o (Some o) }
{
    if get32(log, SLOT_SIZE * i) < FIRST_CHANGE {
        return false;
    }
    let s = read_at(log, SLOT_SIZE * i);
    let header = s.header;
    let Header::Full {
        kind,
        count: _,
        level: _,
        own,
        batch: _,
        previous: _,
        a: _,
        b: _,
        c: _,
        key: _,
        second: _,
        right: _,
    } = header
    else {
        return false;
    };
    if kind_number(kind) < 9 {
        return false;
    }
    in_order(s, own, i, n)
}

pub fn empty_slot(log: &[u8], m: usize, i: usize) -> bool
    requires { HasSlots m log.now × (i < m) }
    ensures { result ≡ is_empty (read_slot (part log.now (slot_size * i) slot_size)) }
{
    is_zero(&log[SLOT_SIZE * i..SLOT_SIZE * i + SLOT_SIZE])
}
