// The pending updates of a log's open batches, found through the log itself: each names a record from which the one below it is found.
#![tactic(auto)]

ghost use Rattle.law_bytes.specs.AreaSizes.{HasSlots};
ghost use Rattle.log_pending.specs.Reading.{TellsAfter, TellsOf};
ghost use Rattle.log_pending.specs.Lines.{TellsLine};

use codec_bytes::get32;
use def_layout::{SLOT_SIZE, slot};

// A pending update, and the number of the one below it in its batch.
#[derive(Clone, Copy, Default)]
pub struct Line {
    pub number: u32,
    pub adds: bool,
    pub key: u32,
    pub value: u32,
    pub below: u32,
}

// What was pending in a batch, newest, after its record p: an update itself, what an undo says is left, or nothing.
fn pending_after(log: &[u8], m: usize, p: u32) -> u32
    requires { HasSlots m log.now }
    ensures { TellsAfter m log.now p result }
{
    if p == 0 {
        return 0;
    }
    let i = p as usize - 1;
    if i >= m {
        return 0;
    }
    // A rule of the project: 01 names a match on the kinds 1 to 15, so the kind stays a number.
    let kind = get32(log, SLOT_SIZE * i) / slot::KIND_UNIT;
    match kind {
        2..=3 => p,
        4..=5 => get32(log, SLOT_SIZE * i + slot::PREVIOUS_AT),
        _ => 0,
    }
}

// The pending update that is record `number`. Of a number that is no slot's it says nothing. No Option, which would be no plainer: a batch's row says
// how many lines are pending and which is the newest, so every caller knows that this one is there, and an arm for none would never run.
pub fn line_at(log: &[u8], m: usize, number: u32) -> Line
    requires { HasSlots m log.now }
    ensures { TellsLine m log.now number result }
{
    if number == 0 {
        return Line::default();
    }
    let i = number as usize - 1;
    if i >= m {
        return Line::default();
    }
    let kind = get32(log, SLOT_SIZE * i) / slot::KIND_UNIT;
    let key = get32(log, SLOT_SIZE * i + slot::KEY_AT);
    let value = get32(log, SLOT_SIZE * i + slot::SECOND_AT);
    let previous = get32(log, SLOT_SIZE * i + slot::PREVIOUS_AT);
    let below = pending_after(log, m, previous);
    Line {
        number,
        adds: kind == 2,
        key,
        value,
        below,
    }
}

// Whether record `number` of a log of `logged` records is one of batch b's.
pub fn is_record_of(log: &[u8], m: usize, logged: u32, b: u32, number: u32) -> bool
    requires { HasSlots m log.now }
    ensures { TellsOf m log.now logged b number result }
{
    if number == 0 {
        return false;
    }
    if number > logged {
        return false;
    }
    let i = number as usize - 1;
    if i >= m {
        return false;
    }
    b == get32(log, SLOT_SIZE * i + slot::BATCH_AT)
}
