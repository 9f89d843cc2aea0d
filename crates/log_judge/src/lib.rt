// The log judged in one pass: each slot's row and number, the batch chain, and what the log says of its open batches.
#![tactic(auto)]

pub mod first;
pub mod slots;

ghost use Rattle.std.specs.Prelude.{◌≡◌, ◌≤◌, ◌<◌};
ghost use Rattle.law_bytes.specs.AreaSizes.{HasSlots};
ghost use Rattle.law_bytes.specs.LogAreas.{slots_of};
ghost use Rattle.law_bytes.specs.DeskRows.{LowRows};
ghost use Rattle.log_judge.specs.Turns.{Turns};
ghost use Rattle.log_judge.specs.Judging.{Finished, Judgement};
ghost use Rattle.log_judge.specs.Accepted.{total};

use codec_bytes::is_zero;
use codec_desk::no_rows;
use codec_slot::{Header, kind_number, read_at};
use def_layout::{Row, SLOT_SIZE};
use first::alone;
use log_chain::{Batches, Told, going_on, longer, step};
use slots::{batch_at, empty_slot, in_order, update_at};

// What a log says that keeps 01's rules: its open batches, and how many records it has.
#[derive(Clone, Copy)]
pub struct Said {
    pub batches: Batches,
    pub logged: u32,
}

// Slot i of a register of n pages, after which these batches are open; or none: "a slot breaks its row, number or batch chain, or names an A, B or C
// not below the page count".
fn judge_long(log: &[u8], m: usize, n: usize, i: usize, batches: Batches) -> Option<Batches>
    requires { HasSlots m log.now × (i < m) × LowRows batches.rows }
    ensures { Turns n m log.now i batches result }
{
    let s = read_at(log, SLOT_SIZE * i);
    let header = s.header;
    // A rule of the project: 01 names a header taken apart by let-else.
    let Header::Full {
        kind,
        count: _,
        level: _,
        own,
        batch,
        previous,
        a: _,
        b: _,
        c: _,
        key,
        second,
        right: _,
    } = header
    else {
        return None;
    };
    if !in_order(s, own, i, n) {
        return None;
    }
    let t = Told {
        kind: kind_number(kind),
        own,
        batch,
        previous,
        key,
        second,
    };
    step(log, m, batches, t)
}

// The same: a begin or a commit by its words, all else the long way.
fn judge_slot(log: &[u8], m: usize, n: usize, i: usize, batches: Batches) -> Option<Batches>
    requires { HasSlots m log.now × (i < m) × LowRows batches.rows }
    ensures { Turns n m log.now i batches result }
{
    match batch_at(log, m, n, i) {
        Some(t) => step(log, m, batches, t),
        None => judge_long(log, m, n, i, batches),
    }
}

// The records end before slot i: no full slot follows an empty one.
fn finished(log: &[u8], m: usize, i: usize, batches: Batches) -> Option<Said>
    requires { HasSlots m log.now × (i ≤ m) }
    ensures { Finished m log.now i batches result }
{
    let clear = is_zero(&log[SLOT_SIZE * i..SLOT_SIZE * m]);
    if !clear {
        return None;
    }
    Some(Said {
        batches,
        logged: i as u32,
    })
}

// Refusal 4: the log of m slots of a register of n pages, slot by slot; and what it says of its open batches.
// Where one batch is open at a time nearly every slot is a matter of the first row, and an update of any other batch changes that one's row: these
// are judged with no copy of the rows.
pub fn judge_log(log: &[u8], m: usize, n: usize) -> Option<Said>
    requires { HasSlots m log.now }
    ensures { Judgement n (slots_of m log.now) result }
{
    let mut batches = Batches {
        rows: no_rows(),
        marked: [false; 8],
    };
    for i in 0..m {
        if let Some(row) = alone(log, m, n, i, &batches) {
            batches.rows[0] = row;
            continue;
        }
        if let Some(t) = update_at(log, m, n, i) {
            let p = going_on(&batches, t)?;
            batches.rows[p] = longer(batches.rows[p], t.own);
            continue;
        }
        if empty_slot(log, m, i) {
            return finished(log, m, i, batches);
        }
        batches = judge_slot(log, m, n, i, batches)?;
    }
    finished(log, m, m, batches)
}

// The lines that are pending in all batches.
pub fn pending_total(rows: [Row; 8]) -> u32
    requires { LowRows rows }
    ensures { result ≡ total rows }
{
    let mut t: u32 = 0;
    for row in &rows {
        t += row.pending;
    }
    t
}
