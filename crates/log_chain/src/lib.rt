// The batch chain, one record after the other: which records may follow, and the rows and abort marks of the open batches that they say.
#![tactic(auto)]

ghost use Rattle.std.specs.Prelude.{◌≡◌, false, ◌≤◌, ◌<◌, set, IfSome};
ghost use Rattle.def_layout.specs.Sizes.{most_slots};
ghost use Rattle.def_layout.specs.Numbers.{tab};
ghost use Rattle.law_bytes.specs.AreaSizes.{HasSlots};
ghost use Rattle.law_bytes.specs.Eights.{closing};
ghost use Rattle.law_bytes.specs.DeskRows.{without, LowRows};
ghost use Rattle.log_chain.specs.Shown.{batches_of};
ghost use Rattle.log_chain.specs.Steps.{Places, GoesOn, Steps};
ghost use Rattle.log_chain.specs.Families.{longer_row};
ghost use Rattle.log_chain.specs.Undos.{StepsIn, line_undone};

use codec_desk::{closed, closed_up, new_row, row_place, used_rows};
use def_layout::Row;
use log_pending::{Line, line_at};

// The open batches: their rows, and which of them have their abort mark.
#[derive(Clone, Copy)]
pub struct Batches {
    pub rows: [Row; 8],
    pub marked: [bool; 8],
}

// The numbers of a record that the batch chain asks for. Its kind stays a number, a rule of the project: 01 names a match on the kinds 1 to 15.
#[derive(Clone, Copy)]
pub struct Told {
    pub kind: u32,
    pub own: u32,
    pub batch: u32,
    pub previous: u32,
    pub key: u32,
    pub second: u32,
}

// The place of an open batch's row. Batch 0 is never open.
fn open_place(batches: &Batches, batch: u32) -> Option<usize>
    ensures within { IfSome result (λ i. i < 8) }
    ensures places { Places batches.now.rows batch result }
{
    if batch == 0 {
        return None;
    }
    row_place(batches.rows, batch)
}

// The place of the record's batch, if that has no abort mark and the record names its last one.
pub fn going_on(batches: &Batches, t: Told) -> Option<usize>
    ensures within { IfSome result (λ i. i < 8) }
    ensures goes { GoesOn batches.now t result }
{
    let i = open_place(batches, t.batch)?;
    if batches.marked[i] {
        return None;
    }
    if batches.rows[i].last != t.previous {
        return None;
    }
    Some(i)
}

// The batch at place i is no longer open.
fn dropped(batches: Batches, i: usize) -> Batches
    ensures { result ≡ batches_of (without batches.rows i) (tab 8 (closing false batches.marked i)) }
{
    Batches {
        rows: closed(batches.rows, i),
        marked: closed_up(batches.marked, i, false),
    }
}

fn changed(mut batches: Batches, i: usize, row: Row) -> Batches
    requires { i < 8 }
    ensures { result ≡ batches_of (set batches.rows i row) batches.marked }
{
    batches.rows[i] = row;
    batches
}

// 1: "batch = own number"; more than eight are refused.
fn begun(batches: Batches, t: Told) -> Option<Batches>
    requires { t.kind ≡ 1 }
    ensures { Steps batches t result }
{
    let i = used_rows(batches.rows);
    if i == 8 {
        return None;
    }
    Some(changed(batches, i, new_row(t.own)))
}

// A row with a line more, which is the newest.
pub fn longer(row: Row, own: u32) -> Row
    requires { row.pending ≤ most_slots }
    ensures { result ≡ longer_row row own }
{
    Row {
        last: own,
        undo: own,
        pending: row.pending + 1,
        ..row
    }
}

// 2 and 3.
fn updated(batches: Batches, t: Told) -> Option<Batches>
    requires { (2 ≤ t.kind) × (t.kind ≤ 3) × LowRows batches.rows }
    ensures { Steps batches t result }
{
    let i = going_on(&batches, t)?;
    Some(changed(batches, i, longer(batches.rows[i], t.own)))
}

// 6.
fn committed(batches: Batches, t: Told) -> Option<Batches>
    requires { t.kind ≡ 6 }
    ensures { Steps batches t result }
{
    let i = going_on(&batches, t)?;
    Some(dropped(batches, i))
}

// 7.
fn abort_marked(mut batches: Batches, t: Told) -> Option<Batches>
    requires { t.kind ≡ 7 }
    ensures { Steps batches t result }
{
    let i = going_on(&batches, t)?;
    batches.marked[i] = true;
    let row = batches.rows[i];
    Some(changed(batches, i, Row { last: t.own, ..row }))
}

// 8: "an 8 has nothing pending".
fn ended(batches: Batches, t: Told) -> Option<Batches>
    requires { t.kind ≡ 8 }
    ensures { Steps batches t result }
{
    let i = open_place(&batches, t.batch)?;
    let row = batches.rows[i];
    if row.pending != 0 {
        return None;
    }
    if row.last != t.previous {
        return None;
    }
    Some(dropped(batches, i))
}

// The line is what the record undoes, and what is below it is what the record says is left.
fn undoes(t: Told, line: Line) -> bool
    ensures { result ≡ line_undone t line }
{
    if t.key != line.key {
        return false;
    }
    if t.previous != line.below {
        return false;
    }
    if t.kind == 4 {
        return line.adds;
    }
    if line.adds {
        return false;
    }
    t.second == line.value
}

// 4 and 5: "a 4 or 5 undoes its newest pending update".
fn undone(log: &[u8], m: usize, batches: Batches, t: Told) -> Option<Batches>
    requires { HasSlots m log.now × (4 ≤ t.kind) × (t.kind ≤ 5) }
    ensures { StepsIn m log.now batches t result }
{
    let i = open_place(&batches, t.batch)?;
    let row = batches.rows[i];
    if row.pending == 0 {
        return None;
    }
    let line = line_at(log, m, row.undo);
    if !undoes(t, line) {
        return None;
    }
    let new = Row {
        last: t.own,
        undo: line.below,
        pending: row.pending - 1,
        ..row
    };
    Some(changed(batches, i, new))
}

// One record of the batch chain, after which these batches are open; or none, where it may not follow. No batch has the kinds 9 to 15.
pub fn step(log: &[u8], m: usize, batches: Batches, t: Told) -> Option<Batches>
    requires { HasSlots m log.now × (0 < t.kind) × (t.kind < 16) × LowRows batches.rows }
    ensures { StepsIn m log.now batches t result }
{
    let kind = t.kind;
    match kind {
        1 => begun(batches, t),
        2..=3 => updated(batches, t),
        4..=5 => undone(log, m, batches, t),
        6 => committed(batches, t),
        7 => abort_marked(batches, t),
        8 => ended(batches, t),
        _ => Some(batches),
    }
}
