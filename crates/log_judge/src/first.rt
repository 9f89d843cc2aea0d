// Slots that are a matter of the first row alone: judged with no copy of the rows.
ghost use Rattle.std.specs.Prelude.{◌≡◌, true, false, ◌≤◌, ◌<◌, slice_index_or};
ghost use Rattle.def_layout.specs.Sizes.{most_slots};
ghost use Rattle.def_layout.specs.Desks.{row_at};
ghost use Rattle.law_bytes.specs.AreaSizes.{HasSlots};
ghost use Rattle.log_chain.specs.declared.Batches as chain;
ghost use Rattle.log_judge.specs.Alone.{Alone, GoesOnFirst, SameFirst, SameFront};

use super::slots::{batch_at, is_change, update_at};
use codec_desk::new_row;
use def_layout::Row;
use log_chain::{Batches, Told, longer};

// Whether a record goes on the batch of the first row: it names that batch, which has no abort mark, and its last record.
fn goes_on_first(batches: &Batches, t: Told) -> bool
    ensures { result ≡ true → GoesOnFirst batches.now t }
{
    let row = batches.rows[0];
    t.batch != 0 && row.batch == t.batch && !batches.marked[0] && row.last == t.previous
}

// The first row after an update of its batch, at slot i.
fn first_update(log: &[u8], m: usize, n: usize, i: usize, batches: &Batches) -> Option<Row>
    requires { HasSlots m log.now × (i < m) × ((row_at batches.now.rows 0).pending ≤ most_slots) }
    ensures { (o : chain.Batches) → SameFirst batches.now o → Alone n m log.now i o result }
{
    let t = update_at(log, m, n, i)?;
    if !goes_on_first(batches, t) {
        return None;
    }
    Some(longer(batches.rows[0], t.own))
}

// The first row after a begin where no batch is open, or the commit of the only one.
fn first_batch(log: &[u8], m: usize, n: usize, i: usize, batches: &Batches) -> Option<Row>
    requires { HasSlots m log.now × (i < m) }
    ensures { (o : chain.Batches) → SameFront batches.now o → Alone n m log.now i o result }
{
    let t = batch_at(log, m, n, i)?;
    let first = batches.rows[0].batch;
    let second = batches.rows[1].batch;
    if t.kind == 1 {
        if first != 0 {
            return None;
        }
        return Some(new_row(t.own));
    }
    if t.kind != 6 {
        return None;
    }
    if second != 0 {
        return None;
    }
    if !goes_on_first(batches, t) {
        return None;
    }
    Some(Row::default())
}

// The first row after slot i, where that leaves the other rows and all marks as they are: an update of its batch, a change of the tree, a begin or a
// commit. It is right of all batches that are alike in the first row, its mark and the second row's batch. None says nothing of the slot.
pub fn alone(log: &[u8], m: usize, n: usize, i: usize, batches: &Batches) -> Option<Row>
    requires { HasSlots m log.now × (i < m) × ((row_at batches.now.rows 0).pending ≤ most_slots) }
    ensures { (o : chain.Batches) → SameFront batches.now o → Alone n m log.now i o result }
{
    if let Some(updated) = first_update(log, m, n, i, batches) {
        return Some(updated);
    }
    if is_change(log, m, n, i) {
        return Some(batches.rows[0]);
    }
    first_batch(log, m, n, i, batches)
}
