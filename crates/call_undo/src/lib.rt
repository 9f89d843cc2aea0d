// Undo: lines from the root, newest first; a batch aborted; every open batch settled at a restart.
#![tactic(auto)]

ghost use Rattle.std.specs.Prelude.{◌≡◌, false, List, map, ◌≤◌, ◌<◌, length};
ghost use Rattle.def_layout.specs.Desks.{eight_rows};
ghost use Rattle.def_layout.specs.Records.{Rec};
ghost use Rattle.def_model.specs.Update as model;
ghost use Rattle.def_model.specs.Batches as model_batches;
ghost use Rattle.def_model.specs.Undo as undoing;
ghost use Rattle.def_model.specs.Restart as restart;
ghost use Rattle.law_bytes.specs.AreaSizes.{HasAreas};
ghost use Rattle.law_areas.specs.Logs.{AllFit};
ghost use Rattle.theory_ledger.specs.Held.{Distinct};
ghost use Rattle.log_pending.specs.Below.{Linked};
ghost use Rattle.log_pending.specs.Holding.{Sits, Holds};
ghost use Rattle.log_pending.specs.Lines.{shown_line};
ghost use Rattle.law_bytes.specs.Eights.{eight};
ghost use Rattle.law_bytes.specs.DeskRows.{LowRows};
ghost use Rattle.log_chain.specs.Shown.{marks_of};
ghost use Rattle.tree_write.specs.Shows.{Shows, Does};
ghost use Rattle.call_undo.specs.Grown.{Grown};
ghost use Rattle.call_undo.specs.Lines.{ReturnsTurn};
ghost use Rattle.call_undo.specs.Marking.{MarksTurn, Starts, MarkedAll};
ghost use Rattle.call_undo.specs.Ending.{EndsTurn};
ghost use Rattle.call_undo.specs.Due.{Due, Top};
ghost use Rattle.call_undo.specs.Settling.{UndoesTurn};

use codec_desk::used_rows;
use def_layout::Row;
use log_chain::Batches;
use log_judge::pending_total;
use log_pending::{Line, line_at};
use record_apply::Record;
use record_make::batch_row;
use tree_add::put_record;
use tree_remove::remove_record;
use tree_write::{Run, emit};

// A run, and a row after its turn.
#[derive(Clone, Copy)]
pub struct Turn {
    pub run: Run,
    pub row: Row,
}

// A run, and the desk's rows after a round.
#[derive(Clone, Copy)]
pub struct Round {
    pub run: Run,
    pub rows: [Row; 8],
}

// Line x of a batch is undone, from the root. 01: "previous = next to undo after this undo".
pub fn undo_line(
    wp: &mut [u8],
    wl: &mut [u8],
    n: usize,
    m: usize,
    t: Run,
    batch: u32,
    x: Line,
) -> Run
    requires { HasAreas n m wp.old wl.old }
    ensures { (s : model.Run) (y : model_batches.Line) (ys : List model_batches.Line) → Shows n m wp.old wl.old t s → x ≡ shown_line y ys
        → Shows n m wp.new wl.new result (undoing.undo_line batch (model_batches.next_undo ys) y s) }
{
    if x.adds {
        return remove_record(wp, wl, n, m, t, 4, batch, x.below, x.key, 0);
    }
    put_record(wp, wl, n, m, t, 5, batch, x.below, x.key, x.value)
}

// The lines of the row's batch above the mark are undone, newest first: each is found through the log. Then the row says what is left.
pub fn undo_above(
    wp: &mut [u8],
    wl: &mut [u8],
    n: usize,
    m: usize,
    t: Run,
    mark: u32,
    row: Row,
) -> Turn
    requires { HasAreas n m wp.old wl.old }
    ensures { ReturnsTurn n m wp.old wl.old wp.new wl.new t mark row result }
{
    let mut run = t;
    let mut row = row;
    for left in (0..row.pending).rev() {
        if row.undo <= mark {
            return Turn { run, row };
        }
        let x = line_at(wl, m, row.undo);
        run = undo_line(wp, wl, n, m, run, row.batch, x);
        row = Row {
            last: run.logged,
            undo: x.below,
            pending: left,
            ..row
        };
    }
    Turn { run, row }
}

// An 8 right after the batch's last record.
fn end_batch(wp: &mut [u8], wl: &mut [u8], n: usize, m: usize, t: Run, batch: u32) -> Run
    requires { HasAreas n m wp.old wl.old }
    ensures { Does n m wp wl t result (undoing.end_batch batch) }
{
    let r: Record = batch_row(8, batch, t.logged);
    emit(wp, wl, n, m, t, r)
}

// 01: "Abort writes a 7, undoes newest first, always from the root, then writes an 8": the batch of this row.
pub fn abort_run(wp: &mut [u8], wl: &mut [u8], n: usize, m: usize, t: Run, row: Row) -> Run
    requires { HasAreas n m wp.old wl.old }
    ensures { (s : model.Run) (y : model_batches.Batch) → Shows n m wp.old wl.old t s → row ≡ model_batches.row_of y → Sits s.log y → AllFit 1 s.log
        → Shows n m wp.new wl.new result (undoing.abort_run y s) }
{
    let r: Record = batch_row(7, row.batch, row.last);
    let marked = emit(wp, wl, n, m, t, r);
    let undone = undo_above(wp, wl, n, m, marked, 0, row);
    end_batch(wp, wl, n, m, undone.run, row.batch)
}

// 01: "writes a 7 for each open batch without one": the row's batch. The row then names its 7, if there was a slot for that.
fn mark_row(
    wp: &mut [u8],
    wl: &mut [u8],
    n: usize,
    m: usize,
    t: Run,
    row: Row,
    marked: bool,
) -> Turn
    requires { HasAreas n m wp.old wl.old }
    ensures { MarksTurn n m wp.old wl.old wp.new wl.new t row marked result }
{
    if marked {
        return Turn { run: t, row };
    }
    let r: Record = batch_row(7, row.batch, row.last);
    let u = emit(wp, wl, n, m, t, r);
    if u.stop.is_some() {
        return Turn { run: u, row };
    }
    let row = Row {
        last: u.logged,
        ..row
    };
    Turn { run: u, row }
}

// The open batches' rows, in order.
fn mark_all(
    wp: &mut [u8],
    wl: &mut [u8],
    n: usize,
    m: usize,
    t: Run,
    batches: Batches,
    used: usize,
) -> Round
    requires { HasAreas n m wp.old wl.old × (used ≤ 8) }
    ensures { (s : model.Run) → Starts n m wp.old wl.old t batches.rows batches.marked used s
        → MarkedAll n m wp.new wl.new result s (undoing.mark_all (model_batches.open_batches s.log) s) }
{
    let mut run = t;
    let mut rows = batches.rows;
    for i in 0..used {
        let x = mark_row(wp, wl, n, m, run, rows[i], batches.marked[i]);
        run = x.run;
        rows[i] = x.row;
    }
    Round { run, rows }
}

// 01: "then in that order an 8 for each with nothing pending": the row's batch.
fn end_row(wp: &mut [u8], wl: &mut [u8], n: usize, m: usize, t: Run, row: Row) -> Run
    requires { HasAreas n m wp.old wl.old }
    ensures { EndsTurn n m wp.old wl.old wp.new wl.new t row result }
{
    if row.pending != 0 {
        return t;
    }
    let r: Record = batch_row(8, row.batch, row.last);
    emit(wp, wl, n, m, t, r)
}

fn end_idle(
    wp: &mut [u8],
    wl: &mut [u8],
    n: usize,
    m: usize,
    t: Run,
    rows: [Row; 8],
    used: usize,
) -> Run
    requires { HasAreas n m wp.old wl.old × (used ≤ 8) }
    ensures { (s : model.Run) (bs : List model_batches.Batch) → Shows n m wp.old wl.old t s → rows ≡ eight_rows (map model_batches.row_of bs) → used ≡ length bs
        → Shows n m wp.new wl.new result (undoing.end_idle bs s) }
{
    let mut run = t;
    for row in &rows[..used] {
        run = end_row(wp, wl, n, m, run, *row);
    }
    run
}

// The row with the largest number due, the first of them: `max_by_key` takes the last of equals.
fn newest_row(rows: [Row; 8]) -> usize
    ensures { (result < 8) × Top rows result }
{
    let mut p = 0;
    for i in 1..8 {
        if rows[p].undo < rows[i].undo {
            p = i;
        }
    }
    p
}

// The newest line of the row's batch is undone, "with an 8 right after a batch's last".
fn undo_newest(wp: &mut [u8], wl: &mut [u8], n: usize, m: usize, t: Run, row: Row) -> Turn
    requires { HasAreas n m wp.old wl.old × (0 < row.pending) }
    ensures { UndoesTurn n m wp.old wl.old wp.new wl.new t row result }
{
    let line = line_at(wl, m, row.undo);
    let u = undo_line(wp, wl, n, m, t, row.batch, line);
    let left = Row {
        undo: line.below,
        pending: row.pending - 1,
        ..row
    };
    if row.pending != 1 {
        return Turn { run: u, row: left };
    }
    let run = end_batch(wp, wl, n, m, u, row.batch);
    Turn { run, row: left }
}

// 01: "undoes always the largest log number due", `count` times.
fn undo_all(
    wp: &mut [u8],
    wl: &mut [u8],
    n: usize,
    m: usize,
    t: Run,
    rows: [Row; 8],
    count: u32,
) -> Run
    requires { HasAreas n m wp.old wl.old }
    ensures { (s : model.Run) (l : List Rec) (cs : List model_batches.Batch) → Shows n m wp.old wl.old t s → Grown l s.log → AllFit 1 l → Due l rows cs → Distinct cs
        → Shows n m wp.new wl.new result (undoing.undo_all count cs s) }
{
    let mut run = t;
    let mut rows = rows;
    for _ in 0..count {
        let p = newest_row(rows);
        if rows[p].pending == 0 {
            return run;
        }
        let x = undo_newest(wp, wl, n, m, run, rows[p]);
        run = x.run;
        rows[p] = x.row;
    }
    run
}

// SETTLED: restart's marks, ends and undos of every open batch, by the rows that the log says and by which of their batches are marked.
pub fn settle(wp: &mut [u8], wl: &mut [u8], n: usize, m: usize, t: Run, batches: Batches) -> Run
    requires { HasAreas n m wp.old wl.old × LowRows batches.rows }
    ensures { (s : model.Run) → Shows n m wp.old wl.old t s → batches.rows ≡ eight_rows (map model_batches.row_of (model_batches.open_batches s.log))
        → batches.marked ≡ eight false (marks_of (model_batches.open_batches s.log)) → Holds s.log (model_batches.open_batches s.log) → AllFit 1 s.log
        → Shows n m wp.new wl.new result (restart.settle s) }
{
    let used = used_rows(batches.rows);
    let count = pending_total(batches.rows);
    let x = mark_all(wp, wl, n, m, t, batches, used);
    let u = end_idle(wp, wl, n, m, x.run, x.rows, used);
    undo_all(wp, wl, n, m, u, x.rows, count)
}
