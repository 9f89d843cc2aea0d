// The desk's rows, and its 136 bytes.
#![tactic(auto)]

ghost use Rattle.std.specs.Prelude.{◌≡◌, ◌+◌, ◌≤◌, ◌<◌, length, replicate, MatchOption};
ghost use Rattle.def_layout.specs.Sizes.{desk_size};
ghost use Rattle.def_layout.specs.Numbers.{chunks, tab};
ghost use Rattle.def_layout.specs.Desks.{no_row, row_at, row_bytes, desk_bytes, read_row, read_desk};
ghost use Rattle.law_bytes.specs.Patch.{patch};
ghost use Rattle.law_bytes.specs.Eights.{closing};
ghost use Rattle.law_bytes.specs.DeskRows.{place_of, without, new_row};

use codec_bytes::{get32, set32};
use def_layout::{Desk, Row};
use std::array;

// Eight rows of which none is in use.
pub fn no_rows() -> [Row; 8]
    ensures { result ≡ replicate 8 no_row }
{
    [Row::default(); 8]
}

// The desk of a register in which no batch is open, and all of whose records are stored.
pub fn idle_desk(logged: u32) -> Desk
    ensures { result ≡ record { rows = replicate 8 no_row; logged = logged; stored = logged } }
{
    Desk {
        rows: no_rows(),
        logged,
        stored: logged,
    }
}

// The place of batch b's row. Of batch 0, which is never open, that is the first row not in use: "used rows come first".
pub fn row_place(rows: [Row; 8], b: u32) -> Option<usize>
    ensures { MatchOption result (place_of b rows ≡ 8) (λ i. (i ≡ place_of b rows) × (i < 8)) }
{
    rows.iter().position(|row| row.batch == b)
}

// The number of rows in use, which come first.
pub fn used_rows(rows: [Row; 8]) -> usize
    ensures { (result ≡ place_of 0 rows) × (result ≤ 8) }
{
    row_place(rows, 0).unwrap_or(rows.len())
}

// The row of a batch that begins. "batch = own number": its first record is its begin.
pub fn new_row(batch: u32) -> Row
    ensures { result ≡ new_row batch }
{
    Row {
        batch,
        last: batch,
        ..Row::default()
    }
}

// Element i goes, the rest close up, and `last` comes in behind them.
pub fn closed_up<T: Copy>(xs: [T; 8], i: usize, last: T) -> [T; 8]
    ensures { result ≡ tab 8 (closing last xs i) }
{
    array::from_fn(
        |j| -> T
            requires { j < 8 }
            ensures { result ≡ closing last xs i j }
        {
            if j < i {
                xs[j]
            } else if j < 7 {
                xs[j + 1]
            } else {
                last
            }
        },
    )
}

// Row i goes, and the rest close up.
pub fn closed(rows: [Row; 8], i: usize) -> [Row; 8]
    ensures { result ≡ without rows i }
{
    closed_up(rows, i, Row::default())
}

fn get_row(b: &[u8], i: usize) -> Row
    requires { (length b.now ≡ desk_size) × (i < 8) }
    ensures { result ≡ read_row b.now i }
{
    Row {
        batch: get32(b, 16 * i),
        last: get32(b, 16 * i + 4),
        undo: get32(b, 16 * i + 8),
        pending: get32(b, 16 * i + 12),
    }
}

pub fn get_desk(b: &[u8]) -> Desk
    requires { length b.now ≡ desk_size }
    ensures { result ≡ read_desk b.now }
{
    Desk {
        rows: array::from_fn(|i| get_row(b, i)),
        logged: get32(b, 128),
        stored: get32(b, 132),
    }
}

fn put_row(b: &mut [u8], at: usize, r: Row)
    requires { at + 16 ≤ length b.old }
    ensures { b.new ≡ patch b.old at (row_bytes r) }
{
    set32(b, at, r.batch);
    set32(b, at + 4, r.last);
    set32(b, at + 8, r.undo);
    set32(b, at + 12, r.pending);
}

fn put_rows(b: &mut [u8], rows: [Row; 8])
    requires { length b.old ≡ desk_size }
    ensures { b.new ≡ patch b.old 0 (chunks 8 (λ i. row_bytes (row_at rows i))) }
{
    for (i, row) in rows.iter().enumerate() {
        put_row(b, 16 * i, *row);
    }
}

pub fn put_desk(b: &mut [u8], d: Desk)
    requires { length b.old ≡ desk_size }
    ensures { b.new ≡ desk_bytes d }
{
    put_rows(b, d.rows);
    set32(b, 128, d.logged);
    set32(b, 132, d.stored);
}
