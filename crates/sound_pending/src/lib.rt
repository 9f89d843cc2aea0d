// Held keys and the pending rule, over the pending lines that the log leads to.
#![tactic(auto)]

ghost use Rattle.std.specs.Prelude.{◌≡◌, ◌<◌, ℕ, Bool, eqb};
ghost use Rattle.law_bytes.specs.AreaSizes.{HasPages, HasSlots, HasAreas};
ghost use Rattle.sound_pending.specs.Keys.{from_to, TestsBy, FirstSays, KeysSay, NewestSays};
ghost use Rattle.sound_pending.specs.Rows.{RowKeys, DeskKeys, HeldIs, HeldBetweenIs, HeldFromIs};
ghost use Rattle.sound_pending.specs.Alternating.{Alternates, AlternateSays};
ghost use Rattle.sound_pending.specs.Apart.{FreeSays, ApartIs};
ghost use Rattle.law_bytes.specs.PageAreas.{pages_of};
ghost use Rattle.sound_pending.specs.Agreeing.{Agrees, LineAgrees, AgreeSays};
ghost use Rattle.sound_pending.specs.Rule.{BatchIs, RuleIs};

use def_layout::{Desk, Row};
use log_pending::{Line, line_at};
use tree_lookup::fetched;

// Whether a key lies from `first` up to `last`; `first` is a wider number, so that nothing from there on may be a key.
fn within(first: u64, key: u32, last: u32) -> bool
    ensures { result ≡ from_to first last key }
{
    if (key as u64) < first {
        return false;
    }
    key <= last
}

// The newest of `count` lines, down from number `from`, whose key passes the test.
fn newest_with<F: Fn(u32) -> bool>(
    log: &[u8],
    m: usize,
    from: u32,
    count: u32,
    test: F,
) -> Option<Line>
    requires slots { HasSlots m log.now }
    requires callable { F.IsAlwaysCallable test }
    ensures { (g : ℕ → Bool) → TestsBy (F.post test) g → FirstSays g m log.now from count result }
{
    let mut at = from;
    for passed in 0..count {
        let x = line_at(log, m, at);
        if test(x.key) {
            return Some(x);
        }
        at = x.below;
    }
    None
}

// Whether one of them has a key of the range.
fn has_within(log: &[u8], m: usize, from: u32, count: u32, first: u64, last: u32) -> bool
    requires { HasSlots m log.now }
    ensures { KeysSay (from_to first last) m log.now from count result }
{
    newest_with(log, m, from, count, |key| within(first, key, last)).is_some()
}

// Whether one of them has key k.
fn has_key(log: &[u8], m: usize, from: u32, count: u32, k: u32) -> bool
    requires { HasSlots m log.now }
    ensures { KeysSay (λ key. eqb k key) m log.now from count result }
{
    has_within(log, m, from, count, k as u64, k)
}

// The newest of them on key k.
fn newest_on(log: &[u8], m: usize, from: u32, count: u32, k: u32) -> Option<Line>
    requires { HasSlots m log.now }
    ensures { NewestSays k m log.now from count result }
{
    newest_with(log, m, from, count, |key| k == key)
}

// The row's batch is another than n, and has a key from `first` up to `last` pending.
fn row_has_within(log: &[u8], m: usize, row: Row, n: u32, first: u64, last: u32) -> bool
    requires { HasSlots m log.now }
    ensures { RowKeys (from_to first last) m log.now row n result }
{
    if n == row.batch {
        return false;
    }
    has_within(log, m, row.undo, row.pending, first, last)
}

fn held_within(log: &[u8], m: usize, d: Desk, n: u32, first: u64, last: u32) -> bool
    requires { HasSlots m log.now }
    ensures { DeskKeys (from_to first last) m log.now d.rows n result }
{
    for row in &d.rows {
        if row_has_within(log, m, *row, n, first, last) {
            return true;
        }
    }
    false
}

// 01: "A key is held while an open batch has a record on it that is not yet undone (pending)": held against batch n.
pub fn held(log: &[u8], m: usize, d: Desk, n: u32, k: u32) -> bool
    requires { HasSlots m log.now }
    ensures { HeldIs m log.now d.rows n k result }
{
    held_within(log, m, d, n, k as u64, k)
}

// Another batch holds a key above `low`, up to `high`.
pub fn held_between(log: &[u8], m: usize, d: Desk, n: u32, low: u32, high: u32) -> bool
    requires { HasSlots m log.now }
    ensures { HeldBetweenIs m log.now d.rows n low high result }
{
    held_within(log, m, d, n, low as u64 + 1, high)
}

// Another batch holds a key from `low` on, below `high`.
pub fn held_from(log: &[u8], m: usize, d: Desk, n: u32, low: u32, high: u32) -> bool
    requires { HasSlots m log.now }
    ensures { HeldFromIs m log.now d.rows n low high result }
{
    if high == 0 {
        return false;
    }
    held_within(log, m, d, n, low as u64, high - 1)
}

// A line and the newest below it on its key, if there is one.
fn alternates(x: Line, newest: Option<Line>) -> bool
    ensures { Alternates x newest result }
{
    let Some(older) = newest else {
        return true;
    };
    if x.adds {
        return !older.adds;
    }
    if !older.adds {
        return false;
    }
    x.value == older.value
}

// 01: pending records on a key "alternate, a delete after an insert has its value".
fn lines_alternate(log: &[u8], m: usize, from: u32, count: u32) -> bool
    requires { HasSlots m log.now }
    ensures { AlternateSays m log.now from count result }
{
    let mut at = from;
    for passed in 0..count {
        let x = line_at(log, m, at);
        let older = newest_on(log, m, x.below, count - passed - 1, x.key);
        if !alternates(x, older) {
            return false;
        }
        at = x.below;
    }
    true
}

// None of `count` lines, down from number `from`, has a key that is pending in the row's batch.
fn lines_free(log: &[u8], m: usize, row: Row, from: u32, count: u32) -> bool
    requires { HasSlots m log.now }
    ensures { FreeSays m log.now row from count result }
{
    newest_with(
        log,
        m,
        from,
        count,
        |key| -> bool
            requires { HasSlots m log.now }
            ensures { KeysSay (λ k. eqb key k) m log.entry.now row.undo row.pending result }
        { has_key(log, m, row.undo, row.pending, key) },
    )
    .is_none()
}

// 01: "pending records on a key are of one batch": row i against those behind it.
fn row_apart(log: &[u8], m: usize, rows: [Row; 8], i: usize) -> bool
    requires { HasSlots m log.now × (i < 8) }
    ensures { ApartIs m log.now rows i result }
{
    let row = rows[i];
    for j in i + 1..8 {
        let other = rows[j];
        if !lines_free(log, m, row, other.undo, other.pending) {
            return false;
        }
    }
    true
}

// An insert's key is in the tree with its value, a delete's is not.
fn agrees(pages: &[u8], n: usize, x: Line) -> bool
    requires { HasPages n pages.now }
    ensures { Agrees (pages_of n pages.now) x result }
{
    let Some(u) = fetched(pages, n, x.key) else {
        return !x.adds;
    };
    if !x.adds {
        return false;
    }
    u == x.value
}

// A line agrees where none of the `newer` ones before it, down from number `from`, is on its key.
fn line_agrees(pages: &[u8], n: usize, log: &[u8], m: usize, from: u32, newer: u32, x: Line) -> bool
    requires { HasAreas n m pages.now log.now }
    ensures { LineAgrees (pages_of n pages.now) m log.now from newer x result }
{
    if has_key(log, m, from, newer, x.key) {
        return true;
    }
    agrees(pages, n, x)
}

// 01: "the newest agrees with the tree".
fn newest_agree(pages: &[u8], n: usize, log: &[u8], m: usize, from: u32, count: u32) -> bool
    requires { HasAreas n m pages.now log.now }
    ensures { AgreeSays (pages_of n pages.now) m log.now from count result }
{
    let mut at = from;
    for passed in 0..count {
        let x = line_at(log, m, at);
        if !line_agrees(pages, n, log, m, from, passed, x) {
            return false;
        }
        at = x.below;
    }
    true
}

// Row i's batch keeps the pending rule.
fn batch_ok(pages: &[u8], n: usize, log: &[u8], m: usize, rows: [Row; 8], i: usize) -> bool
    requires { HasAreas n m pages.now log.now × (i < 8) }
    ensures { BatchIs (pages_of n pages.now) m log.now rows i result }
{
    let row = rows[i];
    if !lines_alternate(log, m, row.undo, row.pending) {
        return false;
    }
    if !newest_agree(pages, n, log, m, row.undo, row.pending) {
        return false;
    }
    row_apart(log, m, rows, i)
}

// The pending rule, of the batches of eight rows.
pub fn pending_ok(pages: &[u8], n: usize, log: &[u8], m: usize, rows: [Row; 8]) -> bool
    requires { HasAreas n m pages.now log.now }
    ensures { RuleIs (pages_of n pages.now) m log.now rows result }
{
    for i in 0..8 {
        if !batch_ok(pages, n, log, m, rows, i) {
            return false;
        }
    }
    true
}
