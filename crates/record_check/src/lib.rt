// Whether a record keeps its row of 01's table (refusal 4): which fields its kind names, and what the row says within itself.
#![tactic(auto)]

ghost use Rattle.std.specs.Prelude.{◌≡◌, true, ◌&&◌, ◌/◌, ◌%◌, ◌≤◌, ◌<◌, eqb, leb};
ghost use Rattle.def_layout.specs.Sizes.{page_size, room};
ghost use Rattle.def_base.specs.Tests.{every};
ghost use Rattle.def_layout.specs.Records.{kind_of};
ghost use Rattle.def_layout.specs.Rows.{carries, zero_unless, level_bits, one_side};
ghost use Rattle.law_bytes.specs.EntryBytes.{used};
ghost use Rattle.record_check.specs.Kept.{mask, three_but, on_side, says, row_kept, pages_kept};

use codec_entries::children_fit;
use codec_slot::{Header, Slot, kind_number};
use def_layout::{Entry, MOST_ENTRIES, ROOM};

// 01's table, a row a kind: a bit for each field that the kind names, in the order level, batch, previous; A, B, C; key, second,
// right; entries. The form is 01's: a match on the kinds 1 to 15 with ranges, so a kind is a number here.
fn carried(kind: u32) -> u32
    requires { (0 < kind) × (kind < 16) }
    ensures { result ≡ mask (carries (kind_of kind)) }
{
    match kind {
        1 => 0b010_000_000_0,
        2..=3 => 0b011_100_110_0,
        4 => 0b011_100_100_0,
        5 => 0b011_100_110_0,
        6..=8 => 0b011_000_000_0,
        9 => 0b100_110_111_1,
        10..=11 => 0b000_111_110_0,
        12 => 0b000_110_101_1,
        13 => 0b000_110_100_1,
        14 => 0b100_111_100_1,
        _ => 0b100_110_000_1,
    }
}

// A field whose bit is not in the table's row is zero.
fn zero_or(row: u32, bit: u32, n: u32) -> bool
    requires { 0 < bit }
    ensures { result ≡ zero_unless (eqb (row / bit % 2) 1) n }
{
    row / bit % 2 == 1 || n == 0
}

// The same of three fields in a row, the last of them at `bit`.
fn zero_three(row: u32, bit: u32, x: u32, y: u32, z: u32) -> bool
    requires { (0 < bit) × (bit ≤ page_size) }
    ensures { result ≡ three_but row bit x y z }
{
    zero_or(row, bit * 4, x) && zero_or(row, bit * 2, y) && zero_or(row, bit, z)
}

// Entries where the kind has them, and at most 14.
fn count_ok(row: u32, count: u32) -> bool
    ensures { (result ≡ zero_unless (eqb (row / 1 % 2) 1) count && leb count 14) × (result ≡ true → count ≤ room) }
{
    zero_or(row, 1, count) && count <= MOST_ENTRIES
}

// A key on the low side of another, up to it, or above it.
fn on_side(low: bool, key: u32, k: u32) -> bool
    ensures { result ≡ on_side low key k }
{
    if low { k <= key } else { key < k }
}

fn all_on(low: bool, es: [Entry; ROOM], n: usize, key: u32) -> bool
    requires { n ≤ room }
    ensures { result ≡ every (λ e. on_side low key e.key) (used n es) }
{
    es[..n].iter().all(|e| on_side(low, key, e.key))
}

// "into A if not above key, else into B": all on one side.
fn on_one_side(es: [Entry; ROOM], n: usize, key: u32) -> bool
    requires { n ≤ room }
    ensures { result ≡ one_side key (used n es) }
{
    all_on(true, es, n, key) || all_on(false, es, n, key)
}

// Entries of a level above the leaves' have nothing above the child's ten bits.
fn level_fits(es: [Entry; ROOM], n: usize, level: u32) -> bool
    requires { n ≤ room }
    ensures { result ≡ level_bits level (used n es) }
{
    level == 0 || children_fit(es, n)
}

// "A root", and the level's entries.
fn at_root(a: u32, level: u32, es: [Entry; ROOM], n: usize) -> bool
    requires { n ≤ room }
    ensures { result ≡ eqb a 1 && level_bits level (used n es) }
{
    a == 1 && level_fits(es, n, level)
}

// What a row says within itself: "batch = own number" (1), "A root" (14, 15), a redistribution's side (13), children of ten bits.
fn within(
    kind: u32,
    own: u32,
    batch: u32,
    a: u32,
    key: u32,
    level: u32,
    es: [Entry; ROOM],
    n: usize,
) -> bool
    requires { (0 < kind) × (kind < 16) × (n ≤ room) }
    ensures { result ≡ says kind own batch a key level (used n es) }
{
    match kind {
        1 => batch == own,
        9 => level_fits(es, n, level),
        13 => on_one_side(es, n, key),
        14..=15 => at_root(a, level, es, n),
        _ => true,
    }
}

// The slot's record keeps its row. Slots that hold no record keep none.
pub fn row_ok(s: Slot) -> bool
    ensures { result ≡ row_kept s.header s.entries }
{
    let header = s.header;
    let Header::Full {
        kind,
        count,
        level,
        own,
        batch,
        previous,
        a,
        b,
        c,
        key,
        second,
        right,
    } = header
    else {
        return false;
    };
    let k = kind_number(kind);
    let row = carried(k);
    if !zero_three(row, 128, level, batch, previous) {
        return false;
    }
    if !zero_three(row, 16, a, b, c) {
        return false;
    }
    if !zero_three(row, 2, key, second, right) {
        return false;
    }
    if !count_ok(row, count) {
        return false;
    }
    let es = s.entries;
    within(k, own, batch, a, key, level, es, count as usize)
}

// The slot's record names pages below n: "names an A, B or C not below the page count" is what is refused.
pub fn pages_ok(s: Slot, n: usize) -> bool
    ensures { result ≡ pages_kept n s.header }
{
    let header = s.header;
    let Header::Full { a, b, c, .. } = header else {
        return false;
    };
    if a as usize >= n {
        return false;
    }
    if b as usize >= n {
        return false;
    }
    (c as usize) < n
}
