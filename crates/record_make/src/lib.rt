// The rows of 01's table of log records, as functions of what they carry.
#![tactic(auto)]

ghost use Rattle.std.specs.Prelude.{◌≡◌, ◌≤◌};
ghost use Rattle.def_layout.specs.Sizes.{room};
ghost use Rattle.def_layout.specs.Records as rows;
ghost use Rattle.def_layout.specs.Records.{kind_of};
ghost use Rattle.record_apply.specs.Lists.{listed};
ghost use Rattle.record_apply.specs.Pages.{rec};

use record_apply::Record;
use record_apply::lists::EntryList;

// A record of a kind with these entries; what the kind does not name is 0. Each row below puts in what its kind names.
fn of_kind(kind: u32, l: EntryList) -> Record
    requires { l.count ≤ room }
    ensures fields { result ≡ record { kind = kind; count = l.count; level = 0; batch = 0; previous = 0; a = 0; b = 0; c = 0; key = 0; second = 0; right = 0; entries = l.entries } }
    ensures few { result.count ≤ room }
{
    let entries = l.entries;
    Record {
        kind,
        count: l.count as u32,
        level: 0,
        batch: 0,
        previous: 0,
        a: 0,
        b: 0,
        c: 0,
        key: 0,
        second: 0,
        right: 0,
        entries,
    }
}

// 1 begin, 6 commit, 7 abort mark, 8 end.
pub fn batch_row(kind: u32, batch: u32, previous: u32) -> Record
    ensures { (rec result ≡ rows.batch_row (kind_of kind) batch previous) × (result.count ≤ room) }
{
    let r = of_kind(kind, EntryList::default());
    Record {
        batch,
        previous,
        ..r
    }
}

// 2 insert, 3 delete, 4 undo-insert, 5 undo-delete.
pub fn data_row(kind: u32, batch: u32, previous: u32, a: u32, key: u32, second: u32) -> Record
    ensures { (rec result ≡ rows.data_row (kind_of kind) batch previous a key second) × (result.count ≤ room) }
{
    let r = of_kind(kind, EntryList::default());
    Record {
        batch,
        previous,
        a,
        key,
        second,
        ..r
    }
}

// 9.
pub fn split_row(
    level: u32,
    a: u32,
    b: u32,
    key: u32,
    second: u32,
    right: u32,
    l: EntryList,
) -> Record
    requires { l.count ≤ room }
    ensures { (rec result ≡ rows.split_row level a b key second right (listed l)) × (result.count ≤ room) }
{
    let r = of_kind(9, l);
    Record {
        level,
        a,
        b,
        key,
        second,
        right,
        ..r
    }
}

// 10.
pub fn link_row(a: u32, b: u32, c: u32, key: u32, second: u32) -> Record
    ensures { (rec result ≡ rows.link_row a b c key second) × (result.count ≤ room) }
{
    let r = of_kind(10, EntryList::default());
    Record {
        a,
        b,
        c,
        key,
        second,
        ..r
    }
}

// 11.
pub fn unlink_row(a: u32, b: u32, c: u32, key: u32, second: u32) -> Record
    ensures { (rec result ≡ rows.unlink_row a b c key second) × (result.count ≤ room) }
{
    let r = of_kind(11, EntryList::default());
    Record {
        a,
        b,
        c,
        key,
        second,
        ..r
    }
}

// 12.
pub fn merge_row(a: u32, b: u32, key: u32, right: u32, l: EntryList) -> Record
    requires { l.count ≤ room }
    ensures { (rec result ≡ rows.merge_row a b key right (listed l)) × (result.count ≤ room) }
{
    let r = of_kind(12, l);
    Record {
        a,
        b,
        key,
        right,
        ..r
    }
}

// 13.
pub fn redistribute_row(a: u32, b: u32, key: u32, l: EntryList) -> Record
    requires { l.count ≤ room }
    ensures { (rec result ≡ rows.redistribute_row a b key (listed l)) × (result.count ≤ room) }
{
    let r = of_kind(13, l);
    Record { a, b, key, ..r }
}

// 14, of the root.
pub fn raise_row(level: u32, b: u32, c: u32, key: u32, l: EntryList) -> Record
    requires { l.count ≤ room }
    ensures { (rec result ≡ rows.raise_row level b c key (listed l)) × (result.count ≤ room) }
{
    let r = of_kind(14, l);
    Record {
        level,
        a: 1,
        b,
        c,
        key,
        ..r
    }
}

// 15, of the root.
pub fn lower_row(level: u32, b: u32, l: EntryList) -> Record
    requires { l.count ≤ room }
    ensures { (rec result ≡ rows.lower_row level b (listed l)) × (result.count ≤ room) }
{
    let r = of_kind(15, l);
    Record {
        level,
        a: 1,
        b,
        ..r
    }
}
