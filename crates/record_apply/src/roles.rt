// Which pages a record changes, and what part a page has in it.
ghost use Rattle.std.specs.Prelude.{◌≡◌, ◌&&◌, eqb};
ghost use Rattle.def_layout.specs.Records.{kind_of};
ghost use Rattle.def_model.specs.Change.{shape, role};
ghost use Rattle.record_apply.specs.Pages.{rec};
ghost use Rattle.record_apply.specs.Roles.{as_role, as_shape};

use super::Record;

// Which of A, B, C and the map a kind of record changes.
#[derive(Clone, Copy, Debug, PartialEq, Eq, Default)]
pub struct Parts {
    pub a: bool,
    pub b: bool,
    pub c: bool,
    pub map: bool,
}

// The part that a page has in a record that changes it.
#[derive(Clone, Copy, Debug, PartialEq, Eq)]
pub enum Role {
    A,
    B,
    C,
    Map,
}

// By the kind's number, as 01 numbers the rows of its table: a rule of the project keeps this match on 1 to 15.
pub fn parts_of(kind: u32) -> Parts
    ensures { as_shape result ≡ shape (kind_of kind) }
{
    let none = Parts::default();
    match kind {
        2..=5 => Parts { a: true, ..none },
        9 => Parts {
            a: true,
            b: true,
            map: true,
            ..none
        },
        10..=11 => Parts { a: true, ..none },
        12 => Parts {
            a: true,
            b: true,
            map: true,
            ..none
        },
        13 => Parts {
            a: true,
            b: true,
            ..none
        },
        14 => Parts {
            a: true,
            c: true,
            map: true,
            ..none
        },
        15 => Parts {
            a: true,
            b: true,
            map: true,
            ..none
        },
        _ => none,
    }
}

// Whether the record has the part, and the page is the one that stands there.
fn has_part(on: bool, a: u32, p: usize) -> bool
    ensures { result ≡ (on && eqb p a) }
{
    on && p == a as usize
}

// The page's part in the record, if it has one. A page that a record names twice has its first part.
pub fn role_of(r: Record, p: usize) -> Option<Role>
    ensures { as_role result ≡ role (rec r) p }
{
    let parts = parts_of(r.kind);
    if has_part(parts.a, r.a, p) {
        Some(Role::A)
    } else if has_part(parts.b, r.b, p) {
        Some(Role::B)
    } else if has_part(parts.c, r.c, p) {
        Some(Role::C)
    } else if has_part(parts.map, 0, p) {
        Some(Role::Map)
    } else {
        None
    }
}
