// What a log record does to a page that it changes: once, for live work and for redo.
#![tactic(auto)]

pub mod lists;
pub mod pages;
pub mod roles;

ghost use Rattle.std.specs.Prelude.{◌≡◌, [], ◌∷◌, suc, ◌≤◌, take, Some};
ghost use Rattle.def_layout.specs.Sizes.{room};
ghost use Rattle.def_layout.specs.Entries.{entry, top};
ghost use Rattle.def_layout.specs.Pages.{node_at};
ghost use Rattle.def_layout.specs.Records.{kind_of};
ghost use Rattle.def_model.specs.Change.{into_a, share_in_a, share_in_b, cut_to_size, change_a, change_b, change, as_map, act};
ghost use Rattle.law_bytes.specs.EntryBytes.{used};
ghost use Rattle.codec_page.specs.Typed.{typed};
ghost use Rattle.record_apply.specs.Lists.{listed};
ghost use Rattle.record_apply.specs.Pages.{rec};
ghost use Rattle.record_apply.specs.Roles.{as_role};

use codec_page::Page;
use def_layout::page::PageKind;
use def_layout::{Entry, ROOM};
use lists::{EntryList, two_children, without_first};
use pages::{cut, free_page, mark, node, renew, with_list};
use roles::{Role, role_of};

// The numbers of a log record, but for its own, and its entries. The kind is a number, as 01 numbers the rows of its table: a rule of the project keeps
// the matches on 1 to 15.
#[derive(Clone, Copy, Debug, PartialEq, Eq, Default)]
pub struct Record {
    pub kind: u32,
    pub count: u32,
    pub level: u32,
    pub batch: u32,
    pub previous: u32,
    pub a: u32,
    pub b: u32,
    pub c: u32,
    pub key: u32,
    pub second: u32,
    pub right: u32,
    pub entries: [Entry; ROOM],
}

// 01 on 13: "into A if not above key, else into B".
pub fn into_a(r: Record) -> bool
    ensures { result ≡ into_a (rec r) }
{
    r.count == 0 || r.entries[0].key <= r.key
}

// The entries that a record carries.
fn carried(r: Record) -> EntryList
    requires { r.count ≤ room }
    ensures { (listed result ≡ used r.count r.entries) × (result.count ≡ r.count) }
{
    let entries = r.entries;
    EntryList {
        count: r.count as usize,
        entries,
    }
}

// The entries of A after a redistribution.
fn share_a(r: Record, es: EntryList) -> EntryList
    requires { (es.count ≤ room) × (r.count ≤ room) }
    ensures { (listed result ≡ take 14 (share_in_a (into_a (rec r)) (rec r) (listed es))) × (result.count ≤ room) }
{
    if into_a(r) {
        es.join(carried(r))
    } else {
        es.without_last(r.count as usize)
    }
}

// The same of B.
fn share_b(r: Record, es: EntryList) -> EntryList
    requires { (es.count ≤ room) × (r.count ≤ room) }
    ensures { (listed result ≡ take 14 (share_in_b (into_a (rec r)) (rec r) (listed es))) × (result.count ≤ room) }
{
    if into_a(r) {
        without_first(es.entries, es.count, r.count as usize)
    } else {
        carried(r).join(es)
    }
}

// A new page with the record's level and entries.
fn filled(r: Record, own: u32, right: u32, high: u32) -> Page
    requires { r.count ≤ room }
    ensures { typed result ≡ cut_to_size (node_at own r.level right high (used r.count r.entries)) }
{
    node(
        PageKind::at_level(r.level),
        r.level,
        own,
        right,
        high,
        carried(r),
    )
}

// The raised root: C below it on the left, B on the right.
fn raised(r: Record, own: u32) -> Page
    ensures { typed result ≡ cut_to_size (node_at own (suc r.level) 0 top (entry r.key r.c ∷ entry top r.b ∷ [])) }
{
    let l = two_children(r.key, r.c, r.b);
    node(PageKind::Index, r.level % 16 + 1, own, 0, u32::MAX, l)
}

// What a record does to its page A.
fn change_a(r: Record, x: Page) -> Page
    requires { (x.count ≤ room) × (r.count ≤ room) }
    ensures { typed result ≡ cut_to_size (change_a (kind_of r.kind) (rec r) (typed x)) }
{
    let entries = x.entries;
    let es = EntryList {
        count: x.count as usize,
        entries,
    };
    match r.kind {
        2 => with_list(x, es.insert_key(r.key, r.second)),
        3..=4 => with_list(x, es.remove_key(r.key)),
        5 => with_list(x, es.insert_key(r.key, r.second)),
        9 => renew(x, r.b, r.key, es.without_last(r.count as usize)),
        10 => with_list(x, es.link_in(r.b, r.key, r.c, r.second)),
        11 => with_list(x, es.unlink_in(r.b, r.key, r.second)),
        12 => renew(x, r.right, r.key, es.join(carried(r))),
        13 => renew(x, x.right, r.key, share_a(r, es)),
        14 => raised(r, x.own),
        15 => filled(r, x.own, 0, x.high),
        _ => cut(x),
    }
}

// What it does to its page B.
fn change_b(r: Record, x: Page) -> Page
    requires { (x.count ≤ room) × (r.count ≤ room) }
    ensures { typed result ≡ cut_to_size (change_b (kind_of r.kind) (rec r) (typed x)) }
{
    let entries = x.entries;
    let es = EntryList {
        count: x.count as usize,
        entries,
    };
    match r.kind {
        9 => filled(r, r.b, r.right, r.second),
        12 => free_page(x.own),
        13 => with_list(x, share_b(r, es)),
        15 => free_page(x.own),
        _ => cut(x),
    }
}

// What it does to the map: the page taken is marked, the page freed is not.
fn change_map(r: Record, x: Page) -> Page
    requires { x.count ≤ room }
    ensures { typed result ≡ cut_to_size (change (rec r) as_map (typed x)) }
{
    match r.kind {
        9 => mark(x, r.b as usize, true),
        14 => mark(x, r.c as usize, true),
        _ => mark(x, r.b as usize, false),
    }
}

// The change of a page that has the part.
fn change_part(r: Record, part: Role, x: Page) -> Page
    requires { (x.count ≤ room) × (r.count ≤ room) }
    ensures { typed result ≡ cut_to_size (change (rec r) (as_role (Some part)) (typed x)) }
{
    match part {
        Role::A => change_a(r, x),
        Role::B => change_b(r, x),
        Role::C => filled(r, r.c, r.b, r.key),
        Role::Map => change_map(r, x),
    }
}

// The same of a page that may have none.
fn change(r: Record, role: Option<Role>, x: Page) -> Page
    requires { (x.count ≤ room) × (r.count ≤ room) }
    ensures { typed result ≡ cut_to_size (change (rec r) (as_role role) (typed x)) }
{
    match role {
        None => cut(x),
        Some(part) => change_part(r, part, x),
    }
}

// What record number n does to page p, which it may or may not change.
pub fn apply(r: Record, n: u32, p: usize, x: Page) -> Page
    requires { (x.count ≤ room) × (r.count ≤ room) }
    ensures { typed result ≡ act p n (rec r) (typed x) }
{
    let mut y = change(r, role_of(r, p), x);
    y.lsn = n;
    y
}
