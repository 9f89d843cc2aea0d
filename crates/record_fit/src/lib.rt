// Refusal 5: whether a page is one that a record's change starts from, "judged on that page alone".
#![tactic(auto)]

mod changes;
mod entries;
mod pages;
mod slides;

ghost use Rattle.std.specs.Prelude.{◌≡◌, ◌≤◌, Some};
ghost use Rattle.def_layout.specs.Sizes.{room};
ghost use Rattle.def_layout.specs.Records.{kind_of};
ghost use Rattle.def_model.specs.Change.{as_map};
ghost use Rattle.def_model.specs.Fit.{fits_a, fits_b, fits_map, fits_role, fits};
ghost use Rattle.codec_page.specs.Typed.{typed};
ghost use Rattle.codec_map.specs.Turns.{marks};
ghost use Rattle.record_apply.specs.Pages.{rec};
ghost use Rattle.record_apply.specs.Roles.{as_role};

use changes::{
    link_row_fits, lower_b_fits, lower_fits, merge_b_fits, merge_fits, raise_fits,
    redistribute_b_fits, redistribute_fits, split_fits, unlink_fits,
};
use codec_page::{Page, marked, size_of};
use def_layout::page::PageKind;
use def_layout::{Entry, MOST_PAGES, ROOM};
use pages::is_free;
use record_apply::Record;
use record_apply::roles::{Role, role_of};
use slides::{delete_fits, insert_fits, undo_insert_fits};

// Of the map's words, whether the bit of the page taken is clear, or of the page freed set.
fn bit_fits(es: [Entry; ROOM], q: usize, taken: bool) -> bool
    ensures { result ≡ fits_map taken q (marks es) }
{
    if q >= MOST_PAGES {
        return false;
    }
    let used = marked(es, q);
    if taken { !used } else { used }
}

fn mark_fits(x: Page, q: usize, taken: bool) -> bool
    ensures { result ≡ fits_map taken q (typed x).marks }
{
    let es = x.entries;
    match x.kind {
        PageKind::Map => bit_fits(es, q, taken),
        _ => false,
    }
}

fn map_fits(r: Record, x: Page) -> bool
    ensures { result ≡ fits_role (rec r) as_map (typed x) }
{
    match r.kind {
        9 => mark_fits(x, r.b as usize, true),
        14 => mark_fits(x, r.c as usize, true),
        _ => mark_fits(x, r.b as usize, false),
    }
}

// Page A of the record.
fn fits_a(r: Record, x: Page) -> bool
    requires { (x.count ≤ room) × (r.count ≤ room) }
    ensures { result ≡ fits_a (kind_of r.kind) (rec r) (typed x) }
{
    let n = size_of(x);
    match r.kind {
        2 => insert_fits(r, x, n),
        3 => delete_fits(r, x, n),
        4 => undo_insert_fits(r, x, n),
        5 => insert_fits(r, x, n),
        9 => split_fits(r, x, n),
        10 => link_row_fits(r, x, n),
        11 => unlink_fits(r, x, n),
        12 => merge_fits(r, x, n),
        13 => redistribute_fits(r, x, n),
        14 => raise_fits(r, x, n),
        15 => lower_fits(r, x, n),
        _ => true,
    }
}

// Page B of the record.
fn fits_b(r: Record, x: Page) -> bool
    requires { (x.count ≤ room) × (r.count ≤ room) }
    ensures { result ≡ fits_b (kind_of r.kind) (rec r) (typed x) }
{
    let n = size_of(x);
    match r.kind {
        9 => is_free(x),
        12 => merge_b_fits(r, x, n),
        13 => redistribute_b_fits(r, x, n),
        15 => lower_b_fits(r, x, n),
        _ => true,
    }
}

// A page that has the part.
fn part_fits(r: Record, part: Role, x: Page) -> bool
    requires { (x.count ≤ room) × (r.count ≤ room) }
    ensures { result ≡ fits_role (rec r) (as_role (Some part)) (typed x) }
{
    match part {
        Role::A => fits_a(r, x),
        Role::B => fits_b(r, x),
        Role::C => is_free(x),
        Role::Map => map_fits(r, x),
    }
}

// Page p, judged by the record: whether the change starts from it.
pub fn fits(r: Record, p: usize, x: Page) -> bool
    requires { (x.count ≤ room) × (r.count ≤ room) }
    ensures { result ≡ fits p (rec r) (typed x) }
{
    match role_of(r, p) {
        None => true,
        Some(part) => part_fits(r, part, x),
    }
}
