// Pages of a lent area by number, and a record applied to the pages that it names: by live work, and by redo.
#![tactic(auto)]

ghost use Rattle.std.specs.Prelude.{List, ℕ, ◌≤◌, set};
ghost use Rattle.def_layout.specs.Sizes.{room};
ghost use Rattle.def_layout.specs.Pages as layout;
ghost use Rattle.law_bytes.specs.AreaSizes.{HasPages};
ghost use Rattle.codec_page.specs.Typed.{typed};
ghost use Rattle.law_bytes.specs.PageBytes.{Fits};
ghost use Rattle.def_base.specs.Tests.{pick};
ghost use Rattle.def_model.specs.Redo.{places, redo_page, redo_record, redo_left, redo_lefts};
ghost use Rattle.record_apply.specs.Pages.{rec};
ghost use Rattle.record_pages.specs.Pages.{Pages, Reads};
ghost use Rattle.record_pages.specs.Records.{Keeps};

use codec_page::{Page, nth_page, write_at};
use def_layout::page::PageKind;
use def_layout::{MOST_ENTRIES, PAGE_SIZE};
use record_apply::roles::parts_of;
use record_apply::{Record, apply};

// Page p of an area of n pages, its count that of its entries: the map has none, and no page more than 14.
pub fn page_at(pages: &[u8], n: usize, p: u32) -> Page
    requires { HasPages n pages.now }
    ensures { (result.count ≤ room) × ((xs : List layout.Page) (ls : List ℕ) → Pages n pages.now xs ls → Reads result (layout.at xs p)) }
{
    let x = nth_page(pages, n, p as usize);
    match x.kind {
        PageKind::Map => Page { count: 0, ..x },
        _ => Page {
            count: MOST_ENTRIES.min(x.count),
            ..x
        },
    }
}

// Page p anew; past the last page there is nothing to write.
pub fn put_page(pages: &mut [u8], n: usize, p: u32, x: Page)
    requires { HasPages n pages.old }
    ensures { (xs : List layout.Page) (ls : List ℕ) → Pages n pages.old xs ls → Fits (typed x) → Pages n pages.new (set xs p (typed x)) (set ls p 0) }
{
    let q = p as usize;
    if q < n {
        write_at(pages, PAGE_SIZE * q, x);
    }
}

// Record r, number k, at page p, where the page's number is lower.
fn redo_at(pages: &mut [u8], n: usize, r: Record, k: u32, p: u32)
    requires { HasPages n pages.old × (r.count ≤ room) }
    ensures { (xs : List layout.Page) (ls : List ℕ) → Pages n pages.old xs ls → Keeps k (rec r) → Pages n pages.new (redo_page k (rec r) p xs) (redo_left k p xs ls) }
{
    let x = page_at(pages, n, p);
    if x.lsn < k {
        let y = apply(r, k, p as usize, x);
        put_page(pages, n, p, y);
    }
}

// The same where the record has that part.
fn redo_part(pages: &mut [u8], n: usize, r: Record, k: u32, on: bool, p: u32)
    requires { HasPages n pages.old × (r.count ≤ room) }
    ensures { (xs : List layout.Page) (ls : List ℕ) → Pages n pages.old xs ls → Keeps k (rec r) → Pages n pages.new (pick on (redo_page k (rec r) p xs) xs) (pick on (redo_left k p xs ls) ls) }
{
    if on {
        redo_at(pages, n, r, k, p);
    }
}

// Record r, number k, at the pages that it changes: A, then B or C, then the map.
pub fn redo_record(pages: &mut [u8], n: usize, r: Record, k: u32)
    requires { HasPages n pages.old × (r.count ≤ room) }
    ensures { (xs : List layout.Page) (ls : List ℕ) → Pages n pages.old xs ls → Keeps k (rec r) → Pages n pages.new (redo_record k (rec r) xs) (redo_lefts k (rec r) (places (rec r)) xs ls) }
{
    let parts = parts_of(r.kind);
    redo_part(pages, n, r, k, parts.a, r.a);
    redo_part(pages, n, r, k, parts.b, r.b);
    redo_part(pages, n, r, k, parts.c, r.c);
    redo_part(pages, n, r, k, parts.map, 0);
}
