// Tests on a page as a whole: its kind, its level, its room, and what may stand in it.
ghost use Rattle.std.specs.Prelude.{◌≡◌, suc, ◌+◌, ◌≤◌, eqb, leb};
ghost use Rattle.def_layout.specs.Sizes.{room};
ghost use Rattle.def_layout.specs.Pages.{kind_is};
ghost use Rattle.def_layout.specs.declared.page.PageKind.TheVariants.{Free};
ghost use Rattle.def_model.specs.Fit.{is_leaf, is_index, is_node, at_level, children_in};
ghost use Rattle.law_bytes.specs.EntryBytes.{used};
ghost use Rattle.codec_page.specs.Typed.{typed};

use codec_entries::children_fit;
use codec_page::Page;
use def_layout::page::PageKind;
use def_layout::{Entry, ROOM};

pub fn is_leaf(x: Page) -> bool
    ensures { result ≡ is_leaf (typed x) }
{
    x.kind == PageKind::Leaf
}

pub fn is_index(x: Page) -> bool
    ensures { result ≡ is_index (typed x) }
{
    x.kind == PageKind::Index
}

pub fn is_free(x: Page) -> bool
    ensures { result ≡ kind_is (typed x).kind Free }
{
    x.kind == PageKind::Free
}

pub fn is_node(x: Page) -> bool
    ensures { result ≡ is_node (typed x) }
{
    if is_leaf(x) {
        return true;
    }
    is_index(x)
}

pub fn at_level(x: Page, level: u32) -> bool
    ensures { result ≡ at_level level (typed x) }
{
    let same = x.kind == PageKind::at_level(level);
    same & (x.level == level)
}

fn is_next(a: u32, level: u32) -> bool
    ensures { result ≡ eqb a (suc level) }
{
    if a == 0 {
        return false;
    }
    a - 1 == level
}

// One level up.
pub fn above_level(x: Page, level: u32) -> bool
    ensures { result ≡ at_level (suc level) (typed x) }
{
    let index = is_index(x);
    index & is_next(x.level, level)
}

pub fn has_room(n: usize, m: usize) -> bool
    requires { (n ≤ room) × (m ≤ room) }
    ensures { result ≡ leb (n + m) 14 }
{
    n + m <= ROOM
}

// In an index the entries have nothing above the child's ten bits.
pub fn children_in(x: Page, fs: [Entry; ROOM], m: usize) -> bool
    requires { m ≤ room }
    ensures { result ≡ children_in (typed x) (used m fs) }
{
    if is_leaf(x) {
        return true;
    }
    children_fit(fs, m)
}
