// Left links (02, U5): judged along the leaves, and worked out anew.
#![tactic(auto)]

ghost use Rattle.std.specs.Prelude.{◌≡◌, true, List, ℕ};
ghost use Rattle.def_layout.specs.Pages as layout;
ghost use Rattle.def_model.specs.TreeRules.{first_child, tree_ok};
ghost use Rattle.def_model.specs.Links.{lefts_ok, relinked};
ghost use Rattle.law_bytes.specs.AreaSizes.{HasPages};
ghost use Rattle.law_bytes.specs.PageAreas.{pages_of, lefts_of};
ghost use Rattle.codec_page.specs.Typed.{typed};
ghost use Rattle.record_pages.specs.Pages.{Pages};
ghost use Rattle.tree_links.specs.Leaves.{first_leaf};

use codec_page::{Page, left_of, nth_page, right_of, set_left, size_of};

// The page that begins the level below.
fn first_child(x: Page) -> u32
    ensures { result ≡ first_child (typed x).entries }
{
    if size_of(x) == 0 {
        return 0;
    }
    let es = x.entries;
    es[0].val
}

// The first leaf, down from the root as many levels as the root says.
fn first_leaf(pages: &[u8], n: usize) -> usize
    requires { HasPages n pages.now }
    ensures { result ≡ first_leaf (pages_of n pages.now) }
{
    let root = nth_page(pages, n, 1);
    let mut p = 1;
    for _ in 0..root.level {
        p = first_child(nth_page(pages, n, p)) as usize;
    }
    p
}

// "Soundness now includes that left and right links agree."
pub fn lefts_ok(pages: &[u8], n: usize) -> bool
    requires { HasPages n pages.now }
    ensures { result ≡ lefts_ok (pages_of n pages.now) (lefts_of n pages.now) }
{
    let mut p = first_leaf(pages, n);
    let mut before = 0;
    for _ in 0..n {
        if p == 0 {
            break;
        }
        if left_of(pages, n, p) as usize != before {
            return false;
        }
        before = p;
        p = right_of(pages, n, p) as usize;
    }
    true
}

// The left links of the leaves of a tree, from left to right.
pub fn relink(pages: &mut [u8], n: usize)
    requires { HasPages n pages.old }
    ensures { (xs : List layout.Page) (ls : List ℕ) → Pages n pages.old xs ls → tree_ok xs ≡ true → Pages n pages.new xs (relinked xs ls) }
{
    let mut p = first_leaf(pages, n);
    let mut before: u32 = 0;
    for _ in 0..n {
        if p == 0 || p >= n {
            break;
        }
        let next = right_of(pages, n, p);
        set_left(pages, p, before);
        before = p as u32;
        p = next as usize;
    }
}
