// The rows of tree changes: split to lower, on page A and on page B. Tests are joined by `&`, in the order and the grouping of the definitions: by `&&` each
// would be an end of its own in every proof, and none of them costs more than the page that was read.
ghost use Rattle.std.specs.Prelude.{◌≡◌, ◌≤◌};
ghost use Rattle.def_layout.specs.Sizes.{room};
ghost use Rattle.def_layout.specs.Records.{split, link, unlink, merge, redistribute, raise, lower};
ghost use Rattle.def_model.specs.Change.{into_a};
ghost use Rattle.def_model.specs.Fit.{share_fits_a, share_fits_b, fits_a, fits_b};
ghost use Rattle.law_bytes.specs.EntryBytes.{used};
ghost use Rattle.codec_page.specs.Typed.{typed};
ghost use Rattle.record_apply.specs.Pages.{rec};

use super::entries::{
    ends_with, in_order, last_joined, last_key_is, link_fits, side_by_side, starts_with,
};
use super::pages::{above_level, at_level, children_in, has_room, is_index, is_node};
use codec_entries::{entry_in, same_list};
use codec_page::Page;
use def_layout::ROOM;
use record_apply::{Record, into_a};

pub fn split_fits(r: Record, x: Page, n: usize) -> bool
    requires { ((typed x).entries ≡ used n x.entries) × (n ≤ room) × (r.count ≤ room) }
    ensures { result ≡ fits_a split (rec r) (typed x) }
{
    let es = x.entries;
    let fs = r.entries;
    let m = r.count as usize;
    let k = n.saturating_sub(m);
    let level = at_level(x, r.level);
    let ends = ends_with(es, n, fs, m);
    let last = last_key_is(es, k, r.key);
    let tail = ends & (last & (x.right == r.right));
    level & ((n == ROOM) & tail)
}

pub fn link_row_fits(r: Record, x: Page, n: usize) -> bool
    requires { ((typed x).entries ≡ used n x.entries) × (n ≤ room) }
    ensures { result ≡ fits_a link (rec r) (typed x) }
{
    let es = x.entries;
    let index = is_index(x);
    let room = has_room(n, 1);
    let linked = link_fits(es, n, r.b, r.key, r.second);
    index & (room & linked)
}

pub fn unlink_fits(r: Record, x: Page, n: usize) -> bool
    requires { ((typed x).entries ≡ used n x.entries) × (n ≤ room) }
    ensures { result ≡ fits_a unlink (rec r) (typed x) }
{
    let es = x.entries;
    let index = is_index(x);
    index & side_by_side(es, n, r.b, r.key, r.c, r.second)
}

pub fn merge_fits(r: Record, x: Page, n: usize) -> bool
    requires { ((typed x).entries ≡ used n x.entries) × (n ≤ room) × (r.count ≤ room) }
    ensures { result ≡ fits_a merge (rec r) (typed x) }
{
    let es = x.entries;
    let fs = r.entries;
    let m = r.count as usize;
    let node = is_node(x);
    let room = has_room(n, m);
    let rising = in_order(es, n, fs, m);
    let children = children_in(x, fs, m);
    let tail = (x.right == r.b) & (rising & children);
    node & (room & tail)
}

pub fn merge_b_fits(r: Record, x: Page, n: usize) -> bool
    requires { ((typed x).entries ≡ used n x.entries) × (n ≤ room) × (r.count ≤ room) }
    ensures { result ≡ fits_b merge (rec r) (typed x) }
{
    let es = x.entries;
    let fs = r.entries;
    let m = r.count as usize;
    let node = is_node(x);
    let same = same_list(es, n, fs, m);
    node & (same & (x.right == r.right))
}

// A redistribution, on the page A that receives or gives.
fn share_a_fits(r: Record, x: Page, n: usize) -> bool
    requires { ((typed x).entries ≡ used n x.entries) × (n ≤ room) × (r.count ≤ room) }
    ensures { result ≡ share_fits_a (into_a (rec r)) (rec r) (typed x) }
{
    let es = x.entries;
    let fs = r.entries;
    let m = r.count as usize;
    if into_a(r) {
        let room = has_room(n, m);
        let last = last_joined(es, n, fs, m, r.key);
        let rising = in_order(es, n, fs, m);
        let tail = rising & children_in(x, fs, m);
        return room & (last & tail);
    }
    let k = n.saturating_sub(m);
    let ends = ends_with(es, n, fs, m);
    ends & last_key_is(es, k, r.key)
}

pub fn redistribute_fits(r: Record, x: Page, n: usize) -> bool
    requires { ((typed x).entries ≡ used n x.entries) × (n ≤ room) × (r.count ≤ room) }
    ensures { result ≡ fits_a redistribute (rec r) (typed x) }
{
    let node = is_node(x);
    let shared = share_a_fits(r, x, n);
    node & ((x.right == r.b) & shared)
}

// The same on page B.
fn share_b_fits(r: Record, x: Page, n: usize) -> bool
    requires { ((typed x).entries ≡ used n x.entries) × (n ≤ room) × (r.count ≤ room) }
    ensures { result ≡ share_fits_b (into_a (rec r)) (rec r) (typed x) }
{
    let es = x.entries;
    let fs = r.entries;
    let m = r.count as usize;
    if into_a(r) {
        return starts_with(es, n, fs, m);
    }
    let room = has_room(n, m);
    let rising = in_order(fs, m, es, n);
    room & (rising & children_in(x, fs, m))
}

pub fn redistribute_b_fits(r: Record, x: Page, n: usize) -> bool
    requires { ((typed x).entries ≡ used n x.entries) × (n ≤ room) × (r.count ≤ room) }
    ensures { result ≡ fits_b redistribute (rec r) (typed x) }
{
    let node = is_node(x);
    node & share_b_fits(r, x, n)
}

pub fn raise_fits(r: Record, x: Page, n: usize) -> bool
    requires { ((typed x).entries ≡ used n x.entries) × (n ≤ room) × (r.count ≤ room) }
    ensures { result ≡ fits_a raise (rec r) (typed x) }
{
    let es = x.entries;
    let fs = r.entries;
    let m = r.count as usize;
    let level = at_level(x, r.level);
    let same = same_list(es, n, fs, m);
    level & (same & ((x.right == r.b) & (r.level < 15)))
}

pub fn lower_fits(r: Record, x: Page, n: usize) -> bool
    requires { ((typed x).entries ≡ used n x.entries) × (n ≤ room) }
    ensures { result ≡ fits_a lower (rec r) (typed x) }
{
    let es = x.entries;
    let level = above_level(x, r.level);
    let child = entry_in(es, n, 0).val;
    level & ((n == 1) & ((child == r.b) & (x.right == 0)))
}

pub fn lower_b_fits(r: Record, x: Page, n: usize) -> bool
    requires { ((typed x).entries ≡ used n x.entries) × (n ≤ room) × (r.count ≤ room) }
    ensures { result ≡ fits_b lower (rec r) (typed x) }
{
    let es = x.entries;
    let fs = r.entries;
    let m = r.count as usize;
    let level = at_level(x, r.level);
    let same = same_list(es, n, fs, m);
    level & (same & (x.right == 0))
}
