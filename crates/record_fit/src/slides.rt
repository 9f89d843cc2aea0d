// The rows of slides: insert, delete, and the undo of each.
ghost use Rattle.std.specs.Prelude.{◌≡◌, ◌≤◌};
ghost use Rattle.def_layout.specs.Sizes.{room};
ghost use Rattle.def_layout.specs.Records.{insert, delete, undo_insert, undo_delete};
ghost use Rattle.def_model.specs.Fit.{fits_a};
ghost use Rattle.law_bytes.specs.EntryBytes.{used};
ghost use Rattle.codec_page.specs.Typed.{typed};
ghost use Rattle.record_apply.specs.Pages.{rec};

use super::entries::{has_entry, has_key, nowhere};
use super::pages::{has_room, is_leaf};
use codec_page::Page;
use record_apply::Record;

// Insert, and a delete undone.
pub fn insert_fits(r: Record, x: Page, n: usize) -> bool
    requires { ((typed x).entries ≡ used n x.entries) × (n ≤ room) }
    ensures { (result ≡ fits_a insert (rec r) (typed x)) × (result ≡ fits_a undo_delete (rec r) (typed x)) }
{
    let es = x.entries;
    let leaf = is_leaf(x);
    let room = has_room(n, 1);
    let new = nowhere(es, n, r.key);
    leaf & (room & new)
}

pub fn delete_fits(r: Record, x: Page, n: usize) -> bool
    requires { ((typed x).entries ≡ used n x.entries) × (n ≤ room) }
    ensures { result ≡ fits_a delete (rec r) (typed x) }
{
    let es = x.entries;
    let leaf = is_leaf(x);
    leaf & has_entry(es, n, r.key, r.second)
}

pub fn undo_insert_fits(r: Record, x: Page, n: usize) -> bool
    requires { ((typed x).entries ≡ used n x.entries) × (n ≤ room) }
    ensures { result ≡ fits_a undo_insert (rec r) (typed x) }
{
    let es = x.entries;
    let leaf = is_leaf(x);
    leaf & has_key(es, n, r.key)
}
