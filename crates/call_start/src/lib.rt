// Formatting and loading, on lent areas of any lengths and any bytes.
#![tactic(auto)]

ghost use Rattle.std.specs.Prelude.{◌≡◌, true, [], ◌/◌, ◌≤◌, ◌<◌, length};
ghost use Rattle.def_layout.specs.Pages.{map_bits};
ghost use Rattle.def_layout.specs.Sizes.{page_size};
ghost use Rattle.def_model.specs.Loading.{columns, keys_rise, loaded_count};
ghost use Rattle.def_model.specs.CallNames as calls;
ghost use Rattle.area_lengths.specs.Lent.{Sized, lent};
ghost use Rattle.area_load.specs.Columns.{Columns};
ghost use Rattle.area_format.specs.Call.{Linked};
ghost use Rattle.call_reply.specs.Replies.{Replies};
ghost use Rattle.call_start.specs.Refusals.{Judges};

use area_format::{format, load};
use area_lengths::lengths_ok;
use area_load::tree_fits;
use call_reply::{Reply, refused};
use codec_desk::idle_desk;
use def_layout::{Desk, PAGE_SIZE};
use def_model::{Answer, Refusal};
use tree_links::relink;

// A register without slides, stored; then the left links of its working pages.
fn start_empty(wp: &mut [u8], sp: &mut [u8], wl: &mut [u8], sl: &mut [u8], budget: usize)
    requires { Sized wp.old sp.old wl.old sl.old }
    ensures { Linked [] budget (lent wp.old sp.old wl.old sl.old) (lent wp.new sp.new wl.new sl.new) }
{
    format(wp, sp, wl, sl, budget);
    relink(wp, wp.len() / PAGE_SIZE);
}

// The same of a register with the columns' records.
fn start_loaded(
    wp: &mut [u8],
    sp: &mut [u8],
    wl: &mut [u8],
    sl: &mut [u8],
    keys: &[u32],
    values: &[u32],
    budget: usize,
)
    requires { Sized wp.old sp.old wl.old sl.old × Columns keys.now values.now × (loaded_count (length keys.now) < length wp.old / page_size) × (keys_rise 0 keys.now ≡ true) }
    ensures { Linked (columns keys.now values.now) budget (lent wp.old sp.old wl.old sl.old) (lent wp.new sp.new wl.new sl.new) }
{
    load(wp, sp, wl, sl, keys, values, budget);
    relink(wp, wp.len() / PAGE_SIZE);
}

// "Format empties all four areas to a map and an empty root leaf": as many stores as the budget has.
pub fn format_within(
    wp: &mut [u8],
    sp: &mut [u8],
    wl: &mut [u8],
    sl: &mut [u8],
    d: Desk,
    budget: usize,
) -> Reply
    ensures { Replies calls.format (lent wp.old sp.old wl.old sl.old) d budget result (lent wp.new sp.new wl.new sl.new) }
{
    let emptied = idle_desk(0);
    if !lengths_ok(wp, sp, wl, sl) {
        return refused(Refusal::Lengths, emptied);
    }
    start_empty(wp, sp, wl, sl, budget);
    Reply {
        answer: Answer::Done,
        desk: emptied,
    }
}

// Whether each key is above the one before.
fn rising(keys: &[u32]) -> bool
    ensures { result ≡ keys_rise 0 keys.now }
{
    keys.is_sorted_by(|a, b| *a < *b)
}

// Refusals 8, 7, 9 and 18, in this order.
fn judged(keys: &[u32], values: &[u32], pages: usize) -> Result<(), Refusal>
    requires { pages ≤ map_bits }
    ensures { Judges keys.now values.now pages result }
{
    if keys.len() != values.len() {
        return Err(Refusal::ColumnsDiffer);
    }
    if keys.contains(&0) {
        return Err(Refusal::ZeroKey);
    }
    if !rising(keys) {
        return Err(Refusal::NotRising);
    }
    if !tree_fits(keys.len(), pages) {
        return Err(Refusal::PagesShort);
    }
    Ok(())
}

// A register of the columns' records: as many stores as the budget has.
pub fn load_within(
    wp: &mut [u8],
    sp: &mut [u8],
    wl: &mut [u8],
    sl: &mut [u8],
    d: Desk,
    keys: &[u32],
    values: &[u32],
    budget: usize,
) -> Reply
    ensures { Replies (calls.load keys.now values.now) (lent wp.old sp.old wl.old sl.old) d budget result (lent wp.new sp.new wl.new sl.new) }
{
    let desk = idle_desk(0);
    if !lengths_ok(wp, sp, wl, sl) {
        return refused(Refusal::Lengths, desk);
    }
    if let Err(why) = judged(keys, values, wp.len() / PAGE_SIZE) {
        return refused(why, desk);
    }
    start_loaded(wp, sp, wl, sl, keys, values, budget);
    Reply {
        answer: Answer::Done,
        desk,
    }
}
