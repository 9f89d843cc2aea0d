// "Sound means ..", judged on the lent bytes, and what a call then knows of the register.
#![tactic(auto)]

ghost use Rattle.std.specs.Prelude.{◌≡◌, ◌≤◌};
ghost use Rattle.def_layout.specs.Sizes.{most_slots};
ghost use Rattle.law_bytes.specs.AreaSizes.{HasPages, HasSlots, HasAreas};
ghost use Rattle.law_bytes.specs.DeskRows.{LowRows};
ghost use Rattle.log_judge.specs.Accepted.{total};
ghost use Rattle.law_bytes.specs.PageAreas.{pages_of, lefts_of};
ghost use Rattle.sound_register.specs.Reserved.{Reserved};
ghost use Rattle.sound_register.specs.Standing.{Stands, linked_ok};

use codec_desk::used_rows;
use def_layout::Desk;
use log_judge::{judge_log, pending_total};
use sound_parts::{desk_is, free_pages, layouts_ok, numbers_ok, reserves_ok, stored_ok};
use sound_pending::pending_ok;
use tree_check::tree_ok;
use tree_links::lefts_ok;

// What a call knows of a sound register beside its desk: which of the desk's batches have their abort mark, how many updates are pending, and how
// many pages are free.
#[derive(Clone, Copy)]
pub struct Standing {
    pub marked: [bool; 8],
    pub pending: u32,
    pub free: usize,
}

// The reserves of a register of n pages and m slots, by what its desk counts.
fn reserved(wp: &[u8], n: usize, m: usize, d: Desk, marked: [bool; 8]) -> Option<Standing>
    requires { HasPages n wp.now × (d.logged ≤ most_slots) × LowRows d.rows × (total d.rows ≤ most_slots) }
    ensures { Reserved m (pages_of n wp.now) d marked result }
{
    let rows = d.rows;
    let pending = pending_total(rows);
    let free = free_pages(wp, n);
    let batches = used_rows(rows);
    if !reserves_ok(m, free, d.logged as usize, pending as usize, batches) {
        return None; // too few slots or free pages
    }
    Some(Standing {
        marked,
        pending,
        free,
    })
}

// The rules of the tree, and that left and right links agree.
fn linked_ok(wp: &[u8], n: usize) -> bool
    requires { HasPages n wp.now }
    ensures { result ≡ linked_ok (pages_of n wp.now) (lefts_of n wp.now) }
{
    if !tree_ok(wp, n) {
        return false;
    }
    lefts_ok(wp, n)
}

// What is known of a register of n pages and m slots and its desk, if they are sound. The reserves stand before the pending rule: they bound
// the lines that it compares.
pub fn standing_of(wp: &[u8], wl: &[u8], sl: &[u8], n: usize, m: usize, d: Desk) -> Option<Standing>
    requires { HasAreas n m wp.now wl.now × HasSlots m sl.now }
    ensures { Stands n m wp.now wl.now sl.now d result }
{
    if !layouts_ok(wp, n, true) {
        return None;
    }
    let j = judge_log(wl, m, n)?;
    let rows = j.batches.rows;
    if !desk_is(d, rows, j.logged) {
        return None;
    }
    if !numbers_ok(wp, n, j.logged) {
        return None;
    }
    if !stored_ok(wl, sl, m, j.logged, d.stored) {
        return None;
    }
    if !linked_ok(wp, n) {
        return None;
    }
    let s = reserved(wp, n, m, d, j.batches.marked)?;
    if !pending_ok(wp, n, wl, m, rows) {
        return None;
    }
    Some(s)
}
