// Refusal 1: whether the four lent areas have lengths that a register can have.
#![tactic(auto)]

ghost use Rattle.std.specs.Prelude.{◌≡◌, ◌&&◌, ◌%◌, ◌<◌, leb, eqb};
ghost use Rattle.def_model.specs.OnBytes.{lengths_ok};
ghost use Rattle.area_lengths.specs.Lent.{lent};

use def_layout::{LEAST_PAGES, LEAST_SLOTS, MOST_PAGES, MOST_SLOTS, PAGE_SIZE, SLOT_SIZE};

// The lengths of the areas, in bytes.
const SHORTEST_PAGES: usize = LEAST_PAGES * PAGE_SIZE;

const LONGEST_PAGES: usize = MOST_PAGES * PAGE_SIZE;

const SHORTEST_LOG: usize = LEAST_SLOTS * SLOT_SIZE;

const LONGEST_LOG: usize = MOST_SLOTS * SLOT_SIZE;

// A whole number of parts of `size` bytes, from `least` to `most` bytes.
fn measured(bytes: usize, size: usize, least: usize, most: usize) -> bool
    requires { 0 < size }
    ensures { result ≡ eqb (bytes % size) 0 && (leb least bytes && leb bytes most) }
{
    if bytes % size != 0 {
        return false;
    }
    if bytes < least {
        return false;
    }
    bytes <= most
}

// 01: "Pages are 128 bytes, 16 to 896 of them. Log slots are 144 bytes, 64 to 16,384."
pub fn lengths_ok(wp: &[u8], sp: &[u8], wl: &[u8], sl: &[u8]) -> bool
    ensures { result ≡ lengths_ok (lent wp.now sp.now wl.now sl.now) }
{
    if !measured(wp.len(), PAGE_SIZE, SHORTEST_PAGES, LONGEST_PAGES) {
        return false;
    }
    if sp.len() != wp.len() {
        return false;
    }
    if !measured(wl.len(), SLOT_SIZE, SHORTEST_LOG, LONGEST_LOG) {
        return false;
    }
    sl.len() == wl.len()
}
