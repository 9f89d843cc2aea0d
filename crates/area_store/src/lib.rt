// Stores: working pages and slots copied to the stable areas, one store a step, while a budget of stores lasts.
//
// 01: "a call's stores are a run of one-store steps with a budget". A call names its list of stores; `store_one` makes one store of a list
// and no other, once those before it are made; `store_first` is the only loop over it.
#![tactic(auto)]

ghost use Rattle.std.specs.Prelude.{◌≡◌, List, ◌+◌, ◌*◌, ◌≤◌, ◌<◌, min, length};
ghost use Rattle.def_layout.specs.Sizes.{slot_size, most_slots};
ghost use Rattle.def_model.specs.Areas.{Store};
ghost use Rattle.def_model.specs.OnBytes.{store_bytes};
ghost use Rattle.area_lengths.specs.Lent.{lent};
ghost use Rattle.area_store.specs.Lists.{span_place, place, count, Fits, Lists, kth, Leads, Made};
ghost use Rattle.area_store.specs.Beside.{SlotsLeft};

use codec_bytes::copy_part;
use codec_page::store_at;
use def_layout::{PAGE_SIZE, SLOT_SIZE};

// What a span is of: the pages, or the log's slots.
#[derive(Clone, Copy)]
pub enum Area {
    Pages,
    Slots,
}

// Pages in a row, or slots: `count` of them from place `from` on, the first of an area being at place 0.
#[derive(Clone, Copy)]
pub struct Span {
    pub area: Area,
    pub from: usize,
    pub count: usize,
}

// A call's list of stores: those of one span in order, then those of another.
#[derive(Clone, Copy)]
pub struct Stores {
    pub first: Span,
    pub rest: Span,
}

// Where a store goes: to a page, or to a slot.
#[derive(Clone, Copy)]
pub enum Place {
    Page(usize),
    Slot(usize),
}

// Where the k-th store of a span goes, the first being the 0-th.
fn place_in(s: Span, k: usize) -> Place
    requires { (k < s.count) × (s.from + s.count ≤ most_slots) }
    ensures { result ≡ span_place s k }
{
    match s.area {
        Area::Pages => Place::Page(s.from + k),
        Area::Slots => Place::Slot(s.from + k),
    }
}

// Where the k-th store of a list goes: in the first span while that lasts, then in the other.
fn place_of(s: Stores, k: usize) -> Place
    requires { (k < count s) × (s.first.from + s.first.count ≤ most_slots) × (s.rest.from + s.rest.count ≤ most_slots) }
    ensures { result ≡ place s k }
{
    let first = s.first;
    if k < first.count {
        return place_in(first, k);
    }
    let rest = s.rest;
    place_in(rest, k - first.count)
}

// ONE STORE: the k-th of a list and no other, where the first k are made.
fn store_one(sp: &mut [u8], sl: &mut [u8], wp: &[u8], wl: &[u8], s: Stores, k: usize)
    requires { (k < count s) × Fits s wp.now sp.old wl.now sl.old × Made s k wp.now sp.old wl.now sl.old }
    ensures { (ts : List Store) → Lists wp.now wl.now s ts → lent wp.now sp.new wl.now sl.new ≡ store_bytes (kth ts k) (lent wp.now sp.old wl.now sl.old) }
{
    let at = place_of(s, k);
    match at {
        Place::Page(p) => {
            let a = PAGE_SIZE * p;
            store_at(sp, wp, a);
        }
        Place::Slot(i) => {
            let a = SLOT_SIZE * i;
            copy_part(sl, a, wl, a, SLOT_SIZE);
        }
    }
}

// THE FIRST STORES of a list, in order: as many as the budget lasts for.
pub fn store_first(sp: &mut [u8], sl: &mut [u8], wp: &[u8], wl: &[u8], s: Stores, budget: usize)
    requires { Fits s wp.now sp.old wl.now sl.old }
    ensures { Leads s budget wp.now wl.now (lent wp.now sp.old wl.now sl.old) (lent wp.now sp.new wl.now sl.new) }
{
    let n = budget.min(s.first.count + s.rest.count);
    for k in 0..n {
        store_one(sp, sl, wp, wl, s, k);
    }
}

// Of a call that stores no page: the slots from `from` up to `to`. It lends no pages.
pub fn store_slots(sl: &mut [u8], wl: &[u8], from: usize, to: usize, budget: usize)
    requires { (from ≤ to) × (to ≤ most_slots) × (slot_size * to ≤ length sl.old) × (slot_size * to ≤ length wl.now) }
    ensures { SlotsLeft from to budget wl.now sl.old sl.new }
{
    let mut stable = [0u8; 0];
    let work = [0u8; 0];
    let slots = Span {
        area: Area::Slots,
        from,
        count: to - from,
    };
    let none = Span {
        area: Area::Pages,
        from: 0,
        count: 0,
    };
    let list = Stores {
        first: slots,
        rest: none,
    };
    store_first(&mut stable, sl, &work, wl, list, budget);
}
