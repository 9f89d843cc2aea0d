// The register's calls on lent areas of any lengths and any bytes. A call's type says which of the four areas it may change (docs/DESIGN.md),
// and its clause names each of them: so they stay four parameters.
#![tactic(auto)]

ghost use Rattle.std.specs.Prelude.{ℕ, MatchResult};
ghost use Rattle.def_model.specs.CallNames as calls;
ghost use Rattle.area_lengths.specs.Lent.{lent};
ghost use Rattle.call_reply.specs.Replies.{Replies, RepliesWhole};
ghost use Rattle.call_register.specs.Entered.{Entered, Barred};

use area_lengths::lengths_ok;
use call_finish::{abort_in, commit_in, mark_in, return_in, write_out_in};
use call_reply::{Reply, refused};
use call_restart::restart_within;
use call_slides::{begin_in, delete_in, fetch_in, insert_in, next_in, previous_in};
use call_start::{format_within, load_within};
use def_layout::{Desk, PAGE_SIZE, SLOT_SIZE};
use def_model::Refusal;
use sound_register::{Standing, standing_of};

// More stores than a call makes: a record for each of 16,384 slots and one more, and 896 pages.
const EVERY_STORE: usize = 20000;

// What a call finds first: how many pages and slots there are, and where the register stands.
#[derive(Clone, Copy)]
struct Entry {
    pages: usize,
    slots: usize,
    standing: Standing,
}

// Refusals 1, 2 and 11. A call that names no page names page 0, which every register has.
fn enter(wp: &[u8], sp: &[u8], wl: &[u8], sl: &[u8], d: Desk, p: u32) -> Result<Entry, Refusal>
    ensures { MatchResult result (Entered wp.now sp.now wl.now sl.now d p) (Barred wp.now sp.now wl.now sl.now d p) }
{
    if !lengths_ok(wp, sp, wl, sl) {
        return Err(Refusal::Lengths);
    }
    let pages = wp.len() / PAGE_SIZE;
    if p as usize >= pages {
        return Err(Refusal::PageNumber);
    }
    let slots = wl.len() / SLOT_SIZE;
    let Some(standing) = standing_of(wp, wl, sl, pages, slots, d) else {
        return Err(Refusal::Unsound);
    };
    Ok(Entry {
        pages,
        slots,
        standing,
    })
}

// A new batch.
pub fn begin(wp: &[u8], sp: &[u8], wl: &mut [u8], sl: &[u8], d: Desk) -> Reply
    ensures { (budget : ℕ) → Replies calls.begin (lent wp.now sp.now wl.old sl.now) d budget result (lent wp.now sp.now wl.new sl.now) }
{
    match enter(wp, sp, wl, sl, d, 0) {
        Ok(e) => begin_in(wl, e.slots, d, e.standing),
        Err(why) => refused(why, d),
    }
}

// A key's value.
pub fn fetch(wp: &[u8], sp: &[u8], wl: &[u8], sl: &[u8], d: Desk, b: u32, k: u32) -> Reply
    ensures { (budget : ℕ) → Replies (calls.fetch b k) (lent wp.now sp.now wl.now sl.now) d budget result (lent wp.now sp.now wl.now sl.now) }
{
    match enter(wp, sp, wl, sl, d, 0) {
        Ok(e) => fetch_in(wp, wl, e.pages, e.slots, d, b, k),
        Err(why) => refused(why, d),
    }
}

// The first record above a key.
pub fn next(wp: &[u8], sp: &[u8], wl: &[u8], sl: &[u8], d: Desk, b: u32, k: u32) -> Reply
    ensures { (budget : ℕ) → Replies (calls.next b k) (lent wp.now sp.now wl.now sl.now) d budget result (lent wp.now sp.now wl.now sl.now) }
{
    match enter(wp, sp, wl, sl, d, 0) {
        Ok(e) => next_in(wp, wl, e.pages, e.slots, d, b, k),
        Err(why) => refused(why, d),
    }
}

// The last record below a key.
pub fn previous(wp: &[u8], sp: &[u8], wl: &[u8], sl: &[u8], d: Desk, b: u32, k: u32) -> Reply
    ensures { (budget : ℕ) → Replies (calls.previous b k) (lent wp.now sp.now wl.now sl.now) d budget result (lent wp.now sp.now wl.now sl.now) }
{
    match enter(wp, sp, wl, sl, d, 0) {
        Ok(e) => previous_in(wp, wl, e.pages, e.slots, d, b, k),
        Err(why) => refused(why, d),
    }
}

// Refusals 1 and 7: key 0 is refused whatever the areas hold.
fn refuse_zero(wp: &[u8], sp: &[u8], wl: &[u8], sl: &[u8], d: Desk) -> Reply
    ensures { (b v budget : ℕ) → Replies (calls.insert b 0 v) (lent wp.now sp.now wl.now sl.now) d budget result (lent wp.now sp.now wl.now sl.now) }
{
    if !lengths_ok(wp, sp, wl, sl) {
        return refused(Refusal::Lengths, d);
    }
    refused(Refusal::ZeroKey, d)
}

// A slide is filed.
pub fn insert(
    wp: &mut [u8],
    sp: &[u8],
    wl: &mut [u8],
    sl: &[u8],
    d: Desk,
    b: u32,
    k: u32,
    v: u32,
) -> Reply
    ensures { (budget : ℕ) → Replies (calls.insert b k v) (lent wp.old sp.now wl.old sl.now) d budget result (lent wp.new sp.now wl.new sl.now) }
{
    if k == 0 {
        return refuse_zero(wp, sp, wl, sl, d);
    }
    match enter(wp, sp, wl, sl, d, 0) {
        Ok(e) => insert_in(wp, wl, e.pages, e.slots, d, e.standing, b, k, v),
        Err(why) => refused(why, d),
    }
}

// A slide is taken out.
pub fn delete(wp: &mut [u8], sp: &[u8], wl: &mut [u8], sl: &[u8], d: Desk, b: u32, k: u32) -> Reply
    ensures { (budget : ℕ) → Replies (calls.delete b k) (lent wp.old sp.now wl.old sl.now) d budget result (lent wp.new sp.now wl.new sl.now) }
{
    match enter(wp, sp, wl, sl, d, 0) {
        Ok(e) => delete_in(wp, wl, e.pages, e.slots, d, e.standing, b, k),
        Err(why) => refused(why, d),
    }
}

// A batch's slides stay: as many stores as the budget has.
pub fn commit_within(
    wp: &[u8],
    sp: &[u8],
    wl: &mut [u8],
    sl: &mut [u8],
    d: Desk,
    b: u32,
    budget: usize,
) -> Reply
    ensures { Replies (calls.commit b) (lent wp.now sp.now wl.old sl.old) d budget result (lent wp.now sp.now wl.new sl.new) }
{
    match enter(wp, sp, wl, sl, d, 0) {
        Ok(e) => commit_in(wl, sl, e.slots, d, e.standing, b, budget),
        Err(why) => refused(why, d),
    }
}

// A batch's slides go.
pub fn abort(wp: &mut [u8], sp: &[u8], wl: &mut [u8], sl: &[u8], d: Desk, b: u32) -> Reply
    ensures { (budget : ℕ) → Replies (calls.abort b) (lent wp.old sp.now wl.old sl.now) d budget result (lent wp.new sp.now wl.new sl.now) }
{
    match enter(wp, sp, wl, sl, d, 0) {
        Ok(e) => abort_in(wp, wl, e.pages, e.slots, d, e.standing, b),
        Err(why) => refused(why, d),
    }
}

// A batch's latest record.
pub fn mark(wp: &[u8], sp: &[u8], wl: &[u8], sl: &[u8], d: Desk, b: u32) -> Reply
    ensures { (budget : ℕ) → Replies (calls.take_mark b) (lent wp.now sp.now wl.now sl.now) d budget result (lent wp.now sp.now wl.now sl.now) }
{
    match enter(wp, sp, wl, sl, d, 0) {
        Ok(e) => mark_in(d, b),
        Err(why) => refused(why, d),
    }
}

// A batch's updates after a mark go.
pub fn return_to(
    wp: &mut [u8],
    sp: &[u8],
    wl: &mut [u8],
    sl: &[u8],
    d: Desk,
    b: u32,
    mark: u32,
) -> Reply
    ensures { (budget : ℕ) → Replies (calls.return_to b mark) (lent wp.old sp.now wl.old sl.now) d budget result (lent wp.new sp.now wl.new sl.now) }
{
    match enter(wp, sp, wl, sl, d, 0) {
        Ok(e) => return_in(wp, wl, e.pages, e.slots, d, b, mark),
        Err(why) => refused(why, d),
    }
}

// The log and then one page are stored: as many stores as the budget has.
pub fn write_out_within(
    wp: &[u8],
    sp: &mut [u8],
    wl: &[u8],
    sl: &mut [u8],
    d: Desk,
    p: u32,
    budget: usize,
) -> Reply
    ensures { Replies (calls.write_out p) (lent wp.now sp.old wl.now sl.old) d budget result (lent wp.now sp.new wl.now sl.new) }
{
    match enter(wp, sp, wl, sl, d, p) {
        Ok(e) => write_out_in(wp, sp, wl, sl, e.pages, e.slots, d, p, budget),
        Err(why) => refused(why, d),
    }
}

// ---- with all their stores

pub fn format(wp: &mut [u8], sp: &mut [u8], wl: &mut [u8], sl: &mut [u8], d: Desk) -> Reply
    ensures { RepliesWhole calls.format (lent wp.old sp.old wl.old sl.old) d result (lent wp.new sp.new wl.new sl.new) }
{
    format_within(wp, sp, wl, sl, d, EVERY_STORE)
}

pub fn load(
    wp: &mut [u8],
    sp: &mut [u8],
    wl: &mut [u8],
    sl: &mut [u8],
    d: Desk,
    keys: &[u32],
    values: &[u32],
) -> Reply
    ensures { RepliesWhole (calls.load keys.now values.now) (lent wp.old sp.old wl.old sl.old) d result (lent wp.new sp.new wl.new sl.new) }
{
    load_within(wp, sp, wl, sl, d, keys, values, EVERY_STORE)
}

pub fn commit(wp: &[u8], sp: &[u8], wl: &mut [u8], sl: &mut [u8], d: Desk, b: u32) -> Reply
    ensures { RepliesWhole (calls.commit b) (lent wp.now sp.now wl.old sl.old) d result (lent wp.now sp.now wl.new sl.new) }
{
    commit_within(wp, sp, wl, sl, d, b, EVERY_STORE)
}

pub fn write_out(wp: &[u8], sp: &mut [u8], wl: &[u8], sl: &mut [u8], d: Desk, p: u32) -> Reply
    ensures { RepliesWhole (calls.write_out p) (lent wp.now sp.old wl.now sl.old) d result (lent wp.now sp.new wl.now sl.new) }
{
    write_out_within(wp, sp, wl, sl, d, p, EVERY_STORE)
}

pub fn restart(wp: &mut [u8], sp: &[u8], wl: &mut [u8], sl: &mut [u8], d: Desk) -> Reply
    ensures { RepliesWhole calls.restart (lent wp.old sp.now wl.old sl.old) d result (lent wp.new sp.now wl.new sl.new) }
{
    restart_within(wp, sp, wl, sl, d, EVERY_STORE)
}
