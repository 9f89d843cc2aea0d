// The calls on the lent areas of a sound register: begin, fetch, next, previous, insert and delete.
#![tactic(auto)]

ghost use Rattle.std.specs.Prelude.{◌≡◌, ◌≢◌, List, ℕ, ◌+◌, ◌≤◌, ◌<◌, set, IfOk, MatchOption};
ghost use Rattle.def_layout.specs.Sizes.{most_slots};
ghost use Rattle.def_layout.specs.Desks.{row_at};
ghost use Rattle.def_model.specs.CallNames as calls;
ghost use Rattle.law_bytes.specs.AreaSizes.{HasSlots, HasAreas};
ghost use Rattle.law_bytes.specs.DeskRows.{LowRows};
ghost use Rattle.area_lengths.specs.Lent.{lent};
ghost use Rattle.call_reply.specs.Replies.{Replies};
ghost use Rattle.call_slides.specs.Given.{Given, open_place, Live, NotLive};
ghost use Rattle.call_slides.specs.Changes.{Bars};
ghost use Rattle.call_slides.specs.Questions.{Tells};

use call_reply::{Reply, refused};
use codec_desk::{new_row, row_place, used_rows};
use def_layout::{Desk, Entry, Row};
use def_model::{Answer, Refusal};
use sound_parts::{begin_has_slots, update_has_pages, update_has_slots};
use sound_pending::{held, held_between, held_from};
use sound_register::Standing;
use tree_add::put_record;
use tree_links::relink;
use tree_lookup::{fetched, next_above, previous_below};
use tree_remove::remove_record;
use tree_write::{Run, note};

// The place of an open batch's row. Batch 0 is never open.
pub fn open_row(d: Desk, b: u32) -> Option<usize>
    ensures { MatchOption result (open_place b d.rows ≡ 8) (λ i. (i ≡ open_place b d.rows) × (i < 8)) }
{
    if b == 0 {
        return None;
    }
    row_place(d.rows, b)
}

// The same of a batch that has no abort mark.
pub fn live_row(d: Desk, marked: [bool; 8], b: u32) -> Option<usize>
    ensures { MatchOption result (NotLive d.rows marked b) (Live d.rows marked b) }
{
    let i = open_row(d, b)?;
    if marked[i] {
        return None;
    }
    Some(i)
}

// "Begin answers the new batch number."
pub fn begin_in(wl: &mut [u8], m: usize, d: Desk, st: Standing) -> Reply
    requires { HasSlots m wl.old × (d.logged ≤ m) × (st.pending ≤ most_slots) }
    ensures { (n budget : ℕ) (wp sp sl : List ℕ) → Given n m wp sp wl.old sl d st
        → Replies calls.begin (lent wp sp wl.old sl) d budget result (lent wp sp wl.new sl) }
{
    let i = used_rows(d.rows);
    if i == 8 {
        return refused(Refusal::EightOpen, d);
    }
    if !begin_has_slots(m, d.logged as usize, st.pending as usize, i) {
        return refused(Refusal::SlotsShort, d);
    }
    let b = d.logged + 1;
    let t = Run::at(d.logged);
    let u = note(wl, m, t, 1, b, 0);
    let desk = d.with_row(i, new_row(b));
    Reply {
        answer: Answer::Number(b),
        desk: desk.with_logged(u.logged),
    }
}

// "Fetch answers a key's value."
pub fn fetch_in(wp: &[u8], wl: &[u8], n: usize, m: usize, d: Desk, b: u32, k: u32) -> Reply
    requires { HasAreas n m wp.now wl.now }
    ensures { (budget : ℕ) (sp sl : List ℕ) (st : Standing) → Given n m wp.now sp wl.now sl d st
        → Replies (calls.fetch b k) (lent wp.now sp wl.now sl) d budget result (lent wp.now sp wl.now sl) }
{
    if open_row(d, b).is_none() {
        return refused(Refusal::NoBatch, d);
    }
    if held(wl, m, d, b, k) {
        return refused(Refusal::Held, d);
    }
    match fetched(wp, n, k) {
        Some(v) => Reply {
            answer: Answer::Number(v),
            desk: d,
        },
        None => refused(Refusal::Absent, d),
    }
}

// The key that a next or a previous found, or this one. By `map_or` the callers' proofs did not see the closure's answer.
fn key_or(found: Option<Entry>, none: u32) -> u32
    ensures { MatchOption found (result ≡ none) (λ e. result ≡ e.key) }
{
    match found {
        Some(e) => e.key,
        None => none,
    }
}

// The reply of a next or a previous.
fn pair_or_absent(found: Option<Entry>, d: Desk) -> Reply
    ensures desk { result.desk ≡ d }
    ensures answer { Tells found result }
{
    match found {
        Some(e) => Reply {
            answer: Answer::Pair(e.key, e.val),
            desk: d,
        },
        None => refused(Refusal::Absent, d),
    }
}

// "Next answers the first record above a key."
pub fn next_in(wp: &[u8], wl: &[u8], n: usize, m: usize, d: Desk, b: u32, k: u32) -> Reply
    requires { HasAreas n m wp.now wl.now }
    ensures { (budget : ℕ) (sp sl : List ℕ) (st : Standing) → Given n m wp.now sp wl.now sl d st
        → Replies (calls.next b k) (lent wp.now sp wl.now sl) d budget result (lent wp.now sp wl.now sl) }
{
    if open_row(d, b).is_none() {
        return refused(Refusal::NoBatch, d);
    }
    let above = next_above(wp, n, k);
    let limit = key_or(above, u32::MAX);
    if held_between(wl, m, d, b, k, limit) {
        return refused(Refusal::Held, d);
    }
    pair_or_absent(above, d)
}

// 02, U5: "previous", the mirror of next, with the same rule on held keys.
pub fn previous_in(wp: &[u8], wl: &[u8], n: usize, m: usize, d: Desk, b: u32, k: u32) -> Reply
    requires { HasAreas n m wp.now wl.now }
    ensures { (budget : ℕ) (sp sl : List ℕ) (st : Standing) → Given n m wp.now sp wl.now sl d st
        → Replies (calls.previous b k) (lent wp.now sp wl.now sl) d budget result (lent wp.now sp wl.now sl) }
{
    if open_row(d, b).is_none() {
        return refused(Refusal::NoBatch, d);
    }
    let below = previous_below(wp, n, k);
    let limit = key_or(below, 0);
    if held_from(wl, m, d, b, limit, k) {
        return refused(Refusal::Held, d);
    }
    pair_or_absent(below, d)
}

// The desk after an update of batch b, in row i, whose record is number `logged`.
fn updated(d: Desk, i: usize, b: u32, logged: u32) -> Desk
    requires { (i < 8) × ((row_at d.rows i).pending ≤ most_slots) }
    ensures { result ≡ record { rows = set d.rows i (record { batch = b; last = logged; undo = logged; pending = (row_at d.rows i).pending + 1 }); logged = logged; stored = d.stored } }
{
    let new = Row {
        batch: b,
        last: logged,
        undo: logged,
        pending: d.rows[i].pending + 1,
    };
    d.with_row(i, new).with_logged(logged)
}

// The checks of an insert and of a delete, which differ in the key's: whether it is `wrong`, and what that `says`. The place of the batch's row, if none refuses.
fn update_row(
    wl: &[u8],
    m: usize,
    d: Desk,
    st: Standing,
    b: u32,
    k: u32,
    wrong: bool,
    says: Refusal,
) -> Result<usize, Refusal>
    requires { HasSlots m wl.now × (d.logged ≤ m) × (st.pending ≤ most_slots) }
    ensures low { IfOk result (λ i. i < 8) }
    ensures bars { (n : ℕ) (wp sp sl : List ℕ) → Given n m wp sp wl.now sl d st → Bars d (lent wp sp wl.now sl) b k wrong says result }
{
    let row = live_row(d, st.marked, b).ok_or(Refusal::NoBatch)?;
    if held(wl, m, d, b, k) {
        return Err(Refusal::Held);
    }
    if wrong {
        return Err(says);
    }
    let open = used_rows(d.rows);
    if !update_has_slots(m, d.logged as usize, st.pending as usize, open) {
        return Err(Refusal::SlotsShort);
    }
    if !update_has_pages(st.free, st.pending as usize) {
        return Err(Refusal::PagesShort);
    }
    Ok(row)
}

// A slide is filed.
pub fn insert_in(
    wp: &mut [u8],
    wl: &mut [u8],
    n: usize,
    m: usize,
    d: Desk,
    st: Standing,
    b: u32,
    k: u32,
    v: u32,
) -> Reply
    requires { HasAreas n m wp.old wl.old × (d.logged ≤ m) × (st.pending ≤ most_slots) × LowRows d.rows × (k ≢ 0) }
    ensures { (budget : ℕ) (sp sl : List ℕ) → Given n m wp.old sp wl.old sl d st
        → Replies (calls.insert b k v) (lent wp.old sp wl.old sl) d budget result (lent wp.new sp wl.new sl) }
{
    let f = fetched(wp, n, k);
    let i = match update_row(wl, m, d, st, b, k, f.is_some(), Refusal::Present) {
        Ok(i) => i,
        Err(why) => return refused(why, d),
    };
    let t = Run::at(d.logged);
    let last = d.rows[i].last;
    let u = put_record(wp, wl, n, m, t, 2, b, last, k, v);
    relink(wp, n);
    Reply {
        answer: Answer::Done,
        desk: updated(d, i, b, u.logged),
    }
}

// A slide is taken out.
pub fn delete_in(
    wp: &mut [u8],
    wl: &mut [u8],
    n: usize,
    m: usize,
    d: Desk,
    st: Standing,
    b: u32,
    k: u32,
) -> Reply
    requires { HasAreas n m wp.old wl.old × (d.logged ≤ m) × (st.pending ≤ most_slots) × LowRows d.rows }
    ensures { (budget : ℕ) (sp sl : List ℕ) → Given n m wp.old sp wl.old sl d st
        → Replies (calls.delete b k) (lent wp.old sp wl.old sl) d budget result (lent wp.new sp wl.new sl) }
{
    let f = fetched(wp, n, k);
    let i = match update_row(wl, m, d, st, b, k, f.is_none(), Refusal::Absent) {
        Ok(i) => i,
        Err(why) => return refused(why, d),
    };
    let t = Run::at(d.logged);
    let last = d.rows[i].last;
    let u = remove_record(wp, wl, n, m, t, 3, b, last, k, f.unwrap_or(0));
    relink(wp, n);
    Reply {
        answer: Answer::Done,
        desk: updated(d, i, b, u.logged),
    }
}
