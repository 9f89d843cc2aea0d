// The calls that end a batch, take some of it back, or store: commit, abort, mark, return and write-out.
#![tactic(auto)]

ghost use Rattle.std.specs.Prelude.{List, ℕ, ◌≤◌, ◌<◌};
ghost use Rattle.def_model.specs.CallNames as calls;
ghost use Rattle.law_bytes.specs.AreaSizes.{HasSlots, HasAreas};
ghost use Rattle.area_lengths.specs.Lent.{lent};
ghost use Rattle.call_reply.specs.Replies.{Replies};
ghost use Rattle.call_slides.specs.Given.{Given};

use area_store::{Area, Span, Stores, store_first, store_slots};
use call_reply::{Reply, refused};
use call_slides::{live_row, open_row};
use call_undo::{abort_run, undo_above};
use codec_desk::closed;
use def_layout::Desk;
use def_model::{Answer, Refusal};
use log_pending::is_record_of;
use sound_register::Standing;
use tree_links::relink;
use tree_write::{Run, note};

// "Commit logs and then stores every unstored record, in order": as many stores as the budget has.
pub fn commit_in(
    wl: &mut [u8],
    sl: &mut [u8],
    m: usize,
    d: Desk,
    st: Standing,
    b: u32,
    budget: usize,
) -> Reply
    requires { HasSlots m wl.old × HasSlots m sl.old × (d.stored ≤ d.logged) × (d.logged ≤ m) }
    ensures { (n : ℕ) (wp sp : List ℕ) → Given n m wp sp wl.old sl.old d st
        → Replies (calls.commit b) (lent wp sp wl.old sl.old) d budget result (lent wp sp wl.new sl.new) }
{
    let Some(i) = live_row(d, st.marked, b) else {
        return refused(Refusal::NoBatch, d);
    };
    let t = Run::at(d.logged);
    let u = note(wl, m, t, 6, b, d.rows[i].last);
    store_slots(sl, wl, d.stored as usize, u.logged as usize, budget);
    let desk = d.with_rows(closed(d.rows, i));
    Reply {
        answer: Answer::Done,
        desk: desk.with_logged(u.logged).with_stored(u.logged),
    }
}

// "Abort writes a 7, undoes newest first, always from the root, then writes an 8."
pub fn abort_in(
    wp: &mut [u8],
    wl: &mut [u8],
    n: usize,
    m: usize,
    d: Desk,
    st: Standing,
    b: u32,
) -> Reply
    requires { HasAreas n m wp.old wl.old }
    ensures { (budget : ℕ) (sp sl : List ℕ) → Given n m wp.old sp wl.old sl d st
        → Replies (calls.abort b) (lent wp.old sp wl.old sl) d budget result (lent wp.new sp wl.new sl) }
{
    let Some(i) = live_row(d, st.marked, b) else {
        return refused(Refusal::NoBatch, d);
    };
    let t = Run::at(d.logged);
    let u = abort_run(wp, wl, n, m, t, d.rows[i]);
    relink(wp, n);
    let desk = d.with_rows(closed(d.rows, i));
    Reply {
        answer: Answer::Done,
        desk: desk.with_logged(u.logged),
    }
}

// 02, U2: "ask for the number of its latest log record as a mark".
pub fn mark_in(d: Desk, b: u32) -> Reply
    ensures { (n m budget : ℕ) (wp sp wl sl : List ℕ) (st : Standing) → Given n m wp sp wl sl d st
        → Replies (calls.take_mark b) (lent wp sp wl sl) d budget result (lent wp sp wl sl) }
{
    let Some(i) = open_row(d, b) else {
        return refused(Refusal::NoBatch, d);
    };
    Reply {
        answer: Answer::Number(d.rows[i].last),
        desk: d,
    }
}

// "and later undo every pending update it made after that mark while staying open".
pub fn return_in(
    wp: &mut [u8],
    wl: &mut [u8],
    n: usize,
    m: usize,
    d: Desk,
    b: u32,
    mark: u32,
) -> Reply
    requires { HasAreas n m wp.old wl.old }
    ensures { (budget : ℕ) (sp sl : List ℕ) (st : Standing) → Given n m wp.old sp wl.old sl d st
        → Replies (calls.return_to b mark) (lent wp.old sp wl.old sl) d budget result (lent wp.new sp wl.new sl) }
{
    let Some(i) = open_row(d, b) else {
        return refused(Refusal::NoBatch, d);
    };
    if !is_record_of(wl, m, d.logged, b, mark) {
        return refused(Refusal::NoMark, d);
    }
    let t = Run::at(d.logged);
    let x = undo_above(wp, wl, n, m, t, mark, d.rows[i]);
    relink(wp, n);
    Reply {
        answer: Answer::Done,
        desk: d.with_row(i, x.row).with_logged(x.run.logged),
    }
}

// "Write-out does the same, then stores one page."
pub fn write_out_in(
    wp: &[u8],
    sp: &mut [u8],
    wl: &[u8],
    sl: &mut [u8],
    n: usize,
    m: usize,
    d: Desk,
    p: u32,
    budget: usize,
) -> Reply
    requires { HasAreas n m wp.now wl.now × HasAreas n m sp.old sl.old × (d.stored ≤ d.logged) × (d.logged ≤ m) × (p < n) }
    ensures { (st : Standing) → Given n m wp.now sp.old wl.now sl.old d st
        → Replies (calls.write_out p) (lent wp.now sp.old wl.now sl.old) d budget result (lent wp.now sp.new wl.now sl.new) }
{
    let records = Span {
        area: Area::Slots,
        from: d.stored as usize,
        count: (d.logged - d.stored) as usize,
    };
    let page = Span {
        area: Area::Pages,
        from: p as usize,
        count: 1,
    };
    let list = Stores {
        first: records,
        rest: page,
    };
    store_first(sp, sl, wp, wl, list, budget);
    Reply {
        answer: Answer::Done,
        desk: d.with_stored(d.logged),
    }
}
