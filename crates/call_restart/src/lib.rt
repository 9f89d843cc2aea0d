// Restart, from the stable areas alone: the image judged, copied and redone, open batches settled, and the new records stored.
#![tactic(auto)]

ghost use Rattle.std.specs.Prelude.{◌≡◌, ◌≤◌, length, MatchResult, OnOk};
ghost use Rattle.def_layout.specs.Desks.{empty_desk};
ghost use Rattle.def_layout.specs.Numbers.{zeros};
ghost use Rattle.def_model.specs.CallNames as calls;
ghost use Rattle.def_model.specs.declared.Answer.TheVariants.{Refused};
ghost use Rattle.law_bytes.specs.AreaSizes.{HasSlots, HasAreas};
ghost use Rattle.area_lengths.specs.Lent.{lent};
ghost use Rattle.call_reply.specs.Replies.{Replies};
ghost use Rattle.call_restart.specs.Image.{Judges, Image, Refuses};
ghost use Rattle.call_restart.specs.Redoing.{Redoes};
ghost use Rattle.call_restart.specs.Recovered.{Recovers};

use area_lengths::lengths_ok;
use area_store::store_slots;
use call_reply::{Reply, refused};
use call_undo::settle;
use codec_bytes::{copy, zero};
use codec_desk::{idle_desk, used_rows};
use def_layout::{Desk, PAGE_SIZE, SLOT_SIZE};
use def_model::{Answer, Refusal};
use log_judge::{Said, judge_log};
use record_redo::redo_log;
use sound_parts::{layouts_ok, numbers_ok};
use sound_pending::pending_ok;
use tree_check::tree_ok;
use tree_links::relink;
use tree_write::Run;

// Refusals 3 and 4 of an image of n pages and m slots; or what its log says.
fn judged(sp: &[u8], sl: &[u8], n: usize, m: usize) -> Result<Said, Refusal>
    requires { HasAreas n m sp.now sl.now }
    ensures { Judges n m sp.now sl.now result }
{
    if !layouts_ok(sp, n, false) {
        return Err(Refusal::Layout);
    }
    let said = judge_log(sl, m, n).ok_or(Refusal::Log)?;
    if !numbers_ok(sp, n, said.logged) {
        return Err(Refusal::Log);
    }
    Ok(said)
}

// The copy of an image's pages is redone from record 1 of its log, which is copied with it, and 5 and 6 are judged; or how many page changes were redone.
fn redone(
    wp: &mut [u8],
    wl: &mut [u8],
    sl: &[u8],
    n: usize,
    m: usize,
    said: Said,
) -> Result<u32, Refusal>
    requires { HasAreas n m wp.old sl.now × HasSlots m wl.old × (said.logged ≤ m) }
    ensures pages { Image n m wp.old sl.now said.batches.rows said.logged said.batches.marked → Redoes n wp.old sl.now wp.new result }
    ensures log { OnOk result (wl.new ≡ sl.now) }
{
    let count = redo_log(wp, wl, sl, n, m, said.logged).ok_or(Refusal::Redo)?;
    if !tree_ok(wp, n) {
        return Err(Refusal::Rules);
    }
    if !pending_ok(wp, n, sl, m, said.batches.rows) {
        return Err(Refusal::Rules);
    }
    Ok(count)
}

// 01: "restart's 3 to 18 zero the working areas".
fn zeroed(wp: &mut [u8], wl: &mut [u8], why: Refusal) -> Reply
    ensures { (wp.new ≡ zeros (length wp.old)) × (wl.new ≡ zeros (length wl.old)) × (result.answer ≡ Refused why) × (result.desk ≡ empty_desk) }
{
    zero(wp);
    zero(wl);
    refused(why, idle_desk(0))
}

// The image is judged, copied, redone and settled, and the records of the settling are stored while the budget lasts. Only that writes the stable log.
fn recovered(
    wp: &mut [u8],
    sp: &[u8],
    wl: &mut [u8],
    sl: &mut [u8],
    n: usize,
    m: usize,
    budget: usize,
) -> Result<Reply, Refusal>
    requires { HasAreas n m wp.old wl.old × HasAreas n m sp.now sl.old }
    ensures { MatchResult result (λ r. Recovers wp.old sp.now wl.old sl.old budget r wp.new wl.new sl.new) (λ why. Refuses sp.now sl.old why × (sl.new ≡ sl.old)) }
{
    let said = judged(sp, sl, n, m)?;
    copy(wp, sp);
    let count = redone(wp, wl, sl, n, m, said)?;
    let u = settle(wp, wl, n, m, Run::at(said.logged), said.batches);
    if let Some(why) = u.stop {
        return Err(why);
    }
    relink(wp, n);
    store_slots(sl, wl, said.logged as usize, u.logged as usize, budget);
    let ended = used_rows(said.batches.rows);
    Ok(Reply {
        answer: Answer::Pair(ended as u32, count),
        desk: idle_desk(u.logged),
    })
}

// 01's restart, on areas of any lengths and any bytes.
pub fn restart_within(
    wp: &mut [u8],
    sp: &[u8],
    wl: &mut [u8],
    sl: &mut [u8],
    d: Desk,
    budget: usize,
) -> Reply
    ensures { Replies calls.restart (lent wp.old sp.now wl.old sl.old) d budget result (lent wp.new sp.now wl.new sl.new) }
{
    if !lengths_ok(wp, sp, wl, sl) {
        return refused(Refusal::Lengths, idle_desk(0));
    }
    let n = wp.len() / PAGE_SIZE;
    let m = wl.len() / SLOT_SIZE;
    match recovered(wp, sp, wl, sl, n, m, budget) {
        Ok(reply) => reply,
        Err(why) => zeroed(wp, wl, why),
    }
}
