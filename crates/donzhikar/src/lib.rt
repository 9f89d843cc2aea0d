// The register's calls for C: numbers and byte slices, each slice a pointer and a length.
//
// Each of the fourteen has its own few lines, as C calls it by its own name, and its type says which areas it may change (the C interface).
//
// Every function takes the four areas in one order (working pages, stable pages, working log, stable log), then the desk's 136 bytes,
// then 8 bytes for the answer's two values, then the call's numbers. It returns 0 or the refusal's number.
#![tactic(auto)]

ghost use Rattle.std.specs.Prelude.{◌≡◌, false, length, MatchOption};
ghost use Rattle.def_layout.specs.Sizes.{desk_size};
ghost use Rattle.def_model.specs.CallNames as calls;
ghost use Rattle.area_lengths.specs.Lent.{lent};
ghost use Rattle.def_c.specs.FromC.{returned, sizes_ok, refused_values, c_call};
ghost use Rattle.donzhikar.specs.Returned.{Asked, DeskLeft, Refuses, Gives};

use call_reply::Reply;
use codec_bytes::{set32, zero};
use codec_desk::{get_desk, idle_desk, put_desk};
use def_layout::{DESK_SIZE, Desk};
use face_answers::Numbers;

// The desk, where it has 136 bytes and the values have 8. None: the call is refused for one of these lengths.
fn asked(desk: &[u8], values: &[u8]) -> Option<Desk>
    ensures { MatchOption result (sizes_ok desk.now values.now ≡ false) (Asked desk.now values.now) }
{
    if desk.len() != DESK_SIZE || values.len() != 8 {
        return None;
    }
    Some(get_desk(desk))
}

// The desk after a refusal for a length: emptied by some calls, if it has its own.
fn refuse_desk(desk: &mut [u8], empties: bool)
    ensures { DeskLeft empties desk.old desk.new }
{
    if empties && desk.len() == DESK_SIZE {
        put_desk(desk, idle_desk(0));
    }
}

// The room for values after it: zeros, if it has its length.
fn refuse_values(room: &mut [u8])
    ensures { room.new ≡ refused_values room.old }
{
    if room.len() == 8 {
        zero(room);
    }
}

// The refusal for a length of desk or values. Format, load and restart empty the desk.
fn refuse(desk: &mut [u8], values: &mut [u8], empties: bool) -> u32
    ensures { Refuses empties desk.old values.old result desk.new values.new }
{
    refuse_desk(desk, empties);
    refuse_values(values);
    1
}

// A reply, as C gets it.
fn give(desk: &mut [u8], values: &mut [u8], y: Reply) -> u32
    requires { (length desk.old ≡ desk_size) × (length values.old ≡ 8) }
    ensures { Gives y result desk.new values.new }
{
    let n = Numbers::from(y.answer);
    put_desk(desk, y.desk);
    set32(values, 0, n.first);
    set32(values, 4, n.second);
    n.reason
}

// Format: an empty register in all four areas.
#[unsafe(no_mangle)]
pub extern "C" fn donzhikar_format(
    wp: &mut [u8],
    sp: &mut [u8],
    wl: &mut [u8],
    sl: &mut [u8],
    desk: &mut [u8],
    values: &mut [u8],
) -> u32
    ensures { returned result desk.new values.new (lent wp.new sp.new wl.new sl.new) ≡ c_call calls.format (lent wp.old sp.old wl.old sl.old) desk.old values.old }
{
    let Some(d) = asked(desk, values) else {
        return refuse(desk, values, true);
    };
    let y = call_register::format(wp, sp, wl, sl, d);
    give(desk, values, y)
}

// Load: a register of the slides in two columns, in all four areas.
#[unsafe(no_mangle)]
pub extern "C" fn donzhikar_load(
    wp: &mut [u8],
    sp: &mut [u8],
    wl: &mut [u8],
    sl: &mut [u8],
    desk: &mut [u8],
    values: &mut [u8],
    keys: &[u32],
    vals: &[u32],
) -> u32
    ensures { returned result desk.new values.new (lent wp.new sp.new wl.new sl.new)
        ≡ c_call (calls.load keys.now vals.now) (lent wp.old sp.old wl.old sl.old) desk.old values.old }
{
    let Some(d) = asked(desk, values) else {
        return refuse(desk, values, true);
    };
    let y = call_register::load(wp, sp, wl, sl, d, keys, vals);
    give(desk, values, y)
}

// Begin: a new batch, whose number is the first value.
#[unsafe(no_mangle)]
pub extern "C" fn donzhikar_begin(
    wp: &[u8],
    sp: &[u8],
    wl: &mut [u8],
    sl: &[u8],
    desk: &mut [u8],
    values: &mut [u8],
) -> u32
    ensures { returned result desk.new values.new (lent wp.now sp.now wl.new sl.now) ≡ c_call calls.begin (lent wp.now sp.now wl.old sl.now) desk.old values.old }
{
    let Some(d) = asked(desk, values) else {
        return refuse(desk, values, false);
    };
    let y = call_register::begin(wp, sp, wl, sl, d);
    give(desk, values, y)
}

// Fetch: a key's value.
#[unsafe(no_mangle)]
pub extern "C" fn donzhikar_fetch(
    wp: &[u8],
    sp: &[u8],
    wl: &[u8],
    sl: &[u8],
    desk: &mut [u8],
    values: &mut [u8],
    batch: u32,
    key: u32,
) -> u32
    ensures { returned result desk.new values.new (lent wp.now sp.now wl.now sl.now) ≡ c_call (calls.fetch batch key) (lent wp.now sp.now wl.now sl.now) desk.old values.old }
{
    let Some(d) = asked(desk, values) else {
        return refuse(desk, values, false);
    };
    let y = call_register::fetch(wp, sp, wl, sl, d, batch, key);
    give(desk, values, y)
}

// Next: the first slide above a key, its key and its value.
#[unsafe(no_mangle)]
pub extern "C" fn donzhikar_next(
    wp: &[u8],
    sp: &[u8],
    wl: &[u8],
    sl: &[u8],
    desk: &mut [u8],
    values: &mut [u8],
    batch: u32,
    key: u32,
) -> u32
    ensures { returned result desk.new values.new (lent wp.now sp.now wl.now sl.now) ≡ c_call (calls.next batch key) (lent wp.now sp.now wl.now sl.now) desk.old values.old }
{
    let Some(d) = asked(desk, values) else {
        return refuse(desk, values, false);
    };
    let y = call_register::next(wp, sp, wl, sl, d, batch, key);
    give(desk, values, y)
}

// Previous: the last slide below a key, its key and its value.
#[unsafe(no_mangle)]
pub extern "C" fn donzhikar_previous(
    wp: &[u8],
    sp: &[u8],
    wl: &[u8],
    sl: &[u8],
    desk: &mut [u8],
    values: &mut [u8],
    batch: u32,
    key: u32,
) -> u32
    ensures { returned result desk.new values.new (lent wp.now sp.now wl.now sl.now) ≡ c_call (calls.previous batch key) (lent wp.now sp.now wl.now sl.now) desk.old values.old }
{
    let Some(d) = asked(desk, values) else {
        return refuse(desk, values, false);
    };
    let y = call_register::previous(wp, sp, wl, sl, d, batch, key);
    give(desk, values, y)
}

// Insert: a slide is filed.
#[unsafe(no_mangle)]
pub extern "C" fn donzhikar_insert(
    wp: &mut [u8],
    sp: &[u8],
    wl: &mut [u8],
    sl: &[u8],
    desk: &mut [u8],
    values: &mut [u8],
    batch: u32,
    key: u32,
    value: u32,
) -> u32
    ensures { returned result desk.new values.new (lent wp.new sp.now wl.new sl.now) ≡ c_call (calls.insert batch key value) (lent wp.old sp.now wl.old sl.now) desk.old values.old }
{
    let Some(d) = asked(desk, values) else {
        return refuse(desk, values, false);
    };
    let y = call_register::insert(wp, sp, wl, sl, d, batch, key, value);
    give(desk, values, y)
}

// Delete: a slide is taken out.
#[unsafe(no_mangle)]
pub extern "C" fn donzhikar_delete(
    wp: &mut [u8],
    sp: &[u8],
    wl: &mut [u8],
    sl: &[u8],
    desk: &mut [u8],
    values: &mut [u8],
    batch: u32,
    key: u32,
) -> u32
    ensures { returned result desk.new values.new (lent wp.new sp.now wl.new sl.now) ≡ c_call (calls.delete batch key) (lent wp.old sp.now wl.old sl.now) desk.old values.old }
{
    let Some(d) = asked(desk, values) else {
        return refuse(desk, values, false);
    };
    let y = call_register::delete(wp, sp, wl, sl, d, batch, key);
    give(desk, values, y)
}

// Commit: a batch's changes stay, and the log is stored.
#[unsafe(no_mangle)]
pub extern "C" fn donzhikar_commit(
    wp: &[u8],
    sp: &[u8],
    wl: &mut [u8],
    sl: &mut [u8],
    desk: &mut [u8],
    values: &mut [u8],
    batch: u32,
) -> u32
    ensures { returned result desk.new values.new (lent wp.now sp.now wl.new sl.new) ≡ c_call (calls.commit batch) (lent wp.now sp.now wl.old sl.old) desk.old values.old }
{
    let Some(d) = asked(desk, values) else {
        return refuse(desk, values, false);
    };
    let y = call_register::commit(wp, sp, wl, sl, d, batch);
    give(desk, values, y)
}

// Abort: a batch's changes are undone.
#[unsafe(no_mangle)]
pub extern "C" fn donzhikar_abort(
    wp: &mut [u8],
    sp: &[u8],
    wl: &mut [u8],
    sl: &[u8],
    desk: &mut [u8],
    values: &mut [u8],
    batch: u32,
) -> u32
    ensures { returned result desk.new values.new (lent wp.new sp.now wl.new sl.now) ≡ c_call (calls.abort batch) (lent wp.old sp.now wl.old sl.now) desk.old values.old }
{
    let Some(d) = asked(desk, values) else {
        return refuse(desk, values, false);
    };
    let y = call_register::abort(wp, sp, wl, sl, d, batch);
    give(desk, values, y)
}

// Mark: the number of a batch's latest record.
#[unsafe(no_mangle)]
pub extern "C" fn donzhikar_mark(
    wp: &[u8],
    sp: &[u8],
    wl: &[u8],
    sl: &[u8],
    desk: &mut [u8],
    values: &mut [u8],
    batch: u32,
) -> u32
    ensures { returned result desk.new values.new (lent wp.now sp.now wl.now sl.now) ≡ c_call (calls.take_mark batch) (lent wp.now sp.now wl.now sl.now) desk.old values.old }
{
    let Some(d) = asked(desk, values) else {
        return refuse(desk, values, false);
    };
    let y = call_register::mark(wp, sp, wl, sl, d, batch);
    give(desk, values, y)
}

// Return: a batch's changes after a mark are undone, and it stays open.
#[unsafe(no_mangle)]
pub extern "C" fn donzhikar_return(
    wp: &mut [u8],
    sp: &[u8],
    wl: &mut [u8],
    sl: &[u8],
    desk: &mut [u8],
    values: &mut [u8],
    batch: u32,
    mark: u32,
) -> u32
    ensures { returned result desk.new values.new (lent wp.new sp.now wl.new sl.now) ≡ c_call (calls.return_to batch mark) (lent wp.old sp.now wl.old sl.now) desk.old values.old }
{
    let Some(d) = asked(desk, values) else {
        return refuse(desk, values, false);
    };
    let y = call_register::return_to(wp, sp, wl, sl, d, batch, mark);
    give(desk, values, y)
}

// Write-out: the log and then one page are stored.
#[unsafe(no_mangle)]
pub extern "C" fn donzhikar_write_out(
    wp: &[u8],
    sp: &mut [u8],
    wl: &[u8],
    sl: &mut [u8],
    desk: &mut [u8],
    values: &mut [u8],
    page: u32,
) -> u32
    ensures { returned result desk.new values.new (lent wp.now sp.new wl.now sl.new) ≡ c_call (calls.write_out page) (lent wp.now sp.old wl.now sl.old) desk.old values.old }
{
    let Some(d) = asked(desk, values) else {
        return refuse(desk, values, false);
    };
    let y = call_register::write_out(wp, sp, wl, sl, d, page);
    give(desk, values, y)
}

// Restart: the number of batches that it ended, and of page changes that it redid.
#[unsafe(no_mangle)]
pub extern "C" fn donzhikar_restart(
    wp: &mut [u8],
    sp: &[u8],
    wl: &mut [u8],
    sl: &mut [u8],
    desk: &mut [u8],
    values: &mut [u8],
) -> u32
    ensures { returned result desk.new values.new (lent wp.new sp.now wl.new sl.new) ≡ c_call calls.restart (lent wp.old sp.now wl.old sl.old) desk.old values.old }
{
    let Some(d) = asked(desk, values) else {
        return refuse(desk, values, true);
    };
    let y = call_register::restart(wp, sp, wl, sl, d);
    give(desk, values, y)
}
