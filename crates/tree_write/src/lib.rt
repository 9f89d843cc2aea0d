// A run of updates over the lent working areas: one record after another is logged and applied.
#![tactic(auto)]

ghost use Rattle.std.specs.Prelude.{◌≡◌, false, List, ℕ, suc, ◌*◌, ◌≤◌, ◌<◌, length, IsSome, IsNone};
ghost use Rattle.def_layout.specs.Sizes.{slot_size, most_slots, room};
ghost use Rattle.def_layout.specs.Pages.{Page};
ghost use Rattle.def_layout.specs.Records.{Rec, kind_of, batch_row};
ghost use Rattle.def_layout.specs.RecordBytes.{record_bytes};
ghost use Rattle.def_model.specs.Change.{changes, shape};
ghost use Rattle.def_model.specs.Update as model;
ghost use Rattle.law_bytes.specs.AreaSizes.{HasPages, HasSlots, HasAreas};
ghost use Rattle.law_bytes.specs.Patch.{patch};
ghost use Rattle.record_apply.specs.Pages.{rec};
ghost use Rattle.record_pages.specs.Pages.{Pages};
ghost use Rattle.tree_write.specs.Shows.{Shows, Keeping, Halted};

use codec_map::highest_free;
use codec_slot::{Header, Slot, write_at};
use def_layout::SLOT_SIZE;
use def_layout::page::PageKind;
use def_model::Refusal;
use record_apply::Record;
use record_make::batch_row;
use record_pages::{page_at, redo_record};

// Where a run stands: the last record's number, and why it stopped, if it did: for want of slots or of pages.
#[derive(Clone, Copy)]
pub struct Run {
    pub logged: u32,
    pub stop: Option<Refusal>,
}

impl Run {
    // A run that goes on, after so many records.
    pub fn at(logged: u32) -> Self
        ensures { result ≡ record { logged = logged; stop = None } }
    {
        Run { logged, stop: None }
    }

    // The run before its next record: it stops if there is no slot for one.
    fn before_record(self, m: usize) -> Self
        ensures same { result.logged ≡ self.logged }
        ensures goes { IsNone result.stop → (result ≡ self) × (result.stop ≡ None) × (result.logged < m) }
        ensures halts { IsSome result.stop → Halted m self result }
    {
        if self.stop.is_none() && self.logged as usize >= m {
            return Run {
                stop: Some(Refusal::SlotsShort),
                ..self
            };
        }
        self
    }
}

// The record after the first i goes into its slot.
fn write_record(log: &mut [u8], i: u32, r: Record)
    requires { (i < most_slots) × (slot_size * suc i ≤ length log.old) }
    ensures { log.new ≡ patch log.old (slot_size * i) (record_bytes (suc i) (rec r)) }
{
    let header = Header::Full {
        kind: r.kind,
        count: r.count,
        level: r.level,
        own: i + 1,
        batch: r.batch,
        previous: r.previous,
        a: r.a,
        b: r.b,
        c: r.c,
        key: r.key,
        second: r.second,
        right: r.right,
    };
    let entries = r.entries;
    write_at(log, SLOT_SIZE * i as usize, Slot { header, entries });
}

// One record is logged and applied, if there is a slot for it.
pub fn emit(wp: &mut [u8], wl: &mut [u8], n: usize, m: usize, t: Run, r: Record) -> Run
    requires { HasAreas n m wp.old wl.old × (r.count ≤ room) }
    ensures { (s : model.Run) → Shows n m wp.old wl.old t s → Keeping m t (rec r) → Shows n m wp.new wl.new result (model.emit (rec r) s) }
{
    let t = t.before_record(m);
    if t.stop.is_some() {
        return t;
    }
    let k = t.logged + 1;
    write_record(wl, t.logged, r);
    redo_record(wp, n, r, k);
    Run::at(k)
}

// A record that changes no page (a begin, a commit, an abort mark, an end) is logged, if there is a slot for it.
pub fn note(wl: &mut [u8], m: usize, t: Run, kind: u32, batch: u32, previous: u32) -> Run
    requires { HasSlots m wl.old × (shape (kind_of kind) ≡ changes false false false false) }
    ensures { (t.logged ≤ result.logged) × (t.logged ≤ m → result.logged ≤ m)
        × ((n : ℕ) (wp : List ℕ) (s : model.Run) → Shows n m wp wl.old t s → Shows n m wp wl.new result (model.emit (batch_row (kind_of kind) batch previous) s)) }
{
    let t = t.before_record(m);
    if t.stop.is_some() {
        return t;
    }
    let r = batch_row(kind, batch, previous);
    write_record(wl, t.logged, r);
    Run::at(t.logged + 1)
}

// The page taken, of n: the free one with the highest number, or 0 if there is none.
pub fn fresh(wp: &[u8], n: usize) -> u32
    requires { HasPages n wp.now }
    ensures { (result < 1024) × ((xs : List Page) (ls : List ℕ) (near : ℕ) → Pages n wp.now xs ls → result ≡ model.fresh xs near) }
{
    let x = page_at(wp, n, 0);
    let es = x.entries;
    match x.kind {
        PageKind::Map => highest_free(es, n) as u32,
        _ => 0,
    }
}

// A record that takes page b, where b is the page taken: the slot is asked for first.
pub fn emit_taking(
    wp: &mut [u8],
    wl: &mut [u8],
    n: usize,
    m: usize,
    t: Run,
    r: Record,
    b: u32,
) -> Run
    requires { HasAreas n m wp.old wl.old × (r.count ≤ room) }
    ensures { (s : model.Run) (f : ℕ → Rec) (near : ℕ) → Shows n m wp.old wl.old t s → Keeping m t (rec r) → b ≡ model.fresh s.pages near → f b ≡ rec r
        → Shows n m wp.new wl.new result (model.emit_taking f near s) }
{
    if b != 0 {
        return emit(wp, wl, n, m, t, r);
    }
    let t = t.before_record(m);
    if t.stop.is_some() {
        return t;
    }
    Run {
        stop: Some(Refusal::PagesShort),
        ..t
    }
}
