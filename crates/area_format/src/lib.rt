// Formatting and loading: the working areas become a register of some records, and its empty log, which are then stored.
#![tactic(auto)]

ghost use Rattle.std.specs.Prelude.{◌≡◌, [], map, ◌*◌, ◌/◌, ◌≤◌, ◌<◌, length, replicate};
ghost use Rattle.def_layout.specs.Sizes.{page_size, slot_size};
ghost use Rattle.def_layout.specs.Entries.{top};
ghost use Rattle.def_layout.specs.Pages.{node_at};
ghost use Rattle.def_layout.specs.PageBytes.{page};
ghost use Rattle.def_layout.specs.RecordBytes.{empty};
ghost use Rattle.def_model.specs.Loading.{columns, loaded_count, loaded_pages};
ghost use Rattle.def_model.specs.OnBytes.{pages_bytes, log_bytes};
ghost use Rattle.codec_page.specs.Typed.{typed};
ghost use Rattle.area_load.specs.Columns.{Columns};
ghost use Rattle.area_lengths.specs.Lent.{lent, Sized};
ghost use Rattle.area_store.specs.Lists.{Leads};
ghost use Rattle.area_format.specs.Started.{Started, all_parts};

use area_load::{load_map, load_pages};
use area_store::{Area, Span, Stores, store_first};
use codec_bytes::zero;
use codec_page::{Page, write_at};
use def_layout::page::PageKind;
use def_layout::{Entry, PAGE_SIZE, ROOM, SLOT_SIZE};

// The root of a register without slides: a leaf of all keys, with no entry. (The literal stays: the proof computes what the page stands for.)
fn first_root() -> Page
    ensures { typed result ≡ node_at 1 0 0 top [] }
{
    Page {
        kind: PageKind::Leaf,
        level: 0,
        count: 0,
        right: 0,
        high: u32::MAX,
        lsn: 0,
        own: 1,
        entries: [Entry { key: 0, val: 0 }; ROOM],
    }
}

// Its map marks itself and the root.
fn format_pages(wp: &mut [u8])
    requires { (length wp.old ≡ page_size * (length wp.old / page_size)) × (16 ≤ length wp.old / page_size) }
    ensures { wp.new ≡ pages_bytes (map page (loaded_pages (length wp.old / page_size) [])) }
{
    zero(wp);
    write_at(wp, 0, load_map(2));
    write_at(wp, PAGE_SIZE, first_root());
}

fn format_work(wp: &mut [u8], wl: &mut [u8])
    requires { (length wp.old ≡ page_size * (length wp.old / page_size)) × (16 ≤ length wp.old / page_size) × (length wl.old ≡ slot_size * (length wl.old / slot_size)) }
    ensures { (wp.new ≡ pages_bytes (map page (loaded_pages (length wp.old / page_size) []))) × (wl.new ≡ log_bytes (replicate (length wl.old / slot_size) empty)) }
{
    format_pages(wp);
    zero(wl);
}

fn load_work(wp: &mut [u8], wl: &mut [u8], keys: &[u32], values: &[u32])
    requires { (length wp.old ≡ page_size * (length wp.old / page_size)) × (length wl.old ≡ slot_size * (length wl.old / slot_size)) × Columns keys.now values.now
        × (loaded_count (length keys.now) < length wp.old / page_size) }
    ensures { (wp.new ≡ pages_bytes (map page (loaded_pages (length wp.old / page_size) (columns keys.now values.now))))
        × (wl.new ≡ log_bytes (replicate (length wl.old / slot_size) empty)) }
{
    load_pages(wp, keys, values);
    zero(wl);
}

// 01: "storing pages, then slots, in order".
fn store_started(sp: &mut [u8], sl: &mut [u8], wp: &[u8], wl: &[u8], budget: usize)
    requires { Sized wp.now sp.old wl.now sl.old }
    ensures { Leads (all_parts (length wp.now / page_size) (length wl.now / slot_size)) budget wp.now wl.now
        (lent wp.now sp.old wl.now sl.old) (lent wp.now sp.new wl.now sl.new) }
{
    let pages = Span {
        area: Area::Pages,
        from: 0,
        count: wp.len() / PAGE_SIZE,
    };
    let slots = Span {
        area: Area::Slots,
        from: 0,
        count: wl.len() / SLOT_SIZE,
    };
    let list = Stores {
        first: pages,
        rest: slots,
    };
    store_first(sp, sl, wp, wl, list, budget);
}

// 02's load: the working areas, and of its stores as many as the budget lasts for.
pub fn load(
    wp: &mut [u8],
    sp: &mut [u8],
    wl: &mut [u8],
    sl: &mut [u8],
    keys: &[u32],
    values: &[u32],
    budget: usize,
)
    requires { Sized wp.old sp.old wl.old sl.old × Columns keys.now values.now × (loaded_count (length keys.now) < length wp.old / page_size) }
    ensures { Started (columns keys.now values.now) budget (lent wp.old sp.old wl.old sl.old) (lent wp.new sp.new wl.new sl.new) }
{
    load_work(wp, wl, keys, values);
    store_started(sp, sl, wp, wl, budget);
}

// 01's format, which is a loading of no records.
pub fn format(wp: &mut [u8], sp: &mut [u8], wl: &mut [u8], sl: &mut [u8], budget: usize)
    requires { Sized wp.old sp.old wl.old sl.old }
    ensures { Started [] budget (lent wp.old sp.old wl.old sl.old) (lent wp.new sp.new wl.new sl.new) }
{
    format_work(wp, wl);
    store_started(sp, sl, wp, wl, budget);
}
