// A page made anew: with other entries, another chain, other marks, or of nothing.
ghost use Rattle.std.specs.Prelude.{◌≡◌, ◌≢◌, ◌≤◌, set};
ghost use Rattle.def_layout.specs.Sizes.{room};
ghost use Rattle.def_layout.specs.Pages.{freed};
ghost use Rattle.def_layout.specs.declared.page.PageKind.TheVariants.{Map};
ghost use Rattle.def_model.specs.Change.{with_entries, with_chain, with_marks, cut_to_size};
ghost use Rattle.codec_page.specs.Typed.{typed};
ghost use Rattle.record_apply.specs.Lists.{listed};
ghost use Rattle.record_apply.specs.Pages.{node_of};

use super::lists::EntryList;
use codec_map::with_mark;
use codec_page::Page;
use def_layout::MOST_PAGES;
use def_layout::page::PageKind;

// A page as it is, its level in four bits.
pub fn cut(x: Page) -> Page
    requires { x.count ≤ room }
    ensures { typed result ≡ cut_to_size (typed x) }
{
    Page {
        level: x.level % 16,
        ..x
    }
}

// A page with right link, high key and entries anew; the map has no entries and keeps its marks.
pub fn renew(x: Page, right: u32, high: u32, l: EntryList) -> Page
    requires { l.count ≤ room }
    ensures { typed result ≡ cut_to_size (with_chain right high (listed l) (typed x)) }
{
    let level = x.level % 16;
    let entries = l.entries;
    match x.kind {
        PageKind::Map => Page {
            level,
            right,
            high,
            ..x
        },
        _ => Page {
            level,
            right,
            high,
            count: l.count as u32,
            entries,
            ..x
        },
    }
}

// A page with other entries.
pub fn with_list(x: Page, l: EntryList) -> Page
    requires { l.count ≤ room }
    ensures { typed result ≡ cut_to_size (with_entries (listed l) (typed x)) }
{
    renew(x, x.right, x.high, l)
}

// A new page, of log number 0.
pub fn node(kind: PageKind, level: u32, own: u32, right: u32, high: u32, l: EntryList) -> Page
    requires { (kind ≢ Map) × (l.count ≤ room) }
    ensures { typed result ≡ node_of kind level own right high (listed l) }
{
    let entries = l.entries;
    Page {
        kind,
        level: level % 16,
        count: l.count as u32,
        right,
        high,
        lsn: 0,
        own,
        entries,
    }
}

pub fn free_page(own: u32) -> Page
    ensures { typed result ≡ cut_to_size (freed own) }
{
    node(PageKind::Free, 0, own, 0, 0, EntryList::default())
}

// The map with page q marked as used or as free; any other page as it is.
pub fn mark(x: Page, q: usize, on: bool) -> Page
    requires { x.count ≤ room }
    ensures { typed result ≡ cut_to_size (with_marks (set (typed x).marks q on) (typed x)) }
{
    match x.kind {
        PageKind::Map => Page {
            level: x.level % 16,
            entries: if q < MOST_PAGES {
                with_mark(x.entries, q, on)
            } else {
                x.entries
            },
            ..x
        },
        _ => cut(x),
    }
}
