// Where the fields of a page stand. 01: "kind 2, level 4, count 4, right link 10 (0 none), spare 12; high key 32; page log number 32; own page number 10,
// spare 22; then 14 entries", or the map's bits instead of entries.

ghost use Rattle.std.specs.Prelude.{◌≡◌};
ghost use Rattle.def_layout.specs.Pages.{page_kind, page_kind_number, kind_at};

// What a page is. The definitions have the same type.
#[derive(Clone, Copy, Debug, PartialEq, Eq)]
pub enum PageKind {
    Free,
    Leaf,
    Index,
    Map,
}

impl PageKind {
    // The kind that two bits of a page's first word say.
    #[tactic(auto, unfolding(crate::specs::Pages::page_kind))]
    pub fn from_bits(n: u32) -> Self
        ensures { result ≡ page_kind n }
    {
        match n {
            0 => PageKind::Free,
            1 => PageKind::Leaf,
            2 => PageKind::Index,
            _ => PageKind::Map,
        }
    }

    // Level 0 is the leaves'.
    pub fn at_level(level: u32) -> Self
        ensures { result ≡ kind_at level }
    {
        if level == 0 {
            PageKind::Leaf
        } else {
            PageKind::Index
        }
    }
}

impl From<PageKind> for u32 {
    ghost from_gives = { λ k n. n ≡ page_kind_number k };

    #[tactic(auto, unfolding(crate::specs::Pages::page_kind_number))]
    fn from(kind: PageKind) -> u32 {
        match kind {
            PageKind::Free => 0,
            PageKind::Leaf => 1,
            PageKind::Index => 2,
            PageKind::Map => 3,
        }
    }
}

// Each word by its first byte, and the first entry by its key's and its value's.
pub const FRONT_AT: usize = 0;

pub const HIGH_AT: usize = 4;

pub const LSN_AT: usize = 8;

pub const OWN_AT: usize = 12;

pub const ENTRIES_AT: usize = 16;

pub const VALUES_AT: usize = 20;

// What one of a field counts in its word: the front's, and the own page number's.
pub const KIND_UNIT: u32 = 1073741824;

pub const LEVEL_UNIT: u32 = 67108864;

pub const COUNT_UNIT: u32 = 4194304;

pub const RIGHT_UNIT: u32 = 4096;

// 02, U5: "Leaves get a left link in the first 10 spare bits after the right link, in working pages only".
pub const LEFT_UNIT: u32 = 4;

pub const OWN_UNIT: u32 = 4194304;
