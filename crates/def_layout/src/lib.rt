// The register's values: entries of pages and log records, and the desk. Where the fields of a page and of a slot stand is in `page` and `slot`.
#![tactic(auto)]

pub mod page;
pub mod slot;

ghost use Rattle.std.specs.Prelude.{◌≡◌, ◌<◌, set};

// 01: "Pages are 128 bytes, 16 to 896 of them. Log slots are 144 bytes, 64 to 16,384." A page and a record have room for 14 entries.
pub const PAGE_SIZE: usize = 128;

pub const LEAST_PAGES: usize = 16;

pub const MOST_PAGES: usize = 896;

pub const SLOT_SIZE: usize = 144;

pub const LEAST_SLOTS: usize = 64;

pub const MOST_SLOTS: usize = 16384;

pub const ROOM: usize = 14;

pub const ENTRY_SIZE: usize = 8;

pub const ENTRIES_SIZE: usize = 112;

pub const MOST_ENTRIES: u32 = 14;

pub const DESK_SIZE: usize = 136;

// 01: "key 32, then a leaf's value 32, or an index's spare 22 and child 10".
#[derive(Clone, Copy, Debug, PartialEq, Eq, Default)]
pub struct Entry {
    pub key: u32,
    pub val: u32,
}

// 01: "batch number, last record, next record to undo, pending count".
#[derive(Clone, Copy, Debug, PartialEq, Eq, Default)]
pub struct Row {
    pub batch: u32,
    pub last: u32,
    pub undo: u32,
    pub pending: u32,
}

// 01: "The desk is a value with eight batch rows .. then counts of records in the working and the stable log."
#[derive(Clone, Copy, Debug, PartialEq, Eq, Default)]
pub struct Desk {
    pub rows: [Row; 8],
    pub logged: u32,
    pub stored: u32,
}

// Each hands back the desk with one thing new.
impl Desk {
    pub fn with_row(mut self, i: usize, r: Row) -> Self
        requires { i < 8 }
        ensures { result ≡ record { rows = set self.rows i r; logged = self.logged; stored = self.stored } }
    {
        self.rows[i] = r;
        self
    }

    pub fn with_rows(mut self, rows: [Row; 8]) -> Self
        ensures { result ≡ record { rows = rows; logged = self.logged; stored = self.stored } }
    {
        self.rows = rows;
        self
    }

    pub fn with_logged(mut self, n: u32) -> Self
        ensures { result ≡ record { rows = self.rows; logged = n; stored = self.stored } }
    {
        self.logged = n;
        self
    }

    pub fn with_stored(mut self, n: u32) -> Self
        ensures { result ≡ record { rows = self.rows; logged = self.logged; stored = n } }
    {
        self.stored = n;
        self
    }
}
