// Where the fields of a log slot stand. 01: "kind 4, count 4, level 4, spare 20; own log number 32 (first slot 1); batch 32; previous 32; pages A, B, C
// of 10 each, spare 2; key 32; second 32; right 10, spare 22; 14 entries."

// Each word by its first byte.
pub const FRONT_AT: usize = 0;

pub const OWN_AT: usize = 4;

pub const BATCH_AT: usize = 8;

pub const PREVIOUS_AT: usize = 12;

pub const PAGES_AT: usize = 16;

pub const KEY_AT: usize = 20;

pub const SECOND_AT: usize = 24;

pub const RIGHT_AT: usize = 28;

pub const ENTRIES_AT: usize = 32;

// What one of a field counts in its word: the front's, the pages', and the last word's.
pub const KIND_UNIT: u32 = 268435456;

pub const COUNT_UNIT: u32 = 16777216;

pub const LEVEL_UNIT: u32 = 1048576;

pub const A_UNIT: u32 = 4194304;

pub const B_UNIT: u32 = 4096;

pub const C_UNIT: u32 = 4;

pub const RIGHT_UNIT: u32 = 4194304;
