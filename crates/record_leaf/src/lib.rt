// A slide filed in a leaf, or struck out of it, at the page's own bytes: nothing is decoded, and what stays is not written again. Where the page is
// not one that the change starts from, nothing happens, and the caller goes the long way.
#![tactic(auto)]

ghost use Rattle.std.specs.Prelude.{◌≡◌, not, ◌&&◌, ◌++◌, ◌+◌, ◌-◌, ◌*◌, ◌≤◌, ◌<◌, length, ltb, eqb};
ghost use Rattle.def_base.specs.Tests.{pick};
ghost use Rattle.def_layout.specs.Sizes.{page_size, room};
ghost use Rattle.def_layout.specs.Entries.{place};
ghost use Rattle.def_layout.specs.Numbers.{put32};
ghost use Rattle.law_bytes.specs.Words.{part};
ghost use Rattle.law_bytes.specs.Patch.{patch};
ghost use Rattle.law_bytes.specs.EntryBytes.{used};
ghost use Rattle.def_model.specs.Fit.{nowhere};
ghost use Rattle.record_leaf.specs.Keys.{shown};
ghost use Rattle.record_leaf.specs.Leaves.{Filed, Struck, Made};

use codec_bytes::{copy, copy_part, get32, set32};
use def_layout::{ENTRIES_SIZE, ENTRY_SIZE, PAGE_SIZE, ROOM, page};

// With 8 * i more: where the entry after entry i stands. With 8 * n more: the key and the value of the last of n entries.
const NEXT_AT: usize = page::ENTRIES_AT + ENTRY_SIZE;

const LAST_KEY_AT: usize = page::ENTRIES_AT - ENTRY_SIZE;

const LAST_VALUE_AT: usize = page::VALUES_AT - ENTRY_SIZE;

// Where a key belongs among entries, and whether none of them has it. Both are told of any page: where keys do not rise, a key may stand elsewhere than
// where it belongs, so neither of the two follows from the other.
#[derive(Clone, Copy)]
struct Sought {
    place: u8,
    missing: bool,
}

// Among n entries, in 8 bits as `find`: the place of the first whose key is not below k, or n. All are looked at, from the last on, and no test
// ends the loop: where a key stands cannot be foreseen, and a jump that was guessed wrong takes longer than the other entries.
fn seek(b: &[u8], n: u8, k: u32) -> Sought
    requires { (length b.now ≡ page_size) × (n ≤ room) }
    ensures place { result.place ≡ place k (used n (shown b.now)) }
    ensures missing { result.missing ≡ nowhere k (used n (shown b.now)) }
    ensures within { result.place ≤ n }
{
    let mut place = n;
    let mut missing = true;
    for i in (0..n).rev() {
        let x = get32(b, page::ENTRIES_AT + ENTRY_SIZE * usize::from(i));
        place = if x < k { place } else { i };
        missing &= x != k;
    }
    Sought { place, missing }
}

// Of n entries those from place i on move up by one, and (k, v) stands there. `old` are the entries as they are.
fn put_in(b: &mut [u8], old: &[u8], n: usize, i: usize, k: u32, v: u32)
    requires { (length b.old ≡ page_size) × (length old.now ≡ 112) × (old.now ≡ part b.old 16 112) × (n < room) × (i ≤ n) }
    ensures { b.new ≡ patch b.old (16 + 8 * i) (put32 k ++ put32 v ++ part b.old (16 + 8 * i) (8 * (n - i))) }
{
    set32(b, page::ENTRIES_AT + ENTRY_SIZE * i, k);
    set32(b, page::VALUES_AT + ENTRY_SIZE * i, v);
    copy_part(
        b,
        NEXT_AT + ENTRY_SIZE * i,
        old,
        ENTRY_SIZE * i,
        ENTRY_SIZE * (n - i),
    );
}

// Of n entries the one at place i goes, those above it move down, and the last place is zero.
fn take_out(b: &mut [u8], old: &[u8], n: usize, i: usize)
    requires { (length b.old ≡ page_size) × (length old.now ≡ 112) × (old.now ≡ part b.old 16 112) × (n ≤ room) × (i < n) }
    ensures { b.new ≡ patch b.old (16 + 8 * i) (part b.old (24 + 8 * i) (8 * (n - 1 - i)) ++ put32 0 ++ put32 0) }
{
    copy_part(
        b,
        page::ENTRIES_AT + ENTRY_SIZE * i,
        old,
        ENTRY_SIZE + ENTRY_SIZE * i,
        ENTRY_SIZE * (n - 1 - i),
    );
    set32(b, LAST_KEY_AT + ENTRY_SIZE * n, 0);
    set32(b, LAST_VALUE_AT + ENTRY_SIZE * n, 0);
}

// The page's first word and its log number.
fn stamp(b: &mut [u8], front: u32, own: u32)
    requires { length b.old ≡ page_size }
    ensures { b.new ≡ patch (patch b.old 0 (put32 front)) 8 (put32 own) }
{
    set32(b, page::FRONT_AT, front);
    set32(b, page::LSN_AT, own);
}

// Insert (k, v), record number `own`: done where the page is a leaf with room and without the key. The entries are copied before the search: read
// again by other widths right after, the copy would have to be waited for.
fn file_slide(b: &mut [u8], own: u32, k: u32, v: u32) -> bool
    requires { length b.old ≡ page_size }
    ensures { Filed own k v b.old result b.new }
{
    let w = get32(b, page::FRONT_AT);
    if w / page::KIND_UNIT != 1 {
        return false;
    }
    let n = (w / page::COUNT_UNIT % 16) as usize;
    if n >= ROOM {
        return false;
    }
    let mut old = [0u8; ENTRIES_SIZE];
    copy(&mut old, &b[page::ENTRIES_AT..PAGE_SIZE]);
    let s = seek(b, n as u8, k);
    if !s.missing {
        return false;
    }
    let i = s.place as usize;
    put_in(b, &old, n, i, k, v);
    stamp(b, w + page::COUNT_UNIT, own);
    true
}

// Delete (k, v), record number `own`: done where the page is a leaf in which the search for k meets just that entry.
fn strike_slide(b: &mut [u8], own: u32, k: u32, v: u32) -> bool
    requires { length b.old ≡ page_size }
    ensures { Struck own k v b.old result b.new }
{
    let w = get32(b, page::FRONT_AT);
    if w / page::KIND_UNIT != 1 {
        return false;
    }
    let n = (w / page::COUNT_UNIT % 16) as usize;
    if n > ROOM {
        return false;
    }
    let mut old = [0u8; ENTRIES_SIZE];
    copy(&mut old, &b[page::ENTRIES_AT..PAGE_SIZE]);
    let i = seek(b, n as u8, k).place as usize;
    if i >= n {
        return false;
    }
    if get32(b, page::ENTRIES_AT + ENTRY_SIZE * i) != k {
        return false;
    }
    if get32(b, page::VALUES_AT + ENTRY_SIZE * i) != v {
        return false;
    }
    take_out(b, &old, n, i);
    stamp(b, w - page::COUNT_UNIT, own);
    true
}

// An insert (2) or a delete (3).
pub fn slide_made(b: &mut [u8], kind: u32, own: u32, k: u32, v: u32) -> bool
    requires { (length b.old ≡ page_size) × (2 ≤ kind) × (kind ≤ 3) }
    ensures { Made kind own k v b.old result b.new }
{
    if kind == 2 {
        return file_slide(b, own, k, v);
    }
    strike_slide(b, own, k, v)
}
