// The map's marks, word by word: "free pages by counting ones in map words; the highest free page by .. trailing zeros".
#![tactic(auto)]

ghost use Rattle.std.specs.Prelude.{◌≡◌, ℕ, ◌-◌, ◌/◌, ◌^◌, ◌≤◌, ◌<◌, eqb, take, set};
ghost use Rattle.std.specs.Int.Count.{ones, count_trailing_zeros};
ghost use Rattle.def_layout.specs.Sizes.{most_pages};
ghost use Rattle.def_model.specs.TreeRules as rules;
ghost use Rattle.def_model.specs.Update.{highest};
ghost use Rattle.codec_page.specs.Typed.{map_word};
ghost use Rattle.codec_map.specs.Words.{clear};
ghost use Rattle.def_base.specs.Tests.{pick};
ghost use Rattle.codec_map.specs.Setting.{Digit};
ghost use Rattle.codec_map.specs.Turns.{marks};

use codec_page::map_word;
use def_layout::{Entry, ROOM};

// The ones among a word's k most significant digits.
fn ones_in(w: u32, k: usize) -> usize
    requires { k ≤ 32 }
    ensures { (result ≡ ones (w / 2 ^ (32 - k))) × (result ≤ 32) }
{
    if k == 0 {
        return 0;
    }
    (w >> (32 - k)).count_ones() as usize
}

// How many of the first n pages are marked as used. A turn goes on by a word's 32 marks, and the last by fewer: no `for` says that more plainly.
pub fn count_used(es: [Entry; ROOM], n: usize) -> usize
    requires { n ≤ most_pages }
    ensures { result ≡ rules.ones (take n (marks es)) }
{
    let mut p = 0;
    let mut s = 0;
    while p < n {
        let k = (n - p).min(32);
        s += ones_in(map_word(es, p / 32), k);
        p += k;
    }
    s
}

// A one for each of a word's first k marks that is not set.
fn clear_in(w: u32, k: usize) -> u32
    requires { (0 < k) × (k ≤ 32) }
    ensures { result ≡ clear (32 - k) w }
{
    (4294967295 - w) >> (32 - k)
}

fn last_zeros(c: u32) -> usize
    ensures { result ≡ count_trailing_zeros 32 c }
{
    c.trailing_zeros() as usize
}

// "The page taken is the free one with the highest number", of the first n; 0 if there is none. From the last word down, which
// can be a part of one: no `for` says that more plainly.
pub fn highest_free(es: [Entry; ROOM], n: usize) -> usize
    requires { n ≤ most_pages }
    ensures { result ≡ highest n (marks es) }
{
    let mut p = n;
    while 0 < p {
        let j = (p - 1) / 32;
        let c = clear_in(map_word(es, j), p - 32 * j);
        if c != 0 {
            return p - 1 - last_zeros(c);
        }
        p = 32 * j;
    }
    0
}

// A word with digit k set or cleared.
fn with_digit(w: u32, k: u32, on: bool) -> u32
    requires { k < 32 }
    ensures { Digit k w result (pick on 1 0) }
{
    let d = (w >> k) % 2;
    if on {
        if d == 1 {
            return w;
        }
        return w + (1 << k);
    }
    if d == 0 {
        return w;
    }
    w - (1 << k)
}

// The entries with word j of the map new.
fn with_word(mut es: [Entry; ROOM], j: usize, w: u32) -> [Entry; ROOM]
    requires { j < 28 }
    ensures { (q : ℕ) → map_word result q ≡ pick (eqb q j) w (map_word es q) }
{
    if j % 2 == 0 {
        es[j / 2].key = w;
    } else {
        es[j / 2].val = w;
    }
    es
}

// Page p marked as used, or as free.
pub fn with_mark(es: [Entry; ROOM], p: usize, on: bool) -> [Entry; ROOM]
    requires { p < most_pages }
    ensures { marks result ≡ set (marks es) p on }
{
    let j = p / 32;
    let k = 31 - p % 32;
    let w = with_digit(map_word(es, j), k as u32, on);
    with_word(es, j, w)
}
