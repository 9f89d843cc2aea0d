// Bytes of a lent area: numbers read and written, parts copied, cleared and compared.
//
// Every store is said as a patch: the area as it was, with new bytes from one place on. Whoever writes to an area cites the laws of
// `patch` and never a store of a single byte.
#![tactic(auto)]

ghost use Rattle.std.specs.Prelude.{◌≡◌, ◌+◌, ◌≤◌, length};
ghost use Rattle.def_layout.specs.Numbers.{be32, put32, same_bytes, zeros};
ghost use Rattle.law_bytes.specs.Words.{part};
ghost use Rattle.law_bytes.specs.Patch.{patch};

pub fn get32(s: &[u8], i: usize) -> u32
    requires { i + 4 ≤ length s.now }
    ensures { result ≡ be32 s.now i }
{
    u32::from_be_bytes([s[i], s[i + 1], s[i + 2], s[i + 3]])
}

pub fn set32(s: &mut [u8], i: usize, x: u32)
    requires { i + 4 ≤ length s.old }
    ensures { s.new ≡ patch s.old i (put32 x) }
{
    s[i..i + 4].copy_from_slice(&x.to_be_bytes());
}

// All of `dst` becomes `src`, which is as long. `copy_from_slice` was tried: it takes 1.6 times the instructions at a page, and four times at an area.
pub fn copy(dst: &mut [u8], src: &[u8])
    requires { length dst.old ≡ length src.now }
    ensures { dst.new ≡ src.now }
{
    for (i, x) in src.iter().enumerate() {
        dst[i] = *x;
    }
}

// The `n` bytes of `src` from `b` on go to `dst` from `a` on.
pub fn copy_part(dst: &mut [u8], a: usize, src: &[u8], b: usize, n: usize)
    requires { (a + n ≤ length dst.old) × (b + n ≤ length src.now) }
    ensures { dst.new ≡ patch dst.old a (part src.now b n) }
{
    copy(&mut dst[a..a + n], &src[b..b + n]);
}

pub fn zero(dst: &mut [u8])
    ensures { dst.new ≡ zeros (length dst.old) }
{
    dst.fill(0);
}

// Whether two areas hold the same bytes.
pub fn same(s: &[u8], t: &[u8]) -> bool
    ensures { result ≡ same_bytes s.now t.now }
{
    s == t
}

pub fn same_part(s: &[u8], a: usize, t: &[u8], b: usize, n: usize) -> bool
    requires { (a + n ≤ length s.now) × (b + n ≤ length t.now) }
    ensures { result ≡ same_bytes (part s.now a n) (part t.now b n) }
{
    same(&s[a..a + n], &t[b..b + n])
}

// Whether all bytes are zero. No byte ends it early, so that many are tested at a time: one that ends early takes six times the instructions at 128 bytes, ten at an area.
pub fn is_zero(s: &[u8]) -> bool
    ensures { result ≡ same_bytes (zeros (length s.now)) s.now }
{
    s.iter().fold(true, |clear, x| clear & (*x == 0))
}
