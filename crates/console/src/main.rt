// The console: 64 pages and 160 slots, formatted; then one command a line from standard input, to its end, and one line for each. A read or a write
// that fails ends it, with the error.
#![tactic(auto)]

ghost use Rattle.std.specs.Prelude.{◌≡◌, ◌≤◌, length, IfOk, OnOk};
ghost use Rattle.std.specs.Io.KnownBytes.{Appends};
ghost use Rattle.area_lengths.specs.Lent.{lent};
ghost use Rattle.face_console.specs.Hearing.{hear};
ghost use Rattle.face_console.specs.Hears.{stands};

use face_console::{Heard, begun, end, hear_bytes};
use face_text::LONGEST;
use std::io;
use std::io::{Read, Write};

// Bytes that are read at once, and what may have to be printed for them: each may end a line.
const READ: usize = 512;

const PRINTED: usize = READ * LONGEST;

// What was read is heard, and what is to be printed for it is written. Where that fails, the areas still are as what was heard left them.
fn hear_read<W: Write>(
    wp: &mut [u8],
    sp: &mut [u8],
    wl: &mut [u8],
    sl: &mut [u8],
    h: Heard,
    text: &[u8],
    output: &mut W,
) -> io::Result<Heard>
    requires { length text.now ≤ 512 }
    ensures stands { IfOk result (λ y. stands (lent wp.new sp.new wl.new sl.new) y ≡ (hear text.now (stands (lent wp.old sp.old wl.old sl.old) h)).left) }
    ensures areas { lent wp.new sp.new wl.new sl.new ≡ (hear text.now (stands (lent wp.old sp.old wl.old sl.old) h)).left.world.areas }
    ensures printed { OnOk result (Appends (W.contents output.old) (W.contents output.new) (hear text.now (stands (lent wp.old sp.old wl.old sl.old) h)).text) }
{
    let mut out = [0u8; PRINTED];
    let y = hear_bytes(wp, sp, wl, sl, h, text, &mut out);
    output.write_all(&out[..y.said])?;
    Ok(y)
}

// One read. None: there was no more.
fn hear_some<R: Read, W: Write>(
    wp: &mut [u8],
    sp: &mut [u8],
    wl: &mut [u8],
    sl: &mut [u8],
    h: Heard,
    input: &mut R,
    output: &mut W,
) -> io::Result<Option<Heard>> {
    let mut text = [0u8; READ];
    let n = input.read(&mut text)?;
    if n == 0 {
        return Ok(None);
    }
    let y = hear_read(wp, sp, wl, sl, h, &text[..n], output)?;
    Ok(Some(y))
}

// Reads until there is no more. The turns are counted, as a proved loop has to end.
fn hear_all<R: Read, W: Write>(
    wp: &mut [u8],
    sp: &mut [u8],
    wl: &mut [u8],
    sl: &mut [u8],
    h: Heard,
    input: &mut R,
    output: &mut W,
) -> io::Result<Heard> {
    let mut now = h;
    for _ in 0..u64::MAX {
        let Some(next) = hear_some(wp, sp, wl, sl, now, input, output)? else {
            break;
        };
        now = next;
    }
    Ok(now)
}

fn listen<R: Read, W: Write>(
    wp: &mut [u8],
    sp: &mut [u8],
    wl: &mut [u8],
    sl: &mut [u8],
    input: &mut R,
    output: &mut W,
) -> io::Result<Heard> {
    let h = begun(wp, sp, wl, sl);
    hear_all(wp, sp, wl, sl, h, input, output)
}

fn run<R: Read, W: Write>(
    wp: &mut [u8],
    sp: &mut [u8],
    wl: &mut [u8],
    sl: &mut [u8],
    input: &mut R,
    output: &mut W,
) -> io::Result<()> {
    let h = listen(wp, sp, wl, sl, input, output)?;
    let mut out = [0u8; LONGEST];
    let y = end(wp, sp, wl, sl, h, &mut out);
    output.write_all(&out[..y.said])
}

fn main(rt: HostRuntime) -> io::Result<()> {
    let mut wp = [0u8; 8192];
    let mut sp = [0u8; 8192];
    let mut wl = [0u8; 23040];
    let mut sl = [0u8; 23040];
    let mut input = rt.stdin();
    let mut output = rt.stdout();
    run(&mut wp, &mut sp, &mut wl, &mut sl, &mut input, &mut output)
}
