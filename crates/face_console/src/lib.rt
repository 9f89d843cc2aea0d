// The console's session: one command a line, carried out, and one line for each; all but the reading and the writing. The four areas stay
// four parameters: a struct of them is no plainer, for each call of the register is lent each area apart, as its type says which it changes.
#![tactic(auto)]

ghost use Rattle.std.specs.Prelude.{◌≡◌, ◌+◌, ◌*◌, ◌≤◌, length};
ghost use Rattle.io.specs.Counts.{IsPrefixLen};
ghost use Rattle.def_layout.specs.Desks.{empty_desk};
ghost use Rattle.area_lengths.specs.Lent.{lent};
ghost use Rattle.face_command.specs.declared.Command.TheVariants.{Cut};
ghost use Rattle.face_command.specs.Lines.{start};
ghost use Rattle.face_console.specs.Obeyed.{Obeyed};
ghost use Rattle.face_console.specs.Session.{formatted};
ghost use Rattle.face_console.specs.Hearing.{listening, hear_line, hear_byte, hear, hear_end};
ghost use Rattle.face_console.specs.Hears.{stands, Hears};

use call_reply::Reply;
use codec_bytes::zero;
use codec_desk::idle_desk;
use def_layout::Desk;
use def_model::Answer;
use face_command::{Command, Line, command_of, new_line, step};
use face_text::put_line;

// What the console knows between two bytes: the line so far, the desk, and how many bytes are to be printed.
#[derive(Clone, Copy, Debug, PartialEq, Eq)]
pub struct Heard {
    pub line: Line,
    pub desk: Desk,
    pub said: usize,
}

fn cut_and_restart(wp: &mut [u8], sp: &mut [u8], wl: &mut [u8], sl: &mut [u8]) -> Reply
    ensures { Obeyed Cut (lent wp.old sp.old wl.old sl.old) empty_desk result (lent wp.new sp.new wl.new sl.new) }
{
    zero(wp);
    zero(wl);
    call_register::restart(wp, sp, wl, sl, idle_desk(0))
}

// A command carried out.
fn obey(wp: &mut [u8], sp: &mut [u8], wl: &mut [u8], sl: &mut [u8], d: Desk, c: Command) -> Reply
    ensures { Obeyed c (lent wp.old sp.old wl.old sl.old) d result (lent wp.new sp.new wl.new sl.new) }
{
    match c {
        Command::Begin => call_register::begin(wp, sp, wl, sl, d),
        Command::Insert { batch, key, value } => call_register::insert(
            wp, sp, wl, sl, d, batch, key, value,
        ),
        Command::Delete { batch, key } => call_register::delete(wp, sp, wl, sl, d, batch, key),
        Command::Fetch { batch, key } => call_register::fetch(wp, sp, wl, sl, d, batch, key),
        Command::Next { batch, key } => call_register::next(wp, sp, wl, sl, d, batch, key),
        Command::Commit { batch } => call_register::commit(wp, sp, wl, sl, d, batch),
        Command::Abort { batch } => call_register::abort(wp, sp, wl, sl, d, batch),
        Command::WriteOut { page } => call_register::write_out(wp, sp, wl, sl, d, page),
        Command::Cut => cut_and_restart(wp, sp, wl, sl),
        Command::Other => Reply {
            answer: Answer::Done,
            desk: d,
        },
    }
}

// A whole line: carried out, and its answer put into `out`.
fn hear_line(
    wp: &mut [u8],
    sp: &mut [u8],
    wl: &mut [u8],
    sl: &mut [u8],
    h: Heard,
    out: &mut [u8],
) -> Heard
    requires { h.said + 35 ≤ length out.old }
    ensures { (result.said ≤ h.said + 35) × Hears (hear_line (stands (lent wp.old sp.old wl.old sl.old) h)) (lent wp.new sp.new wl.new sl.new) result out.old h.said out.new }
{
    let c = command_of(h.line);
    let y = obey(wp, sp, wl, sl, h.desk, c);
    let said = put_line(out, h.said, c, y.answer);
    Heard {
        line: new_line(),
        desk: y.desk,
        said,
    }
}

// One byte: a line's end, or one more of the line.
fn hear_byte(
    wp: &mut [u8],
    sp: &mut [u8],
    wl: &mut [u8],
    sl: &mut [u8],
    h: Heard,
    x: u8,
    out: &mut [u8],
) -> Heard
    requires { h.said + 35 ≤ length out.old }
    ensures { (result.said ≤ h.said + 35) × Hears (hear_byte x (stands (lent wp.old sp.old wl.old sl.old) h)) (lent wp.new sp.new wl.new sl.new) result out.old h.said out.new }
{
    if x == b'\n' {
        return hear_line(wp, sp, wl, sl, h, out);
    }
    Heard {
        line: step(h.line, x as u32),
        ..h
    }
}

// Many bytes, and all that is to be printed for them.
pub fn hear_bytes(
    wp: &mut [u8],
    sp: &mut [u8],
    wl: &mut [u8],
    sl: &mut [u8],
    h: Heard,
    text: &[u8],
    out: &mut [u8],
) -> Heard
    requires { 35 * length text.now ≤ length out.old }
    ensures { IsPrefixLen result.said out.new × Hears (hear text.now (stands (lent wp.old sp.old wl.old sl.old) h)) (lent wp.new sp.new wl.new sl.new) result out.old 0 out.new }
{
    let mut now = Heard { said: 0, ..h };
    for x in text {
        now = hear_byte(wp, sp, wl, sl, now, *x, out);
    }
    now
}

// The last line may have no end.
pub fn end(
    wp: &mut [u8],
    sp: &mut [u8],
    wl: &mut [u8],
    sl: &mut [u8],
    h: Heard,
    out: &mut [u8],
) -> Heard
    requires { 35 ≤ length out.old }
    ensures { IsPrefixLen result.said out.new × Hears (hear_end (stands (lent wp.old sp.old wl.old sl.old) h)) (lent wp.new sp.new wl.new sl.new) result out.old 0 out.new }
{
    let last = Heard { said: 0, ..h };
    if last.line == Line::Start {
        return last;
    }
    hear_line(wp, sp, wl, sl, last, out)
}

// A new register, and nothing read yet.
pub fn begun(wp: &mut [u8], sp: &mut [u8], wl: &mut [u8], sl: &mut [u8]) -> Heard
    ensures { stands (lent wp.new sp.new wl.new sl.new) result ≡ listening (formatted (lent wp.old sp.old wl.old sl.old)) start }
{
    let y = call_register::format(wp, sp, wl, sl, idle_desk(0));
    Heard {
        line: new_line(),
        desk: y.desk,
        said: 0,
    }
}
