// A command and its answer as the line that the console prints.
#![tactic(auto)]

ghost use Rattle.std.specs.Prelude.{◌≡◌, [], ◌∷◌, ◌+◌, ◌≤◌, ◌<◌, length};
ghost use Rattle.face_text.specs.Texts as texts;
ghost use Rattle.face_text.specs.Puts.{Puts};

use codec_bytes::copy_part;
use def_model::Answer;
use face_answers::Numbers;
use face_command::Command;

// A line takes at most these bytes: a letter, three numbers of up to 10 digits, each after a space, and an end.
pub const LONGEST: usize = 35;

// 01's letter of a command; '?' of any other line.
#[tactic(auto, unfolding(crate::specs::Texts::letter))]
fn letter_of(c: Command) -> u8
    ensures { result ≡ texts.letter c }
{
    match c {
        Command::Begin => b'B',
        Command::Insert { .. } => b'I',
        Command::Delete { .. } => b'D',
        Command::Fetch { .. } => b'F',
        Command::Next { .. } => b'N',
        Command::Commit { .. } => b'C',
        Command::Abort { .. } => b'A',
        Command::WriteOut { .. } => b'W',
        Command::Cut => b'X',
        Command::Other => b'?',
    }
}

// One byte after the `n` that stand in `out`. The answer is how many stand there then.
fn put(out: &mut [u8], n: usize, x: u8) -> usize
    requires { n < length out.old }
    ensures { (result ≡ n + 1) × Puts out.old n out.new result (x ∷ []) }
{
    out[n] = x;
    n + 1
}

// A space and a number.
fn put_number(out: &mut [u8], n: usize, x: u32) -> usize
    requires { n + 11 ≤ length out.old }
    ensures { (result ≤ n + 11) × Puts out.old n out.new result (texts.number_text x) }
{
    let mut digits = [0u8; 20];
    let k = io::decimal(x as u64, &mut digits);
    let m = put(out, n, b' ');
    copy_part(out, m, &digits[..k], 0, k);
    m + k
}

// 0 or the refusal, then any answers.
fn put_answer(out: &mut [u8], n: usize, a: Answer) -> usize
    requires { n + 33 ≤ length out.old }
    ensures { (result ≤ n + 33) × Puts out.old n out.new result (texts.answer_text a) }
{
    let m = put_number(out, n, Numbers::from(a).reason);
    match a {
        Answer::Done => m,
        Answer::Number(x) => put_number(out, m, x),
        Answer::Pair(x, y) => {
            let k = put_number(out, m, x);
            put_number(out, k, y)
        }
        Answer::Refused(_) => m,
    }
}

// The whole line.
pub fn put_line(out: &mut [u8], n: usize, c: Command, a: Answer) -> usize
    requires { n + 35 ≤ length out.old }
    ensures { (result ≤ n + 35) × Puts out.old n out.new result (texts.line_text c a) }
{
    let x = letter_of(c);
    let m = put(out, n, x);
    if x == b'?' {
        return put(out, m, b'\n');
    }
    let k = put_answer(out, m, a);
    put(out, k, b'\n')
}
