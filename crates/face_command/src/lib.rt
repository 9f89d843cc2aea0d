// A line of the console: read byte by byte, so that it may be of any length, and taken as a command.
#![tactic(auto)]

ghost use Rattle.std.specs.Prelude.{◌≡◌};
ghost use Rattle.face_command.specs.Lines as lines;
ghost use Rattle.face_command.specs.Commands as commands;

// The numbers of a line. No command has more than three.
#[derive(Clone, Copy, Debug, PartialEq, Eq)]
pub enum Arguments {
    Zero,
    One(u32),
    Two(u32, u32),
    Three(u32, u32, u32),
}

// What has been read of a line: nothing; a letter and numbers, the last of which may go on; these and a space, after which a number comes;
// or what is no command, whatever comes.
#[derive(Clone, Copy, Debug, PartialEq, Eq, Default)]
pub enum Line {
    #[default]
    Start,
    Read { letter: u32, numbers: Arguments },
    Spaced { letter: u32, numbers: Arguments },
    Broken,
}

// 01: "B begin; I, D, F, N insert, delete, fetch, next, with batch and key (I also value); C commit and A abort, with batch; W write-out,
// with page; X cut and restart." Other is any other line.
#[derive(Clone, Copy, Debug, PartialEq, Eq)]
pub enum Command {
    Begin,
    Insert { batch: u32, key: u32, value: u32 },
    Delete { batch: u32, key: u32 },
    Fetch { batch: u32, key: u32 },
    Next { batch: u32, key: u32 },
    Commit { batch: u32 },
    Abort { batch: u32 },
    WriteOut { page: u32 },
    Cut,
    Other,
}

const SPACE: u32 = 32;

// A line of which nothing has been read.
pub fn new_line() -> Line
    ensures { result ≡ lines.start }
{
    Line::default()
}

#[tactic(auto, unfolding(crate::specs::Lines::letter_step))]
fn letter_step(x: u32) -> Line
    ensures { result ≡ lines.letter_step x }
{
    if x == SPACE {
        Line::Broken
    } else {
        Line::Read {
            letter: x,
            numbers: Arguments::Zero,
        }
    }
}

// A digit's value.
#[tactic(auto, unfolding(crate::specs::Lines::digit_of))]
fn digit_of(x: u32) -> Option<u32>
    ensures { result ≡ lines.digit_of x }
{
    match x {
        48..=57 => Some(x - 48),
        _ => None,
    }
}

// A number with a digit more, up to 4,294,967,295.
#[tactic(auto, unfolding(crate::specs::Lines::grown))]
fn grown(c: u32, d: u32) -> Option<u32>
    ensures { result ≡ lines.grown c d }
{
    c.checked_mul(10)?.checked_add(d)
}

// A number begins.
#[tactic(auto, unfolding(crate::specs::Lines::first_digit))]
fn first_digit(letter: u32, numbers: Arguments, d: u32) -> Line
    ensures { result ≡ lines.first_digit letter numbers d }
{
    let numbers = match numbers {
        Arguments::Zero => Arguments::One(d),
        Arguments::One(c) => Arguments::Two(c, d),
        Arguments::Two(b, c) => Arguments::Three(b, c, d),
        Arguments::Three(_, _, _) => return Line::Broken,
    };
    Line::Read { letter, numbers }
}

// The last number goes on.
#[tactic(auto, unfolding(crate::specs::Lines::more_digit))]
fn more_digit(letter: u32, numbers: Arguments, d: u32) -> Line
    ensures { result ≡ lines.more_digit letter numbers d }
{
    let more = match numbers {
        Arguments::Zero => None,
        Arguments::One(c) => grown(c, d).map(Arguments::One),
        Arguments::Two(b, c) => grown(c, d).map(|c| Arguments::Two(b, c)),
        Arguments::Three(a, b, c) => grown(c, d).map(|c| Arguments::Three(a, b, c)),
    };
    match more {
        Some(numbers) => Line::Read { letter, numbers },
        None => Line::Broken,
    }
}

// One byte more of a line. It is taken as a number of 32 bits, for this answers for every one.
#[tactic(auto, unfolding(crate::specs::Lines::step, crate::specs::Lines::read_step, crate::specs::Lines::spaced_step))]
pub fn step(l: Line, x: u32) -> Line
    ensures { result ≡ lines.step l x }
{
    match l {
        Line::Start => letter_step(x),
        Line::Read { letter, numbers } => match digit_of(x) {
            Some(d) => more_digit(letter, numbers, d),
            None if x == SPACE => Line::Spaced { letter, numbers },
            None => Line::Broken,
        },
        Line::Spaced { letter, numbers } => match digit_of(x) {
            Some(d) => first_digit(letter, numbers, d),
            None => Line::Broken,
        },
        Line::Broken => Line::Broken,
    }
}

#[tactic(auto, unfolding(crate::specs::Commands::alone))]
fn alone(letter: u32) -> Command
    ensures { result ≡ commands.alone letter }
{
    match u8::try_from(letter) {
        Ok(b'B') => Command::Begin,
        Ok(b'X') => Command::Cut,
        _ => Command::Other,
    }
}

#[tactic(auto, unfolding(crate::specs::Commands::with_one))]
fn with_one(letter: u32, c: u32) -> Command
    ensures { result ≡ commands.with_one letter c }
{
    match u8::try_from(letter) {
        Ok(b'C') => Command::Commit { batch: c },
        Ok(b'A') => Command::Abort { batch: c },
        Ok(b'W') => Command::WriteOut { page: c },
        _ => Command::Other,
    }
}

#[tactic(auto, unfolding(crate::specs::Commands::with_two))]
fn with_two(letter: u32, b: u32, c: u32) -> Command
    ensures { result ≡ commands.with_two letter b c }
{
    match u8::try_from(letter) {
        Ok(b'D') => Command::Delete { batch: b, key: c },
        Ok(b'F') => Command::Fetch { batch: b, key: c },
        Ok(b'N') => Command::Next { batch: b, key: c },
        _ => Command::Other,
    }
}

#[tactic(auto, unfolding(crate::specs::Commands::with_three))]
fn with_three(letter: u32, a: u32, b: u32, c: u32) -> Command
    ensures { result ≡ commands.with_three letter a b c }
{
    match u8::try_from(letter) {
        Ok(b'I') => Command::Insert {
            batch: a,
            key: b,
            value: c,
        },
        _ => Command::Other,
    }
}

// What a line that has been read to its end says.
#[tactic(auto, unfolding(crate::specs::Commands::command, crate::specs::Commands::by_numbers))]
pub fn command_of(l: Line) -> Command
    ensures { result ≡ commands.command l }
{
    let Line::Read { letter, numbers } = l else {
        return Command::Other;
    };
    match numbers {
        Arguments::Zero => alone(letter),
        Arguments::One(c) => with_one(letter, c),
        Arguments::Two(b, c) => with_two(letter, b, c),
        Arguments::Three(a, b, c) => with_three(letter, a, b, c),
    }
}
