// What a call answers. The numbers of document 01 for each case are in specs/Answers.antt.
#![tactic(auto)]

ghost use Rattle.std.specs.Prelude.{◌≡◌};
ghost use Rattle.def_model.specs.Answers.{refusal_number};

// 01, "Reasons that come from the input" and "Reasons that come from the state"; and those that 02 adds.
#[derive(Clone, Copy, Debug, PartialEq, Eq)]
pub enum Refusal {
    Lengths,
    PageNumber,
    Layout,
    Log,
    Redo,
    Rules,
    ZeroKey,
    ColumnsDiffer,
    NotRising,
    Unsound,
    NoBatch,
    EightOpen,
    Held,
    Present,
    Absent,
    SlotsShort,
    PagesShort,
    AbortStopped,
    NoMark,
}

// The refusal as 01 numbers it.
impl From<Refusal> for u32 {
    ghost from_gives = { λ r n. n ≡ refusal_number r };

    #[tactic(auto, unfolding(crate::specs::Answers::refusal_number))]
    fn from(r: Refusal) -> u32 {
        match r {
            Refusal::Lengths => 1,
            Refusal::PageNumber => 2,
            Refusal::Layout => 3,
            Refusal::Log => 4,
            Refusal::Redo => 5,
            Refusal::Rules => 6,
            Refusal::ZeroKey => 7,
            Refusal::ColumnsDiffer => 8,
            Refusal::NotRising => 9,
            Refusal::Unsound => 11,
            Refusal::NoBatch => 12,
            Refusal::EightOpen => 13,
            Refusal::Held => 14,
            Refusal::Present => 15,
            Refusal::Absent => 16,
            Refusal::SlotsShort => 17,
            Refusal::PagesShort => 18,
            Refusal::AbortStopped => 19,
            Refusal::NoMark => 20,
        }
    }
}

// Done, with no, one or two numbers, or refused.
#[derive(Clone, Copy, Debug, PartialEq, Eq)]
pub enum Answer {
    Done,
    Number(u32),
    Pair(u32, u32),
    Refused(Refusal),
}
