// An answer as numbers: 0 or the refusal's number, then its values.
#![tactic(auto)]

ghost use Rattle.std.specs.Prelude.{◌≡◌};
ghost use Rattle.def_model.specs.Answers as model;
ghost use Rattle.face_answers.specs.Numbered.{Numbered};

use def_model::Answer;

// What a call returns to C: 0 or the refusal's number, then the two values, 0 where there is none.
#[derive(Clone, Copy, Debug, PartialEq, Eq, Default)]
pub struct Numbers {
    pub reason: u32,
    pub first: u32,
    pub second: u32,
}

impl From<Answer> for Numbers {
    ghost from_gives = { Numbered };

    #[tactic(auto, unfolding(def_model::specs::Answers::answer_numbers))]
    fn from(a: Answer) -> Numbers {
        match a {
            Answer::Done => Numbers::default(),
            Answer::Number(n) => Numbers {
                first: n,
                ..Numbers::default()
            },
            Answer::Pair(x, y) => Numbers {
                reason: 0,
                first: x,
                second: y,
            },
            Answer::Refused(r) => Numbers {
                reason: u32::from(r),
                ..Numbers::default()
            },
        }
    }
}
