// What a call answers, and how that and what it leaves are compared with the definitions.
#![tactic(auto)]

ghost use Rattle.std.specs.Prelude.{◌≡◌};
ghost use Rattle.def_model.specs.declared.Answer.TheVariants.{Refused};

use def_layout::Desk;
use def_model::{Answer, Refusal};

// An answer, and the desk that goes with it.
#[derive(Clone, Copy, Debug, PartialEq, Eq)]
pub struct Reply {
    pub answer: Answer,
    pub desk: Desk,
}

// A refusal, which leaves the desk as it is.
pub fn refused(r: Refusal, d: Desk) -> Reply
    ensures { (result.answer ≡ Refused r) × (result.desk ≡ d) }
{
    Reply {
        answer: Answer::Refused(r),
        desk: d,
    }
}
