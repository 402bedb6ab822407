//! Why bytes are no answer's text.

ghost use Rattle.std.specs.Prelude.{◌≡◌};
ghost use Rattle.answer_text.specs.declared.fault.AnswerFault.TheVariants.{NoMemory as WantOfMemory};

use pq_base::NoMemory;
use thiserror::Error;

/// Why bytes aren't read as an answer.
#[derive(Clone, Copy, Debug, PartialEq, Eq, Error)]
pub enum AnswerFault {
    /// The bytes are no answer's text, and the first fault is at this line, counted from 1.
    #[error("line {0} of the answer has a fault")]
    Line(u32),
    /// Nothing could be allocated.
    #[error("no memory")]
    NoMemory,
}

impl From<NoMemory> for AnswerFault {
    ghost from_gives = { λ _ e. e ≡ WantOfMemory };

    fn from(_refused: NoMemory) -> AnswerFault {
        AnswerFault::NoMemory
    }
}
