//! An answer in the making.

use pc_presentation::Answer;
use std::marker::Model;

/// The answer that the steps of a run have built so far, and whether the last of them kept no tail.
#[derive(Drop)]
pub(crate) struct Built {
    pub(crate) answer: Answer,
    pub(crate) stopped: bool,
}

impl Model for Built {
    ghost use Rattle.cert_checker.specs.Judging.{BuiltSoFar};

    ghost Value = { BuiltSoFar };

    ghost view = { λ b. record { answer = b.answer; stopped = b.stopped } };
}
