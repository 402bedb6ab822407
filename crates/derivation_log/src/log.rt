//! What is told of each step.

ghost use Rattle.std.specs.Prelude.{◌≡◌, ◌+◌, Bool, false, List, length, IsOk, OnOk, OnErr};
ghost use Rattle.derivation_log.specs.declared.source.Run.{Run};
ghost use Rattle.derivation_log.specs.HeldSteps.{HeldStep, told_step, other_run, KeepsOneMore, KeepsTheSame, NoSteps};

use crate::source::{RowSource, Run};
use fp_echelon::Basis;
use pq_base::NoMemory;

/// What is told of the steps of a computation, one after the other.
///
/// A log that keeps steps holds a list of them for each run. Which list that is may depend on what the log doesn't store: such a
/// log keeps each list that it could have been told.
pub trait Log {
    /// Whether the steps that it is told of are over all tails and all overlaps, or over those alone whose weights leave room for a
    /// generator of the next class.
    const FULL: bool;

    ghost FULL: { Bool };

    /// Whether the log keeps these steps of a run.
    ghost keeps: { Self → Run → List HeldStep → Type 0 };

    /// A step of a run to a class: the basis of its rows, and for each row that was added to it, in order, what the row comes
    /// from. Where the log keeps steps, the class is one more than the number of those of this run.
    ///
    /// The step is appended to the steps of its run. Those of the other run stay, and after a refusal all do.
    fn step(
        &mut self,
        run: Run,
        class: u8,
        sources: &[RowSource],
        basis: &Basis,
    ) -> Result<(), NoMemory>
        requires sources { length sources.now ≡ length basis.now.added }
        requires class { (steps : List HeldStep) → keeps self.old run steps → class ≡ length steps + 1 }
        ensures kept { OnOk result (KeepsOneMore (keeps self.old run) (keeps self.new run) (told_step sources.now basis.now)) }
        ensures other { OnOk result (KeepsTheSame (keeps self.old (other_run run)) (keeps self.new (other_run run))) }
        ensures refused { OnErr result ((r : Run) → KeepsTheSame (keeps self.old r) (keeps self.new r)) };
}

/// A log that keeps nothing. It never fails. Steps may be cut by weight.
#[derive(Clone, Copy, Debug, PartialEq, Eq)]
pub struct NoLog;

impl Log for NoLog {
    const FULL: bool = false;

    ghost FULL = { false };

    ghost keeps = { λ log run. NoSteps };

    fn step(
        &mut self,
        _run: Run,
        _class: u8,
        sources: &[RowSource],
        basis: &Basis,
    ) -> Result<(), NoMemory>
        ensures never_fails { IsOk result }
        ensures kept { OnOk result (KeepsOneMore NoSteps NoSteps (told_step sources.now basis.now)) }
        ensures other { OnOk result (KeepsTheSame NoSteps NoSteps) }
        ensures refused { OnErr result ((r : Run) → KeepsTheSame NoSteps NoSteps) }
    {
        Ok(())
    }
}
