//! Frames: what a push that was begun still owes.

ghost use Rattle.std.specs.Prelude.{◌≡◌, ◌≤◌, ◌<◌, ℕ, get_or, length};
ghost use Rattle.pc_presentation.specs.Pcp.{IsTailedPresentation};
ghost use Rattle.pc_presentation.specs.Collection.{plain_push};
ghost use Rattle.stack_collector.specs.Frames.{pushed, finished, IsFrame};
ghost use Rattle.stack_collector.specs.FrameSteps.{GoesOn};

use pc_presentation::{Pcp, Relation};
use pq_base::limits::RANK;

/// What a push of a generator still owes, once its exponent is raised. Generators count from 1. First come copies of a
/// letter, then what is left of the word of a relation, then the later letters that were set aside, each to be passed.
#[derive(Clone, Copy, Debug)]
pub(crate) struct Frame {
    /// The generator that was pushed.
    pub(crate) generator: u16,
    /// Copies of this letter are to be pushed first.
    pub(crate) letter: u16,
    pub(crate) copies: u8,
    /// The relation, the number of the first syllable of its word that is still to be pushed, and how many the word has.
    pub(crate) relation: Relation,
    pub(crate) place: usize,
    pub(crate) syllables: usize,
    /// So many copies of generator `next` are to be passed, and then the letters after it.
    pub(crate) next: u16,
    pub(crate) times: u8,
    /// The exponents that were set aside, at their places, before place `end`.
    pub(crate) later: [u8; RANK],
    pub(crate) end: u16,
}

impl Frame {
    /// Takes the next exponent that was set aside and isn't 0, or the last.
    pub(crate) fn take_exponent(&mut self, pcp: &Pcp)
        requires presentation { IsTailedPresentation pcp.now }
        requires frame { IsFrame pcp.now self.old }
        requires none_before { self.old.times ≡ 0 }
        requires more { self.old.next < self.old.end }
        ensures on { GoesOn pcp.now self.old self.new }
        ensures copies { self.new.copies ≡ self.old.copies }
        ensures place { self.new.place ≡ self.old.place }
        ensures syllables { self.new.syllables ≡ self.old.syllables }
    {
        let place = self.next_place();
        self.times = self.later[place as usize];
        self.next = place + 1;
    }

    /// The place of the next exponent that was set aside and isn't 0, or of the last.
    fn next_place(&self) -> u16
        requires more { self.now.next < self.now.end }
        requires saved { self.now.end ≤ length self.now.later }
        ensures from { self.now.next ≤ result }
        ensures before_end { result < self.now.end }
        ensures zeros { (k : ℕ) → self.now.next ≤ k → k < result → get_or self.now.later k 0 ≡ 0 }
    {
        let mut place = self.next;
        while place + 1 < self.end && self.later[place as usize] == 0 {
            place += 1;
        }
        place
    }
}
