//! The collector.

ghost use Rattle.std.specs.Prelude.{◌≡◌, ◌≤◌, ◌<◌, ◌-◌, [], ◌∷◌, ◌++◌, length, replicate, option_to_list, IsTrue, IsFalse, IsNone};
ghost use Rattle.pc_presentation.specs.Collection.{plain_push};
ghost use Rattle.pc_presentation.specs.Tailed.{rowed_presentation, IsElement, with_state};
ghost use Rattle.stack_collector.specs.Frames.{pushed, finished, IsFrame};
ghost use Rattle.stack_collector.specs.Stacks.{IsReady, IsRunning, Continues, HasEnded};

use crate::frame::Frame;
use crate::steps::{Progress, add_copies, begin, run};
use pc_presentation::{Collect, Elem, Pcp, Syllable, add_tail};
use pq_base::NoMemory;
use std::alloc::Global;
use std::marker::Model;

/// The collector that pushes by the plain rule, and keeps a stack of frames, the last of which works in place. There is none between
/// pushes.
#[derive(Debug, Drop)]
pub struct Stack {
    frames: Vec<Frame>,
}

impl Model for Stack {
    ghost use Rattle.std.specs.Prelude.{vec_capacity};
    ghost use Rattle.stack_collector.specs.Stacks.{Frames};

    ghost Value = { Frames };

    ghost view = { λ s. record { frames = s.frames.items; room = vec_capacity s.frames } };
}

impl Collect for Stack {
    ghost use Rattle.pc_presentation.specs.Collection.{plain_push};
    ghost use Rattle.pc_presentation.proofs.quotients.CollectorArithmetic.{plain_rule_is_a_meaning};
    ghost use Rattle.stack_collector.specs.Stacks.{IsReady};

    ghost meaning = { plain_push };

    ghost serves = { IsReady };

    fn fresh(alloc: Global, pcp: &Pcp) -> Result<Stack, NoMemory> {
        let frames = 2 * pcp.rank() as usize + 2;
        Ok(Stack {
            frames: Vec::with_capacity(alloc, frames)?,
        })
    }

    fn push(&mut self, pcp: &Pcp, at: &mut Elem, generator: u16) {
        self.push_copies(pcp, at, generator, 1);
    }

    fn push_word(&mut self, pcp: &Pcp, at: &mut Elem, word: &[Syllable], tail: Option<u16>) {
        for s in word {
            self.push_copies(pcp, at, s.generator, s.exponent);
        }
        add_tail(pcp, at, tail);
    }

    ghost reaches = { plain_rule_is_a_meaning };
}

impl Stack {
    /// Pushes copies of a generator, counted from 1.
    fn push_copies(&mut self, pcp: &Pcp, at: &mut Elem, generator: u16, copies: u8)
        requires ready { IsReady self.old pcp.now.presentation.rank }
        requires element { IsElement pcp.now at.old }
        requires from_one { 1 ≤ generator }
        requires in_range { generator ≤ pcp.now.presentation.rank }
        ensures ready { IsReady self.new pcp.now.presentation.rank }
        ensures element { IsElement pcp.now at.new }
        ensures pushed { at.new ≡ pushed pcp.now at.old (replicate copies (generator - 1)) }
    {
        let mut left = add_copies(pcp, at, generator, copies);
        while left > 0 {
            self.push_one(pcp, at, generator);
            left = add_copies(pcp, at, generator, left - 1);
        }
    }

    /// Pushes a generator, counted from 1, by frames.
    fn push_one(&mut self, pcp: &Pcp, at: &mut Elem, generator: u16)
        requires ready { IsReady self.old pcp.now.presentation.rank }
        requires element { IsElement pcp.now at.old }
        requires from_one { 1 ≤ generator }
        requires in_range { generator ≤ pcp.now.presentation.rank }
        ensures ready { IsReady self.new pcp.now.presentation.rank }
        ensures element { IsElement pcp.now at.new }
        ensures pushed { at.new ≡ with_state at.old (plain_push (rowed_presentation pcp.now) at.old.state (generator - 1)) }
    {
        self.put(begin(pcp, at, generator));
        while self.advance(pcp, at) {}
    }

    /// Does what the last frame owes, up to a push, whose frame becomes the last, or to its end, where the one before it does. The
    /// answer is whether there was a frame.
    fn advance(&mut self, pcp: &Pcp, at: &mut Elem) -> bool
        requires running { IsRunning pcp.now self.old at.old }
        ensures on { IsTrue result → Continues pcp.now self.old at.old self.new at.new }
        ensures end { IsFalse result → HasEnded pcp.now self.old at.old self.new at.new }
    {
        if self.frames.is_empty() {
            return false;
        }
        let last = self.frames.len() - 1;
        match run(pcp, at, &mut self.frames[last]) {
            Progress::Within => (),
            Progress::Push(generator) => self.put(begin(pcp, at, generator)),
            Progress::Done => self.frames.truncate(last),
        }
        true
    }

    /// Puts a frame behind the last. Takes no memory.
    fn put(&mut self, frame: Frame)
        requires room { length self.old.frames < self.old.room }
        ensures frames { self.new.frames ≡ self.old.frames ++ frame ∷ [] }
        ensures room { self.old.room ≤ self.new.room }
    {
        self.frames.push_reserved(frame);
    }
}
