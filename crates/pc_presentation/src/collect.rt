//! What a collector is.

ghost use Rattle.std.specs.Prelude.{◌≡◌, ◌≤◌, ◌<◌, ◌-◌, ℕ, IfOk};
ghost use Rattle.pc_presentation.specs.Syllable.{AreGenerators};
ghost use Rattle.pc_presentation.specs.Relation.{IsTail};
ghost use Rattle.pc_presentation.specs.Rowed.{RowedPresentation, IsRowed};
ghost use Rattle.pc_presentation.specs.Collection.{State, push_configuration};
ghost use Rattle.pc_presentation.specs.Arithmetic.{IsMeaning};
ghost use Rattle.pc_presentation.specs.Tailed.{rowed_presentation, IsElement, with_state, sparse_configuration};

use crate::elem::Elem;
use crate::pcp::Pcp;
use crate::syllable::Syllable;
use pq_base::NoMemory;
use std::alloc::Global;

/// A way of collecting: of pushing generators on elements. Pushes take no memory and cannot fail.
pub trait Collect: Sized {
    /// Which state a push makes of a state and of the place of a generator, counted from 0. It depends on the presentation,
    /// and on nothing that the collector keeps.
    ghost meaning: { RowedPresentation → State → ℕ → State };

    /// Whether the collector was made for so many generators.
    ghost serves: { Self → ℕ → Type 0 };

    /// A collector for a presentation, and for all others of its rank.
    fn fresh(alloc: Global, pcp: &Pcp) -> Result<Self, NoMemory>
        ensures { IfOk result (λ c. serves c pcp.now.presentation.rank) };

    /// Pushes a generator, counted from 1.
    fn push(&mut self, pcp: &Pcp, at: &mut Elem, generator: u16)
        requires serves { serves self.old pcp.now.presentation.rank }
        requires element { IsElement pcp.now at.old }
        requires from_one { 1 ≤ generator }
        requires in_range { generator ≤ pcp.now.presentation.rank }
        ensures serves { serves self.new pcp.now.presentation.rank }
        ensures element { IsElement pcp.now at.new }
        ensures pushed { at.new ≡ with_state at.old (meaning (rowed_presentation pcp.now) at.old.state (generator - 1)) };

    /// Pushes the letters of a word one after the other, and then adds the tail.
    fn push_word(&mut self, pcp: &Pcp, at: &mut Elem, word: &[Syllable], tail: Option<u16>)
        requires serves { serves self.old pcp.now.presentation.rank }
        requires element { IsElement pcp.now at.old }
        requires generators { AreGenerators pcp.now.presentation.rank word.now }
        requires tail { IsTail pcp.now.tails tail }
        ensures serves { serves self.new pcp.now.presentation.rank }
        ensures element { IsElement pcp.now at.new }
        ensures pushed { let Y = rowed_presentation pcp.now in
            at.new ≡ with_state at.old (push_configuration Y (meaning Y) at.old.state (sparse_configuration pcp.now.tails word.now tail)) };

    /// Each state that a push makes is reached by a run of directed steps from the normal word with the generator behind
    /// it. Each step adds the row of its relation.
    ghost reaches: { (Y : RowedPresentation) → IsRowed Y → IsMeaning Y (meaning Y) };
}
