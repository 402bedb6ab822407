//! What is proved of the collector for all presentations. The function does nothing: it states a law as its clause.

ghost use Rattle.std.specs.Prelude.{◌≡◌, ℕ};
ghost use Rattle.pc_presentation.specs.Rowed.{RowedPresentation};
ghost use Rattle.pc_presentation.specs.Collection.{State, plain_push};

use crate::Stack;
use pc_presentation::Collect;

/// What a push of this collector makes is what the plain rule makes, exponents and rows of tails alike, also where the
/// presentation is not consistent. So each clause of the arithmetic over it speaks of the plain rule.
pub fn pushes_are_those_of_the_plain_rule()
    ensures { (Y : RowedPresentation) (s : State) (i : ℕ) → ⟦<Stack as Collect>⟧.meaning Y s i ≡ plain_push Y s i }
{}
