//! Rows of relators. The images of the given generators map the free group onto an answer's group, and their lifts map it
//! into a cover. A relator that dies in the answer has in the cover a value in the tails alone: its row, which the next
//! answer has to kill. `relator_row` finds it over any collector, and `row_along` that of a relator carried along
//! endomorphisms; `laws` states that consistent answers decide which words have rows, and that rows of two collectors differ
//! by trivial ones.
#![tactic(auto)]

pub mod along;
pub mod laws;
pub mod relator;
pub mod work;

pub use along::row_along;
pub use relator::relator_row;
pub use work::Work;
