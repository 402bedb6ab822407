//! The tower: the largest quotients of a presented group, class after class. The rows of one class, of its overlaps and of relators
//! by number, are found and inserted one after the other. Where iterated relators are carried along endomorphisms, few of them are
//! recorded in each class, which say as much as all. A log says whether each class has all tails and tests all overlaps, or those
//! alone whose weights leave room for a generator of the next class; the quotients meet the same clauses.
#![tactic(auto)]

pub mod ascent;
mod classes;
mod closing;
mod finding;
mod kinds;
pub mod laws;
mod lifts;
mod overlaps;
pub mod refusal;
pub mod relator;
mod relators;
mod rows;
pub mod runs;
mod spun_classes;
pub mod whole;

pub use ascent::ascending;
pub use refusal::TowerRefusal;
pub use relator::Relator;
pub use runs::finite;
pub use whole::{largest, with_fixed};
