//! Power-commutator presentations and answers as values, and the theory of collection. A `Pcp` keeps that its relations
//! are those of a presentation, each with a tail or none; a `PcpBuilder` makes one, relation by relation; an `Answer`
//! keeps the conditions of an answer. Contracts see each of them as a record of lists, in which a word is the list of the
//! exponents of its generators. `arithmetic` computes with elements over any collector. The `specs/` also say what a
//! directed step, the plain rule and an overlap are; `laws` states what is proved of them: where overlaps agree the
//! presentation is consistent, and normal words form a group. `rowed_laws` are those of presentations with rows, consistent
//! or not, `cut_laws` those of presentations cut after some generator, and `laws_of_pushes` say which pushes of the plain
//! rule may be taken together.
#![tactic(auto)]

pub mod answer;
pub mod arithmetic;
pub mod builder;
pub mod collect;
pub mod commutes;
mod copies;
pub mod cut_laws;
pub mod definition;
pub mod elem;
pub mod laws;
pub mod laws_of_pushes;
pub mod overlap;
mod parts;
pub mod pcp;
mod pushing;
pub mod relation;
pub mod rowed_laws;
pub mod scratch;
mod store;
pub mod syllable;
pub mod tails;

pub use answer::Answer;
pub use arithmetic::{commutator, evaluate, inverse, power, product, value};
pub use builder::{PcpBuilder, PcpRefusal};
pub use collect::Collect;
pub use commutes::commutes_with_later;
pub use definition::Definition;
pub use elem::Elem;
pub use overlap::{Overlap, two_ways};
pub use pcp::Pcp;
pub use relation::Relation;
pub use scratch::Scratch;
pub use syllable::Syllable;
pub use tails::{add_tail, add_tail_times};
