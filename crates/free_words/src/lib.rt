//! Words over generators and their inverses, of at most 65,536 letters. Each call gives exactly the word that is
//! defined for it, or says how long that word is. Nothing cancels, but in `reduce_free`.
#![tactic(auto)]

pub mod operations;
mod pieces;
pub mod reduction;
pub mod refusal;
pub mod substitution;
pub mod word;

pub use operations::{commutator, conjugate, extended, extended_by, inverse, power, product};
pub use pieces::push_inverse;
pub use reduction::reduce_free;
pub use refusal::WordRefusal;
pub use substitution::substitute;
pub use word::Word;
