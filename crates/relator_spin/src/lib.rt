//! The closure of a span of rows under matrices. `close` adds rows and all their images under products of the matrices to a basis,
//! and says of each row that it added which given row it is, times which matrices. The rows are those of the iterated relators of
//! an L-presentation and the matrices those of its endomorphisms, so that finitely many rows stand for infinitely many relators.
#![tactic(auto)]

mod closing;
mod insertion;
mod spun;
mod work;

pub use closing::close;
pub use spun::Spun;
