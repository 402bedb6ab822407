//! The plain rule as a collector that keeps a stack. Its pushes equal the plain rule of `pc_presentation`, rows of tails
//! included. What a push owes, once its generator's exponent is raised, stands in a frame; a copy that can't be added at
//! once begins a frame of its own, so that nothing recurs. Generators rise from frame to frame, so that there are never more
//! frames than generators and one. Room for them is reserved at first: a push takes no memory and copies no word.
#![tactic(auto)]

mod frame;
pub mod laws;
pub mod stack;
mod steps;

pub use stack::Stack;
