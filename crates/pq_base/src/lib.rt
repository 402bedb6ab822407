//! The base of the engine: prime fields, names, limits and statuses. Its `specs/` hold the definitions that every
//! theorem of the engine rests on: signed words, L-presentations, group tables, presentations, answers, and what makes
//! an answer the largest quotient. `laws` states what is proved of these definitions alone.
#![tactic(auto)]

pub mod class_one;
pub mod decimal;
pub mod laws;
pub mod limits;
pub mod name;
pub mod path;
pub mod prime;
pub mod refusal;
pub mod status;

pub use decimal::push_number;
pub use name::{Name, names_copied};
pub use path::Path;
pub use prime::Prime;
pub use refusal::NoMemory;
pub use status::Status;
