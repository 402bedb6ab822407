//! The checker of certificates. It stands on presentations, covers, the rows of relators in them, the builder of a next answer and the
//! plain collector, and takes nothing else from the engine that finds largest quotients: no basis, no closure, no search. `check` gives
//! the answer of a valid certificate, and of any other the first part that fails. Where a call's result isn't used, as in
//! `let _names = pres.names()`, the call is made for what its contract says of the value.
#![tactic(auto)]

mod bench;
mod built;
mod carried;
pub mod checking;
mod combining;
mod endos;
mod equal;
mod judged;
mod kept;
mod maps;
mod overlap_rows;
mod overlaps;
pub mod refusal;
mod rows;
mod run;
mod satisfied;
mod source_rows;
mod step;
mod sums;
mod tools;
mod values;

pub use checking::check;
pub use derivation_log::Part;
pub use refusal::CheckRefusal;
