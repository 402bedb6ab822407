//! Certificates as texts: `write` writes the one text of a certificate, and `read` reads it or tells the line of its first fault. What
//! the text of a certificate is, and where a text that is none has its first fault, is said in `specs/`.
#![tactic(auto)]

mod canonical_reading;
pub mod fault;
mod head_reading;
pub mod laws;
mod number_reading;
mod numbers;
mod numbers_reading;
mod overlap_reading;
mod pair_reading;
mod path_reading;
mod presentation_lines;
mod presentation_reading;
mod reading;
mod run_reading;
mod runs_reading;
mod source_lines;
mod source_reading;
mod step_reading;
mod tail_lines;
mod tail_reading;
mod writing;

pub use fault::CertFault;
pub use reading::read;
pub use writing::write;
