//! Logs of computations: which row each step of a tower adds to its basis. `Log` is told of each step; `NoLog` keeps nothing. A
//! certificate, `Cert`, holds the steps of a computation with its answer: which certificates are valid, and which part of one fails
//! first, is defined here.
#![tactic(auto)]

pub mod certificate;
pub mod counts;
mod forms;
pub mod full_log;
pub mod laws;
mod lines;
pub mod log;
pub mod part;
pub mod source;
pub mod step_lines;
pub mod tail_line;

pub use certificate::Cert;
pub use counts::RowCounts;
pub use forms::{has_two_runs, is_next_tail_line, is_source_in};
pub use full_log::FullLog;
pub use log::{Log, NoLog};
pub use part::Part;
pub use source::{RowSource, Run};
pub use step_lines::CertStep;
pub use tail_line::CertTail;
