//! Where bytes come from and where they go. A `Source` and a `Sink` count their faults, and fail only where the count
//! rose; where they tell their bytes, contracts say which were read and written. Callers get forms over memory for
//! tests, forms over the standard library's `Read` and `Write`, and `read_up_to` and `write_whole` over any of them.
#![tactic(auto)]

mod memory;
mod standard;
mod streams;
mod sure;
mod whole;

pub use memory::{MemorySink, MemorySource};
pub use standard::{StdSink, StdSource};
pub use streams::{Failed, Sink, Source};
pub use sure::{SureSink, SureSource};
pub use whole::{InputRefusal, read_up_to, write_whole};
