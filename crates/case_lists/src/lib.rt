//! Lists of cases, and what they give. Each line of a list is a verb and what it acts on, and the list is written again with what
//! each line gives behind it. A program of worked rows names its kinds of case, as types that implement `Cases`, and the files that
//! have them; what several kinds read, check and show stands here. A check that says yes says what the calls below require.
#![tactic(auto)]

mod answers;
mod cases;
mod checks;
mod covers;
mod devices;
mod files;
mod presentations;
pub mod text;
mod words;

pub use answers::show_answer;
pub use cases::Cases;
pub use checks::{are_endo_numbers, are_letters, is_letter, is_over};
pub use covers::{empty_row, scratch_of, show_row};
pub use devices::Devices;
pub use files::{folder, show_cases};
pub use presentations::{prime_of, read_short};
pub use words::word_of;
