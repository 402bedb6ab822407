//! Answers as texts: `text` writes the one text of an answer, `read_answer` reads it or tells the line of its first fault,
//! and `json` writes the one JSON text. What the texts are is a function of the answer in `specs/`.
#![tactic(auto)]

mod body_reading;
pub mod fault;
mod generator_reading;
mod head_reading;
mod json_text;
pub mod laws;
mod line_reading;
pub mod pieces;
mod reading;
mod source;
mod values;
mod word_reading;
mod words;
mod writing;

pub use fault::AnswerFault;
pub use json_text::json;
pub use line_reading::{class_line, prime_line};
pub use reading::read_answer;
pub use writing::text;
