//! A cover modulo rows, and the answer that it gives: the mathematics of one class. What is proved of it: `laws_of_spans` of rows
//! modulo a span, `laws_of_answers` of the next answer, `laws_of_levels` of the last level of the series, `laws_of_kept_tails` of
//! the tails that a step keeps, `laws_of_canonical_answers` of canonical answers, `laws_of_fitting` of elements of a finite group
//! that fit an answer, `laws_of_orders` of the order of a largest quotient, and `laws_of_stages` of the answers of all classes.
#![tactic(auto)]

pub mod combinations;
pub mod kept_words;
pub mod laws_of_answers;
pub mod laws_of_canonical_answers;
pub mod laws_of_fitting;
pub mod laws_of_kept_tails;
pub mod laws_of_levels;
pub mod laws_of_orders;
pub mod laws_of_spans;
pub mod laws_of_stages;
pub mod next_answer;
mod next_presentation;

pub use combinations::Combinations;
