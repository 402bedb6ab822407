//! Reads L-presentations from text. What a text means is a relation in `specs/`, and a text is read exactly where it
//! means a presentation; any other text is refused by its first fault.
#![tactic(auto)]

mod brackets;
mod canonical;
mod copies;
mod depth;
mod exponent;
mod factor;
mod fault;
mod gathered;
mod generators;
mod images;
mod item;
mod known;
pub mod laws;
mod line;
mod named;
mod parts;
mod plain;
mod presentation;
mod products;
mod reading;
mod recipe;
mod refusal;
mod steps;
mod syntax;
mod token;
mod unit_steps;
mod value;
mod word_along;
mod word_ends;
mod writing;

pub use canonical::write;
pub use fault::{Kind, TextFault, Which};
pub use presentation::LPres;
pub use reading::read;
pub use refusal::ReadRefusal;
pub use word_along::along;
