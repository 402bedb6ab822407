//! The top of the engine: the words of a command, and `run`, the call that carries it out. `quotient P C` and `certify P C` read a
//! presentation and write its canonical largest quotient, alone or in a valid certificate; `check` reads a certificate and writes its
//! answer, where it is valid; `sample N` reads nothing and writes the summary of the answer of a numbered sample. A command that is
//! refused writes the one line that says why. Each status has its cause, but for want of memory.
#![tactic(auto)]

mod certify_output;
mod check_output;
mod command;
mod input;
pub mod laws;
mod number;
mod quotient_output;
mod refusal;
mod refusal_lines;
mod refusing;
mod sample_output;
mod top;
mod words;

pub use command::{Command, Form, parse_words};
pub use input::Input;
pub use refusal::Refusal;
pub use top::run;
pub use words::Words;
