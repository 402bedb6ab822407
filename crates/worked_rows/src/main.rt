//! The worked rows of the calls that stand below the towers: each file of `data/` is a list of cases, and this program writes
//! each file again with what each line of it gives behind the line. `stdout` is the table that this is to be.
//!
//! A line is a verb and what it acts on; blank lines and those that begin with `#` say nothing. `case NAME` begins a
//! case: nothing that stood before it counts any more. To add a row, write its lines into the file of its kind and the
//! lines with their answers into `stdout`: take the answers from outside, and not from what the program writes. Each
//! kind has a module of its own, which says its verbs; a new kind is a module with an `impl Cases` and a line in `main`.
//! docs/ROWS.md lists the files.
#![tactic(auto)]

mod answer_cases;
mod base_cases;
mod broken;
mod by_definition;
mod cover_cases;
mod draws;
mod element_calls;
mod element_cases;
mod parts_cases;
mod presentation_cases;
mod push_cases;
mod reached;
mod relation_text;
mod row_cases;
mod step_cases;
mod stream_cases;
mod word_cases;

use crate::answer_cases::AnswerCases;
use crate::base_cases::BaseCases;
use crate::cover_cases::CoverCases;
use crate::element_cases::ElementCases;
use crate::parts_cases::PartsCases;
use crate::presentation_cases::PresentationCases;
use crate::push_cases::PushCases;
use crate::row_cases::RowCases;
use crate::step_cases::StepCases;
use crate::stream_cases::StreamCases;
use crate::word_cases::WordCases;
use anyhow::Result;
use case_lists::{folder, show_cases};

fn main(rt: HostRuntime) -> Result<()> {
    let folder = folder(&rt)?;
    show_cases::<BaseCases>(&rt, &folder, "base")?;
    show_cases::<WordCases>(&rt, &folder, "words")?;
    show_cases::<RowCases>(&rt, &folder, "rows")?;
    show_cases::<StreamCases>(&rt, &folder, "streams")?;
    show_cases::<PresentationCases>(&rt, &folder, "presentations")?;
    show_cases::<PartsCases>(&rt, &folder, "parts")?;
    show_cases::<AnswerCases>(&rt, &folder, "answers")?;
    show_cases::<ElementCases>(&rt, &folder, "elements")?;
    show_cases::<PushCases>(&rt, &folder, "pushes")?;
    show_cases::<CoverCases>(&rt, &folder, "covers")?;
    show_cases::<StepCases>(&rt, &folder, "steps")
}
