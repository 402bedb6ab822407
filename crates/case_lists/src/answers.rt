//! Answers that are shown.

use crate::text::show;
use answer_text::{json, text};
use anyhow::Result;
use pc_presentation::Answer;
use std::alloc::Global;

/// Writes an answer as text, and as JSON.
pub fn show_answer(alloc: Global, answer: &Answer, out: &mut String) -> Result<()> {
    let written = text(alloc, answer)?;
    show(out, &written)?;
    show(out, &json(alloc, answer)?)?;
    let copy = answer.duplicate()?;
    if text(alloc, &copy)?.as_slice() != written.as_slice() {
        writeln!(out, "    copied otherwise")?;
    }
    Ok(())
}
