//! Texts of answers. `read` reads the text of the case: the answer is that text again, as it is written of what was read
//! and of a copy, with the JSON form, or the line of its first fault. `with OLD => NEW` reads the text with the first OLD
//! in it replaced by NEW.

use answer_text::{AnswerFault, read_answer};
use anyhow::{Result, bail};
use case_lists::text::{Text, replaced};
use case_lists::{Cases, show_answer};
use pc_presentation::Answer;
use std::alloc::Global;

#[derive(Drop)]
pub(crate) struct AnswerCases {
    alloc: Global,
    text: Text,
}

impl Cases for AnswerCases {
    fn new(alloc: Global) -> AnswerCases {
        AnswerCases {
            alloc,
            text: Text::new(alloc),
        }
    }

    fn act(&mut self, verb: &str, rest: &str, out: &mut String) -> Result<()> {
        if self.text.add(verb, rest)? {
            return Ok(());
        }
        let text = match verb {
            "read" => Vec::from_slice(self.alloc, self.text.bytes())?,
            "with" => replaced(self.alloc, self.text.bytes(), rest)?,
            _ => bail!("no such verb"),
        };
        show_read(self.alloc, &text, out)
    }
}

fn show_read(alloc: Global, bytes: &[u8], out: &mut String) -> Result<()> {
    match read_short(alloc, bytes)? {
        Ok(answer) => show_answer(alloc, &answer, out),
        Err(AnswerFault::Line(line)) => {
            writeln!(out, "    line {line}")?;
            Ok(())
        }
        Err(AnswerFault::NoMemory) => bail!("no memory"),
    }
}

/// What a text that isn't too long reads as.
pub(crate) fn read_short(alloc: Global, bytes: &[u8]) -> Result<Result<Answer, AnswerFault>> {
    if bytes.len() > 1_000_000 {
        bail!("too long");
    }
    Ok(read_answer(alloc, bytes))
}
