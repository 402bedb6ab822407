//! Commands. `run WORDS` runs a command over the text of the case, `run WORDS < TEXT` over this text, and `sure` instead
//! of `run` over a source and a sink that never fail. The devices are set as `Devices` says. `words WORDS` says which
//! command words are.

use anyhow::{Result, bail};
use case_lists::text::{Text, show, unescaped};
use case_lists::{Cases, Devices};
use pq_base::Status;
use pq_io::{Sink, Source, SureSink, SureSource};
use pq_run::{Words, parse_words, run};
use std::alloc::Global;

#[derive(Drop)]
pub(crate) struct RunCases {
    alloc: Global,
    text: Text,
    devices: Devices,
}

impl Cases for RunCases {
    fn new(alloc: Global) -> RunCases {
        RunCases {
            alloc,
            text: Text::new(alloc),
            devices: Devices::new(alloc),
        }
    }

    fn act(&mut self, verb: &str, rest: &str, out: &mut String) -> Result<()> {
        if self.text.add(verb, rest)?
            || (verb != "run"
                && verb != "sure"
                && verb != "words"
                && self.devices.set(verb, rest)?)
        {
            return Ok(());
        }
        match verb {
            "words" => show_command(self.alloc, rest, out),
            "run" | "sure" => self.run(verb == "sure", rest, out),
            _ => bail!("no such verb"),
        }
    }
}

impl RunCases {
    fn run(&self, is_sure: bool, rest: &str, out: &mut String) -> Result<()> {
        let (words, input) = match cut(rest) {
            (words, Some(text)) => (words, unescaped(self.alloc, text)?),
            (words, None) => (words, Vec::from_slice(self.alloc, self.text.bytes())?),
        };
        let words = words_of(self.alloc, words)?;
        if is_sure {
            run_surely(self.alloc, &words, &input, out)
        } else {
            run_over(self.alloc, &words, &self.devices, &input, out)
        }
    }
}

/// The words before `<`, and the text behind it.
fn cut(rest: &str) -> (&str, Option<&str>) {
    match rest.split_once("< ") {
        Some((words, text)) => (words, Some(text)),
        None => (rest, None),
    }
}

/// The words that a text has between its blanks.
fn words_of(alloc: Global, text: &str) -> Result<Words> {
    let mut words = Words::new(alloc);
    for word in text.split_whitespace() {
        words.add(word)?;
    }
    Ok(words)
}

fn run_over(
    alloc: Global,
    words: &Words,
    devices: &Devices,
    input: &[u8],
    out: &mut String,
) -> Result<()> {
    let mut source = devices.source(input)?;
    let mut sink = devices.sink()?;
    let status = status_of(alloc, words, &mut source, &mut sink);
    show_end(status, sink.taken(), out)
}

fn run_surely(alloc: Global, words: &Words, input: &[u8], out: &mut String) -> Result<()> {
    let mut source = SureSource::new(alloc, input)?;
    let mut sink = SureSink::new(alloc, 2000)?;
    let status = status_of(alloc, words, &mut source, &mut sink);
    show_end(status, sink.taken(), out)
}

/// Runs a command, and says by which status it ends.
fn status_of<S: Source, K: Sink>(
    alloc: Global,
    words: &Words,
    source: &mut S,
    sink: &mut K,
) -> Status {
    run(alloc, words, source, sink)
}

fn show_end(status: Status, taken: &[u8], out: &mut String) -> Result<()> {
    let number = status.number();
    writeln!(out, "    status {number}")?;
    show(out, taken)
}

fn show_command(alloc: Global, rest: &str, out: &mut String) -> Result<()> {
    let words = words_of(alloc, rest)?;
    match parse_words(&words) {
        Some(command) => writeln!(out, "    {command:?}")?,
        None => writeln!(out, "    no command")?,
    }
    Ok(())
}
