//! Lists of cases, and what they give.

use anyhow::{Result, bail};
use std::alloc::Global;

/// A kind of case: what its lines have said so far.
pub trait Cases: Sized + Drop {
    /// The state before the first line of a case.
    fn new(alloc: Global) -> Self;

    /// Does what a line says, and writes what it gives, each line of it behind four blanks.
    fn act(&mut self, verb: &str, rest: &str, out: &mut String) -> Result<()>;
}

/// The lines of a text, each with what it gives behind it.
pub(crate) fn transcript<C: Cases>(alloc: Global, text: &str) -> Result<String> {
    let mut out = String::new(alloc);
    let mut cases = C::new(alloc);
    for line in text.lines() {
        writeln!(out, "{line}")?;
        if line.starts_with("case ") {
            cases = C::new(alloc);
        } else if !line.is_empty() && !line.starts_with('#') {
            act_on(&mut cases, line, &mut out)?;
        }
    }
    Ok(out)
}

/// Does what a line says. An error names the line.
fn act_on<C: Cases>(cases: &mut C, line: &str, out: &mut String) -> Result<()> {
    let (verb, rest) = line.split_once(' ').unwrap_or((line, ""));
    match cases.act(verb, rest, out) {
        Ok(()) => Ok(()),
        Err(error) => bail!("{line}: {error}"),
    }
}
