//! The files of cases.

use crate::cases::{Cases, transcript};
use anyhow::Result;
use std::{env, fs};

/// The folder of the files: the first word of the command line, or the one that the program runs in.
pub fn folder(rt: &HostRuntime) -> Result<String> {
    let mut words = env::args(rt)?.skip(1);
    match words.next() {
        Some(word) => Ok(word),
        None => Ok(String::from_str(rt.alloc(), ".")?),
    }
}

/// Writes the cases of a file, with what they give.
pub fn show_cases<C: Cases>(rt: &HostRuntime, folder: &String, name: &str) -> Result<()> {
    let path = format!(in rt.alloc(); "{folder}/{name}.txt")?;
    let text = fs::read_to_string(rt, path.as_str())?;
    let shown = transcript::<C>(rt.alloc(), text.as_str())?;
    print!(rt; "{shown}")?;
    Ok(())
}
