//! The program: the words of its command line, standard input and standard output are given to the engine's top call,
//! and its status is the program's. Nothing else is read, and nothing is written to standard error.
#![tactic(auto)]

ghost use Rattle.std.specs.Prelude.{◌≡◌, ◌⊎◌, ◌↔◌, IfErr};
ghost use Rattle.std.specs.IoError.{error_kind};

use pq_base::Status;
use pq_io::{StdSink, StdSource};
use pq_run::{Words, run};
use std::io::ErrorKind;
use std::process::ExitCode;
use std::{env, io};

/// The status where the words of the command line can't be had, but for want of memory.
const NO_WORDS: u8 = 1;

fn main(rt: HostRuntime) -> ExitCode {
    let words = match words_of(&rt) {
        Ok(words) => words,
        Err(status) => return ExitCode::from(status),
    };
    let mut source = StdSource::of(rt.stdin());
    let mut sink = StdSink::of(rt.stdout());
    ExitCode::from(run(rt.alloc(), &words, &mut source, &mut sink).number())
}

/// The words behind the program's name, or the status with which the program ends without them.
fn words_of(rt: &HostRuntime) -> Result<Words, u8>
    ensures { IfErr result (λ status. (status ≡ 7) ⊎ (status ≡ 1)) }
{
    let mut words = Words::new(rt.alloc());
    for word in env::args(rt).map_err(status_of)?.skip(1) {
        words
            .add(word.as_str())
            .map_err(|_| Status::NoMemory.number())?;
    }
    Ok(words)
}

/// The status for words that can't be had: 7 for want of memory, else 1, which no command ends with.
fn status_of(error: io::Error) -> u8
    ensures either { (result ≡ 7) ⊎ (result ≡ 1) }
    ensures memory { (result ≡ 7) ↔ (error_kind error ≡ ErrorKind.OutOfMemory) }
{
    match error.kind() {
        ErrorKind::OutOfMemory => Status::NoMemory.number(),
        _ => NO_WORDS,
    }
}
