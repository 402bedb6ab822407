//! Texts of certificates. `read` reads the text of the case: the answer is that text again, as it is written of what was read, or the
//! line of its first fault. `with OLD => NEW` reads the text with the first OLD in it replaced by NEW, and says whether it reads, and
//! is written as it was, or the line of its first fault. `check` and `check_with OLD => NEW` read such a text too, and say whether its
//! certificate is valid, or which part of it is the first that fails.

use anyhow::{Result, bail};
use case_lists::Cases;
use case_lists::text::{Text, replaced, show};
use cert_checker::{CheckRefusal, check};
use cert_text::{CertFault, read, write};
use derivation_log::{Cert, Run};
use std::alloc::Global;

#[derive(Drop)]
pub(crate) struct CertificateCases {
    alloc: Global,
    text: Text,
}

impl Cases for CertificateCases {
    fn new(alloc: Global) -> CertificateCases {
        CertificateCases {
            alloc,
            text: Text::new(alloc),
        }
    }

    fn act(&mut self, verb: &str, rest: &str, out: &mut String) -> Result<()> {
        if self.text.add(verb, rest)? {
            return Ok(());
        }
        let text = self.text.bytes();
        match verb {
            "read" => show_read(self.alloc, text, out),
            "with" => show_reads(self.alloc, &replaced(self.alloc, text, rest)?, out),
            "check" => show_check(self.alloc, text, out),
            "check_with" => show_check(self.alloc, &replaced(self.alloc, text, rest)?, out),
            _ => bail!("no such verb"),
        }
    }
}

/// The certificate of a text, or `None` where the line of its first fault is shown.
fn cert_or_line(alloc: Global, text: &[u8], out: &mut String) -> Result<Option<Cert>> {
    // longer than any case, and far below the length from which on a text isn't read
    if text.len() > 1_000_000 {
        bail!("too long");
    }
    match read(alloc, text) {
        Ok(cert) => Ok(Some(cert)),
        Err(CertFault::Line(line)) => {
            writeln!(out, "    line {line}")?;
            Ok(None)
        }
        Err(CertFault::NoMemory) => bail!("no memory"),
    }
}

fn show_read(alloc: Global, text: &[u8], out: &mut String) -> Result<()> {
    match cert_or_line(alloc, text, out)? {
        Some(cert) => show(out, &write(alloc, &cert)?),
        None => Ok(()),
    }
}

fn show_reads(alloc: Global, text: &[u8], out: &mut String) -> Result<()> {
    if let Some(cert) = cert_or_line(alloc, text, out)? {
        let is_same = write(alloc, &cert)?.as_slice() == text;
        writeln!(
            out,
            "    {}",
            if is_same { "reads" } else { "reads as another" }
        )?;
    }
    Ok(())
}

fn show_check(alloc: Global, text: &[u8], out: &mut String) -> Result<()> {
    let Some(cert) = cert_or_line(alloc, text, out)? else {
        return Ok(());
    };
    match check(alloc, &cert) {
        Ok(_) => writeln!(out, "    valid")?,
        Err(CheckRefusal::Refused { run, class, part }) => {
            let run = match run {
                Run::Iterated => "iterated",
                Run::Whole => "whole",
            };
            writeln!(out, "    run {run} class {class} {part:?}")?;
        }
        Err(CheckRefusal::NoMemory) => bail!("no memory"),
    }
    Ok(())
}
