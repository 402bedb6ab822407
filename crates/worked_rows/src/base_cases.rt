//! Residues, names, paths, statuses and limits. `prime N` says whether a prime is offered, `residues P / A B` gives sum,
//! product, negative of A and inverse of A, `name TEXT` says whether a text is a name, `names X Y ..` copies names, `path N ..`
//! makes a path, and `statuses` and `limits` list the numbers of statuses and the limits.

ghost use Rattle.std.specs.Prelude.{◌<◌};
ghost use Rattle.pq_base.specs.Prime.{prime_value};

use crate::parts_cases::names_of;
use anyhow::{Result, bail};
use case_lists::text::{halves, numbers, show_numbers};
use case_lists::{Cases, prime_of};
use pq_base::{Name, Path, Prime, Status, limits, names_copied};
use std::alloc::Global;

#[derive(Drop)]
pub(crate) struct BaseCases {
    alloc: Global,
}

impl Cases for BaseCases {
    fn new(alloc: Global) -> BaseCases {
        BaseCases { alloc }
    }

    fn act(&mut self, verb: &str, rest: &str, out: &mut String) -> Result<()> {
        match verb {
            "prime" => show_prime(rest.parse::<u8>()?, out),
            "residues" => show_residues(rest, out),
            "name" => show_name(rest, out),
            "names" => show_names(self.alloc, rest, out),
            "path" => show_path(self.alloc, rest, out),
            "statuses" => show_statuses(out),
            "limits" => show_limits(out),
            _ => bail!("no such verb"),
        }
    }
}

fn show_prime(n: u8, out: &mut String) -> Result<()> {
    match Prime::of(n) {
        Some(prime) => {
            let value = prime.value();
            writeln!(out, "    {prime:?} {value}")?;
        }
        None => writeln!(out, "    no prime")?,
    }
    Ok(())
}

fn show_residues(rest: &str, out: &mut String) -> Result<()> {
    let (prime, pair) = halves(rest, "/")?;
    let (a, b) = halves(pair, " ")?;
    let prime = prime_of(prime)?;
    let a = a.parse::<u8>()?;
    let b = b.parse::<u8>()?;
    if prime.value() <= a || prime.value() <= b || a == 0 {
        bail!("no residues");
    }
    let sum = prime.add(a, b);
    let product = prime.mul(a, b);
    let negative = prime.neg(a);
    let inverse = prime.inv(a);
    writeln!(
        out,
        "    sum {sum} product {product} negative {negative} inverse {inverse}"
    )?;
    Ok(())
}

fn show_name(text: &str, out: &mut String) -> Result<()> {
    match Name::of(text.as_bytes()) {
        Some(name) => {
            let length = name.bytes().len();
            let same = name.duplicate() == name && name.bytes() == text.as_bytes();
            writeln!(out, "    a name of {length} bytes, copied alike: {same}")?;
        }
        None => writeln!(out, "    no name")?,
    }
    Ok(())
}

fn show_names(alloc: Global, rest: &str, out: &mut String) -> Result<()> {
    let names = names_of(alloc, rest)?;
    let copies = names_copied(alloc, &names)?;
    let count = copies.len();
    let same = copies.as_slice() == names.as_slice();
    writeln!(out, "    {count} copies, alike: {same}")?;
    Ok(())
}

fn show_path(alloc: Global, rest: &str, out: &mut String) -> Result<()> {
    let path = Path::of(alloc, &numbers::<u8>(alloc, rest)?)?;
    out.push_str("   ")?;
    show_numbers(out, path.numbers())?;
    out.push('\n')?;
    Ok(())
}

fn show_statuses(out: &mut String) -> Result<()> {
    for status in [
        Status::Done,
        Status::BadWords,
        Status::BadText,
        Status::TooLarge,
        Status::ReadFault,
        Status::WriteFault,
        Status::NoMemory,
        Status::CertRefused,
        Status::InputTooLong,
    ] {
        let number = status.number();
        writeln!(out, "    {number} {status:?}")?;
    }
    Ok(())
}

fn show_limits(out: &mut String) -> Result<()> {
    for (name, limit) in [
        ("bytes of a presentation", limits::PRESENTATION_BYTES),
        ("bytes of a certificate", limits::CERTIFICATE_BYTES),
        ("bytes of a name", limits::NAME_BYTES),
        ("generators", limits::GENERATORS),
        ("fixed relators", limits::FIXED),
        ("iterated relators", limits::ITERATED),
        ("endomorphisms", limits::ENDOS),
        ("exponent", limits::EXPONENT as usize),
        ("letters of a word", limits::LETTERS),
        ("letters of all words", limits::TOTAL),
        ("open brackets", limits::BRACKETS),
        ("class", limits::CLASS as usize),
        ("rank", limits::RANK),
        ("number of a sample", limits::SAMPLE as usize),
    ] {
        writeln!(out, "    {name} {limit}")?;
    }
    Ok(())
}
