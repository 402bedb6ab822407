//! Towers over the plain collector. Of the presentation that the text of the case is, `largest P C` is the largest quotient
//! of p-class at most C, `finite P C / RELATORS` that of the relators named, as `fixed 2, iterated 1, iterated 1 along 2 1`,
//! `with_fixed P C / RELATORS` that of these and all fixed ones, and `ascending P C` that of the iterated part: the answer is
//! how many rows each class added, in the run over the iterated part too where there is one, and the quotient or the rank
//! that is too large; of `ascending` also the relators that were recorded.

ghost use Rattle.std.specs.Prelude.{◌≡◌, ◌≤◌, [], IfOk, IsTrue};
ghost use Rattle.std.specs.List.{All};
ghost use Rattle.pq_base.specs.Limits.{max_class};
ghost use Rattle.tower.specs.NamedParts.{IsNamed};

use crate::towers::{largest_of, prime_and_class, show_counts, show_refusal};
use anyhow::{Result, bail};
use case_lists::text::{Text, halves, numbers, show_numbers};
use case_lists::{Cases, are_endo_numbers, read_short, show_answer};
use derivation_log::{RowCounts, Run};
use lpres_reader::LPres;
use pc_presentation::Answer;
use plain_collector::Plain;
use pq_base::{Path, Prime};
use std::alloc::Global;
use tower::{Relator, TowerRefusal, ascending, finite, with_fixed};

#[derive(Drop)]
pub(crate) struct TowerCases {
    alloc: Global,
    text: Text,
}

impl Cases for TowerCases {
    fn new(alloc: Global) -> TowerCases {
        TowerCases {
            alloc,
            text: Text::new(alloc),
        }
    }

    fn act(&mut self, verb: &str, rest: &str, out: &mut String) -> Result<()> {
        if self.text.add(verb, rest)? {
            return Ok(());
        }
        let Ok(pres) = read_short(self.alloc, self.text.bytes())? else {
            bail!("no presentation");
        };
        match verb {
            "largest" => show_largest(self.alloc, &pres, rest, out),
            "finite" => show_finite(self.alloc, &pres, rest, out),
            "with_fixed" => show_with_fixed(self.alloc, &pres, rest, out),
            "ascending" => show_ascending(self.alloc, &pres, rest, out),
            _ => bail!("no such verb"),
        }
    }
}

fn show_largest(alloc: Global, pres: &LPres, rest: &str, out: &mut String) -> Result<()> {
    let (prime, class) = prime_and_class(rest)?;
    let mut log = RowCounts::new(alloc);
    let answer = largest_of(alloc, pres, prime, class, &mut log);
    show_tower(alloc, &log, answer, out)
}

fn show_finite(alloc: Global, pres: &LPres, rest: &str, out: &mut String) -> Result<()> {
    let (prime, class, relators) = asked_of(alloc, pres, rest)?;
    let mut log = RowCounts::new(alloc);
    let answer = finite_of(alloc, pres, &relators, prime, class, &mut log);
    show_tower(alloc, &log, answer, out)
}

fn show_with_fixed(alloc: Global, pres: &LPres, rest: &str, out: &mut String) -> Result<()> {
    let (prime, class, relators) = asked_of(alloc, pres, rest)?;
    let mut log = RowCounts::new(alloc);
    let answer = with_fixed_of(alloc, pres, &relators, prime, class, &mut log);
    show_tower(alloc, &log, answer, out)
}

/// The prime, the class and the relators that a text is.
fn asked_of(alloc: Global, pres: &LPres, rest: &str) -> Result<(Prime, u8, Vec<Relator>)>
    ensures from_one { IfOk result (λ asked. 1 ≤ asked.1) }
    ensures most { IfOk result (λ asked. asked.1 ≤ max_class) }
    ensures named { IfOk result (λ asked. All (IsNamed pres.now) asked.2.items) }
{
    let (head, names) = halves(rest, "/")?;
    let (prime, class) = prime_and_class(head)?;
    let relators = relators_of(alloc, names)?;
    if !are_named(pres, &relators) {
        bail!("no such relator");
    }
    Ok((prime, class, relators))
}

/// The largest quotient of the relators named. The log is told of each class.
fn finite_of(
    alloc: Global,
    pres: &LPres,
    relators: &[Relator],
    prime: Prime,
    class: u8,
    log: &mut RowCounts,
) -> Result<Answer, TowerRefusal>
    requires named { All (IsNamed pres.now) relators.now }
    requires from_one { 1 ≤ class }
    requires most { class ≤ max_class }
    requires empty { log.old.whole ≡ [] }
{
    finite::<Plain, RowCounts>(alloc, pres, relators, prime, class, log)
}

/// The largest quotient of the relators named and all fixed ones. The log is told of each class.
fn with_fixed_of(
    alloc: Global,
    pres: &LPres,
    relators: &[Relator],
    prime: Prime,
    class: u8,
    log: &mut RowCounts,
) -> Result<Answer, TowerRefusal>
    requires named { All (IsNamed pres.now) relators.now }
    requires from_one { 1 ≤ class }
    requires most { class ≤ max_class }
    requires empty { log.old.whole ≡ [] }
{
    with_fixed::<Plain, RowCounts>(alloc, pres, relators, prime, class, log)
}

fn show_ascending(alloc: Global, pres: &LPres, rest: &str, out: &mut String) -> Result<()> {
    let (prime, class) = prime_and_class(rest)?;
    let mut log = RowCounts::new(alloc);
    match ascending_of(alloc, pres, prime, class, &mut log) {
        Ok((answer, recorded)) => {
            show_tower(alloc, &log, Ok(answer), out)?;
            show_recorded(&recorded, out)
        }
        Err(refusal) => show_tower(alloc, &log, Err(refusal), out),
    }
}

/// The largest quotient of the iterated part, and the relators that were recorded. The log is told of each class.
fn ascending_of(
    alloc: Global,
    pres: &LPres,
    prime: Prime,
    class: u8,
    log: &mut RowCounts,
) -> Result<(Answer, Vec<Relator>), TowerRefusal>
    requires from_one { 1 ≤ class }
    requires most { class ≤ max_class }
    requires empty { log.old.iterated ≡ [] }
{
    ascending::<Plain, RowCounts>(alloc, pres, Run::Iterated, prime, class, log)
}

fn show_recorded(recorded: &[Relator], out: &mut String) -> Result<()> {
    for relator in recorded {
        match relator {
            Relator::Fixed(number) => writeln!(out, "    recorded fixed {number}")?,
            Relator::Iterated(number, path) => {
                write!(out, "    recorded iterated {number} along")?;
                show_numbers(out, path.numbers())?;
                out.push('\n')?;
            }
        }
    }
    Ok(())
}

/// The relators that a text names.
fn relators_of(alloc: Global, text: &str) -> Result<Vec<Relator>> {
    let mut relators = Vec::new(alloc);
    if text.is_empty() {
        return Ok(relators);
    }
    for name in text.split(',') {
        relators.push(relator_of(alloc, name)?)?;
    }
    Ok(relators)
}

fn relator_of(alloc: Global, name: &str) -> Result<Relator> {
    let (kind, rest) = halves(name.trim(), " ")?;
    let (number, path) = match rest.split_once(" along ") {
        Some((number, path)) => (number, path),
        None => (rest, ""),
    };
    let number = number.parse::<u32>()?;
    let path = Path::of(alloc, &numbers::<u8>(alloc, path)?)?;
    match kind {
        "fixed" => Ok(Relator::Fixed(number)),
        "iterated" => Ok(Relator::Iterated(number, path)),
        _ => bail!("no relator"),
    }
}

/// Whether these are relators of a presentation, fixed ones or iterated ones along its endomorphisms.
fn are_named(pres: &LPres, relators: &[Relator]) -> bool
    ensures { IsTrue result → All (IsNamed pres.now) relators.now }
{
    for relator in relators {
        if !is_named(pres, relator) {
            return false;
        }
    }
    true
}

fn is_named(pres: &LPres, relator: &Relator) -> bool
    ensures { IsTrue result → IsNamed pres.now relator.now }
{
    match relator {
        Relator::Fixed(number) => 1 <= *number && *number as usize <= pres.fixed().len(),
        Relator::Iterated(number, path) => {
            1 <= *number
                && *number as usize <= pres.iterated().len()
                && are_endo_numbers(pres.endos().len(), path.numbers())
        }
    }
}

/// Writes how many rows each class added, those of a run over the iterated part first, and the answer or the rank that is
/// too large.
fn show_tower(
    alloc: Global,
    log: &RowCounts,
    answer: Result<Answer, TowerRefusal>,
    out: &mut String,
) -> Result<()> {
    show_counts(out, "", log)?;
    match answer {
        Ok(answer) => show_answer(alloc, &answer, out),
        Err(refusal) => show_refusal(refusal, out),
    }
}
