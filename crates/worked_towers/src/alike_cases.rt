//! Towers over full covers with all overlaps, beside towers over light covers with the overlaps that leave room for the next class.
//! Of the presentation that the text of the case is, `alike P C` computes the largest quotient of p-class at most C in both ways: the
//! answer is how many rows each class added in each, and the quotient, or the rank that is too large, where both are the same, byte
//! for byte. `briefly P C` leaves the quotient out and shows its rank.

ghost use Rattle.std.specs.Prelude.{◌≡◌, ◌≤◌, false, []};
ghost use Rattle.pq_base.specs.Limits.{max_class};

use crate::towers::{largest_of, prime_and_class, show_counts, show_refusal};
use answer_text::text;
use anyhow::{Result, bail};
use case_lists::text::{Text, show};
use case_lists::{Cases, read_short};
use derivation_log::{Log, RowCounts, RowSource, Run};
use fp_echelon::Basis;
use lpres_reader::LPres;
use pc_presentation::Answer;
use plain_collector::Plain;
use pq_base::{NoMemory, Prime};
use std::alloc::Global;
use std::marker::Model;
use tower::{TowerRefusal, largest};

#[derive(Drop)]
pub(crate) struct AlikeCases {
    alloc: Global,
    text: Text,
}

impl Cases for AlikeCases {
    fn new(alloc: Global) -> AlikeCases {
        AlikeCases {
            alloc,
            text: Text::new(alloc),
        }
    }

    fn act(&mut self, verb: &str, rest: &str, out: &mut String) -> Result<()> {
        if self.text.add(verb, rest)? {
            return Ok(());
        }
        let Ok(pres) = read_short(self.alloc, self.text.bytes())? else {
            bail!("no presentation");
        };
        match verb {
            "alike" => show_both(self.alloc, &pres, rest, false, out),
            "briefly" => show_both(self.alloc, &pres, rest, true, out),
            _ => bail!("no such verb"),
        }
    }
}

/// A log that keeps how many rows each step added, over light covers.
#[derive(Drop)]
struct LightCounts {
    counts: RowCounts,
}

impl Model for LightCounts {
    ghost use Rattle.derivation_log.specs.RowCounts.{CountsOfRuns};

    ghost Value = { CountsOfRuns };

    ghost view = { λ l. l.counts };
}

impl Log for LightCounts {
    ghost use Rattle.derivation_log.specs.RowCounts.{HasCounts};

    const FULL: bool = false;

    ghost FULL = { false };

    ghost keeps = { HasCounts };

    fn step(
        &mut self,
        run: Run,
        class: u8,
        sources: &[RowSource],
        basis: &Basis,
    ) -> Result<(), NoMemory> {
        self.counts.step(run, class, sources, basis)
    }
}

fn show_both(
    alloc: Global,
    pres: &LPres,
    rest: &str,
    is_brief: bool,
    out: &mut String,
) -> Result<()> {
    let (prime, class) = prime_and_class(rest)?;
    let mut full_log = RowCounts::new(alloc);
    let full = largest_of(alloc, pres, prime, class, &mut full_log);
    let mut light_log = LightCounts {
        counts: RowCounts::new(alloc),
    };
    let light = light_of(alloc, pres, prime, class, &mut light_log);
    show_counts(out, "full ", &full_log)?;
    show_counts(out, "light ", &light_log.counts)?;
    match full {
        Ok(full) => match light {
            Ok(light) => show_answers(alloc, &full, &light, is_brief, out),
            Err(_refusal) => bail!("the answers differ"),
        },
        Err(full) => match light {
            Ok(_answer) => bail!("the answers differ"),
            Err(light) => show_refusals(full, light, out),
        },
    }
}

/// The largest quotient of a presentation over light covers. The log is told of each class.
fn light_of(
    alloc: Global,
    pres: &LPres,
    prime: Prime,
    class: u8,
    log: &mut LightCounts,
) -> Result<Answer, TowerRefusal>
    requires from_one { 1 ≤ class }
    requires most { class ≤ max_class }
    requires empty { log.old.whole ≡ [] }
    requires empty_part { log.old.iterated ≡ [] }
{
    largest::<Plain, LightCounts>(alloc, pres, prime, class, log)
}

fn show_answers(
    alloc: Global,
    full: &Answer,
    light: &Answer,
    is_brief: bool,
    out: &mut String,
) -> Result<()> {
    let written = text(alloc, full)?;
    if text(alloc, light)?.as_slice() != written.as_slice() {
        bail!("the answers differ");
    }
    if is_brief {
        let rank = full.pcp().rank();
        writeln!(out, "    both of rank {rank}")?;
        return Ok(());
    }
    show(out, &written)
}

fn show_refusals(full: TowerRefusal, light: TowerRefusal, out: &mut String) -> Result<()> {
    if full != light {
        bail!("the answers differ");
    }
    show_refusal(full, out)
}
