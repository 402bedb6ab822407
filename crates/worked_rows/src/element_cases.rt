//! Presentations with tails, and elements over both collectors, which are to give the same. `presentation P T / WEIGHTS` begins one with T
//! tails,
//! `relation LEFT = WORD` and `relation LEFT = WORD tail N` give relations, and `finish` ends it: the answer is each
//! relation that has a right side or a tail. Then come `product U / V`, `inverse U`, `commutator U / V`, `power N / U`,
//! `evaluate LETTERS / U / V` for the value of a word at two elements, and `ways` with an overlap. A word `a2*a1` is the
//! element that it is collected to. An element is shown as its exponents, and its tails behind a bar.

use crate::element_calls::{
    is_relation, show_evaluated, show_of_one, show_of_two, show_power, show_ways,
};
use crate::relation_text::{relation_of, show_syllables, syllables_of};
use anyhow::{Result, bail};
use case_lists::text::{halves, numbers};
use case_lists::{Cases, prime_of};
use pc_presentation::{Collect, Pcp, PcpBuilder, Relation};
use plain_collector::Plain;
use stack_collector::Stack;
use std::alloc::Global;

#[derive(Drop)]
pub(crate) struct ElementCases {
    alloc: Global,
    builder: Option<PcpBuilder>,
    pcp: Option<Pcp>,
}

impl Cases for ElementCases {
    fn new(alloc: Global) -> ElementCases {
        ElementCases {
            alloc,
            builder: None,
            pcp: None,
        }
    }

    fn act(&mut self, verb: &str, rest: &str, out: &mut String) -> Result<()> {
        match verb {
            "presentation" => {
                self.builder = Some(builder_of(self.alloc, rest)?);
                Ok(())
            }
            "relation" => self.relation(rest, out),
            "finish" => self.finish(out),
            _ => match &self.pcp {
                Some(pcp) => calculate_by_both(self.alloc, pcp, verb, rest, out),
                None => bail!("no presentation"),
            },
        }
    }
}

impl ElementCases {
    fn relation(&mut self, rest: &str, out: &mut String) -> Result<()> {
        match &mut self.builder {
            Some(builder) => give_relation(self.alloc, builder, rest, out),
            None => bail!("no presentation"),
        }
    }

    fn finish(&mut self, out: &mut String) -> Result<()> {
        let Some(builder) = self.builder.take() else {
            bail!("no presentation");
        };
        let pcp = builder.finish();
        show_pcp(&pcp, out)?;
        show_copy(&pcp, out)?;
        self.pcp = Some(pcp);
        Ok(())
    }
}

/// A presentation in the making.
pub(crate) fn builder_of(alloc: Global, rest: &str) -> Result<PcpBuilder> {
    let (head, weights) = halves(rest, "/")?;
    let (prime, tails) = halves(head, " ")?;
    let prime = prime_of(prime)?;
    let weights = numbers::<u8>(alloc, weights)?;
    if weights.len() > 100 {
        bail!("too many weights");
    }
    let builder = PcpBuilder::new(alloc, prime, &weights, tails.parse::<u16>()?)?;
    Ok(builder)
}

/// The right side of a relation, and its tail.
pub(crate) fn sides_of(text: &str) -> Result<(&str, Option<u16>)> {
    match text.split_once(" tail ") {
        Some((word, tail)) => Ok((word, Some(tail.trim().parse::<u16>()?))),
        None => Ok((text, None)),
    }
}

/// Gives a relation to a presentation in the making, and writes why it is refused.
fn give_relation(
    alloc: Global,
    builder: &mut PcpBuilder,
    rest: &str,
    out: &mut String,
) -> Result<()> {
    let (left, right) = halves(rest, "=")?;
    let (word, tail) = sides_of(right)?;
    let word = syllables_of(alloc, word)?;
    if let Err(refusal) = builder.relation(relation_of(left)?, &word, tail) {
        writeln!(out, "    {refusal}")?;
    }
    Ok(())
}

/// Writes the relations that have a right side or a tail.
fn show_pcp(pcp: &Pcp, out: &mut String) -> Result<()> {
    let prime = pcp.prime().value();
    let rank = pcp.rank();
    let tails = pcp.tails();
    writeln!(out, "    prime {prime} rank {rank} tails {tails}")?;
    for i in 0..pcp.rank() {
        let generator = i + 1;
        let weight = pcp.weight(generator);
        writeln!(out, "    a{generator} weight {weight}")?;
    }
    for i in 0..pcp.rank() {
        show_relation(pcp, Relation::Power(i + 1), out)?;
    }
    for j in 0..pcp.rank() {
        for i in 0..j {
            show_relation(pcp, Relation::Commutator(j + 1, i + 1), out)?;
        }
    }
    Ok(())
}

fn show_relation(pcp: &Pcp, relation: Relation, out: &mut String) -> Result<()> {
    if !is_relation(relation, pcp.rank()) {
        bail!("no relation");
    }
    let word = pcp.word(relation);
    let tail = pcp.tail(relation);
    if word.is_empty() && tail.is_none() {
        return Ok(());
    }
    match relation {
        Relation::Power(i) => write!(out, "    a{i}^p = ")?,
        Relation::Commutator(j, i) => write!(out, "    [a{j},a{i}] = ")?,
    }
    show_syllables(out, word)?;
    if let Some(tail) = tail {
        write!(out, " tail {tail}")?;
    }
    out.push('\n')?;
    Ok(())
}

/// Writes that a copy is another presentation, where it is.
fn show_copy(pcp: &Pcp, out: &mut String) -> Result<()> {
    let copy = pcp.duplicate()?;
    let mut shown = String::new(*out.allocator());
    show_pcp(pcp, &mut shown)?;
    let mut again = String::new(*out.allocator());
    show_pcp(&copy, &mut again)?;
    if shown.as_str() != again.as_str() {
        writeln!(out, "    copied otherwise")?;
    }
    Ok(())
}

/// Writes what both collectors give, where they give the same.
fn calculate_by_both(
    alloc: Global,
    pcp: &Pcp,
    verb: &str,
    rest: &str,
    out: &mut String,
) -> Result<()> {
    let mut plain = String::new(alloc);
    calculate::<Plain>(alloc, pcp, verb, rest, &mut plain)?;
    let mut stack = String::new(alloc);
    calculate::<Stack>(alloc, pcp, verb, rest, &mut stack)?;
    if plain.as_str() != stack.as_str() {
        bail!("the collectors differ");
    }
    out.push_str(plain.as_str())?;
    Ok(())
}

fn calculate<C: Collect + Drop>(
    alloc: Global,
    pcp: &Pcp,
    verb: &str,
    rest: &str,
    out: &mut String,
) -> Result<()> {
    match verb {
        "product" | "commutator" => {
            let (u, v) = halves(rest, "/")?;
            show_of_two::<C>(
                alloc,
                pcp,
                verb,
                &syllables_of(alloc, u)?,
                &syllables_of(alloc, v)?,
                out,
            )
        }
        "inverse" => show_of_one::<C>(alloc, pcp, &syllables_of(alloc, rest)?, out),
        "power" => {
            let (n, u) = halves(rest, "/")?;
            show_power::<C>(alloc, pcp, n.parse::<u32>()?, &syllables_of(alloc, u)?, out)
        }
        "evaluate" => {
            let (letters, images) = halves(rest, "/")?;
            let (u, v) = halves(images, "/")?;
            show_evaluated::<C>(alloc, pcp, letters, [u, v], out)
        }
        "ways" => show_ways::<C>(alloc, pcp, rest, out),
        _ => bail!("no such verb"),
    }
}
