//! Both collectors beside a second computation. `presentation P T / WEIGHTS` and `relation LEFT = WORD tail N` give a
//! presentation of at most eight generators and five tails, as in `ElementCases`. `push N SEED` pushes N generators, drawn
//! from the seed, by the plain collector, by the one that keeps a stack, and by the plain rule as it is defined; `words N SEED`
//! pushes N words of three drawn syllables each, most with a drawn tail behind it; and `steps N SEED` is as `push`, and also
//! takes directed steps until there are none, which lead to the same element where the presentation is consistent: the
//! answer is how many times all were alike, and the element that they reach.

ghost use Rattle.std.specs.Prelude.{◌≤◌};

use crate::by_definition::{Rule, Rules, normal_word, spell};
use crate::draws::{Draws, syllable, tail};
use crate::element_calls::show_element;
use crate::element_cases::{builder_of, sides_of};
use crate::reached::{entries, nothing_reached};
use crate::relation_text::{relation_of, syllables_of};
use anyhow::{Result, bail};
use case_lists::Cases;
use case_lists::text::halves;
use pc_presentation::{Elem, Pcp, PcpBuilder, Syllable};
use std::alloc::Global;

#[derive(Drop)]
pub(crate) struct PushCases {
    alloc: Global,
    head: Option<String>,
    rules: Rules,
}

impl Cases for PushCases {
    fn new(alloc: Global) -> PushCases {
        PushCases {
            alloc,
            head: None,
            rules: Rules {
                prime: 2,
                list: Vec::new(alloc),
            },
        }
    }

    fn act(&mut self, verb: &str, rest: &str, out: &mut String) -> Result<()> {
        match verb {
            "presentation" => self.head = Some(String::from_str(self.alloc, rest)?),
            "relation" => self.rules.list.push(rule_of(self.alloc, rest)?)?,
            "push" | "steps" | "words" => self.show(verb, rest, out)?,
            _ => bail!("no such verb"),
        }
        Ok(())
    }
}

impl PushCases {
    fn show(&mut self, verb: &str, rest: &str, out: &mut String) -> Result<()> {
        let Some(head) = &self.head else {
            bail!("no presentation");
        };
        let pcp = presentation_of(self.alloc, head.as_str(), &self.rules)?;
        self.rules.prime = pcp.prime().value();
        if pcp.rank() == 0 || 8 < pcp.rank() || 5 < pcp.tails() {
            bail!("too many generators or tails");
        }
        let (count, seed) = halves(rest, " ")?;
        let draws = Draws(seed.parse::<u32>()?);
        let count = count.parse::<u32>()?;
        if verb == "words" {
            return show_words(self.alloc, draws, &self.rules, &pcp, count, out);
        }
        let with_steps = verb == "steps";
        show_pushes(self.alloc, draws, &self.rules, &pcp, with_steps, count, out)
    }
}

/// A relation, in at most eight generators.
fn rule_of(alloc: Global, rest: &str) -> Result<Rule> {
    let (left, right) = halves(rest, "=")?;
    let (word, tail) = sides_of(right)?;
    let mut side = [0; 8];
    for s in &syllables_of(alloc, word)? {
        if s.generator < 1 || 8 < s.generator {
            bail!("too many generators");
        }
        side[s.generator as usize - 1] = s.exponent;
    }
    Ok(Rule {
        relation: relation_of(left)?,
        side,
        tail,
    })
}

/// The presentation with these relations.
fn presentation_of(alloc: Global, head: &str, rules: &Rules) -> Result<Pcp> {
    let mut builder = builder_of(alloc, head)?;
    for rule in &rules.list {
        give(alloc, &mut builder, rule)?;
    }
    Ok(builder.finish())
}

fn give(alloc: Global, builder: &mut PcpBuilder, rule: &Rule) -> Result<()> {
    let mut word = Vec::new(alloc);
    for k in 0..8 {
        let exponent = rule.side[k as usize];
        if exponent > 0 {
            word.push(Syllable {
                generator: k + 1,
                exponent,
            })?;
        }
    }
    builder.relation(rule.relation, word.as_slice(), rule.tail)?;
    Ok(())
}

/// The letters of exponents.
fn letters(alloc: Global, exponents: &[u8]) -> Result<Vec<u16>> {
    let mut word = Vec::new(alloc);
    spell(&mut word, exponents)?;
    Ok(word)
}

/// Whether directed steps lead from a word with tails to an element.
fn steps_lead_to(
    alloc: Global,
    rules: &Rules,
    word: Vec<u16>,
    tails: [u8; 5],
    at: &Elem,
) -> Result<bool> {
    let mut tails = tails;
    let normal = normal_word(alloc, rules, word, &mut tails)?;
    let letters = letters(alloc, at.exponents())?;
    Ok(normal.as_slice() == letters.as_slice() && tails == entries(at.tail()))
}

/// Writes how many of so many pushes are alike, and the element that they reach.
fn show_pushes(
    alloc: Global,
    draws: Draws,
    rules: &Rules,
    pcp: &Pcp,
    with_steps: bool,
    count: u32,
    out: &mut String,
) -> Result<()> {
    let mut draws = draws;
    let mut reached = nothing_reached(alloc, pcp)?;
    let mut alike = 0u32;
    for _ in 0..count {
        let generator = draws.below(pcp.rank().max(1)) + 1;
        let mut word = letters(alloc, reached.by_plain.exponents())?;
        word.push(generator)?;
        let tails = reached.listed.tails;
        reached.push(rules, pcp, generator);
        if reached.are_alike()
            && (!with_steps || steps_lead_to(alloc, rules, word, tails, &reached.by_plain)?)
        {
            alike = alike.saturating_add(1);
        }
    }
    writeln!(out, "    {alike} alike")?;
    show_element(out, &reached.by_plain)
}

/// Writes how many of so many pushes of words are alike, and the element that they reach.
fn show_words(
    alloc: Global,
    draws: Draws,
    rules: &Rules,
    pcp: &Pcp,
    count: u32,
    out: &mut String,
) -> Result<()>
    requires { 1 ≤ pcp.now.presentation.rank }
{
    let mut draws = draws;
    let mut reached = nothing_reached(alloc, pcp)?;
    let mut alike = 0u32;
    for _ in 0..count {
        let word = [
            syllable(&mut draws, pcp),
            syllable(&mut draws, pcp),
            syllable(&mut draws, pcp),
        ];
        reached.push_word(rules, pcp, word, tail(&mut draws, pcp));
        if reached.are_alike() {
            alike = alike.saturating_add(1);
        }
    }
    writeln!(out, "    {alike} alike")?;
    show_element(out, &reached.by_plain)
}
