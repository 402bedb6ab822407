//! The plain rule and directed steps as they are defined, on arrays and lists: the collector is compared with them.

ghost use Rattle.std.specs.Prelude.{◌≤◌};

use pc_presentation::{Relation, Syllable};
use pq_base::NoMemory;
use std::alloc::Global;

/// A relation: the exponents of its right side, and its tail, counted from 1.
#[derive(Clone, Copy)]
pub(crate) struct Rule {
    pub(crate) relation: Relation,
    pub(crate) side: [u8; 8],
    pub(crate) tail: Option<u16>,
}

/// The relations of at most eight generators that aren't trivial.
#[derive(Drop)]
pub(crate) struct Rules {
    pub(crate) prime: u8,
    pub(crate) list: Vec<Rule>,
}

/// The exponents of eight generators, and a row of five tails.
#[derive(Clone, Copy)]
pub(crate) struct Listed {
    pub(crate) exponents: [u8; 8],
    pub(crate) tails: [u8; 5],
}

impl Rules {
    fn rule(&self, relation: Relation) -> Rule {
        for rule in &self.list {
            if rule.relation == relation {
                return *rule;
            }
        }
        Rule {
            relation,
            side: [0; 8],
            tail: None,
        }
    }
}

/// One more, modulo the prime.
fn raised(entry: u8, prime: u8) -> u8 {
    let more = entry.wrapping_add(1);
    if more == prime { 0 } else { more }
}

fn add_tail(prime: u8, tails: &mut [u8; 5], tail: Option<u16>) {
    for k in 0..5 {
        if tail == Some(k + 1) {
            tails[k as usize] = raised(tails[k as usize], prime);
        }
    }
}

/// Pushes a generator by the plain rule. Pushes of later generators inside it are at most so deep.
#[cycle(definition)]
pub(crate) fn push(rules: &Rules, at: &mut Listed, generator: u16, depth: u8)
    requires from_one { 1 ≤ generator }
    requires in_range { generator ≤ 8 }
{
    if depth == 0 {
        return;
    }
    let later = at.exponents;
    for k in generator..8 {
        at.exponents[k as usize] = 0;
    }
    let place = generator as usize - 1;
    at.exponents[place] = raised(at.exponents[place], rules.prime);
    if at.exponents[place] == 0 {
        push_side(rules, at, Relation::Power(generator), depth - 1);
    }
    for j in generator..8 {
        for _ in 0..later[j as usize] {
            push(rules, at, j + 1, depth - 1);
            push_side(rules, at, Relation::Commutator(j + 1, generator), depth - 1);
        }
    }
}

/// Pushes the letters of the right side of a relation, and adds its tail.
#[cycle(definition)]
fn push_side(rules: &Rules, at: &mut Listed, relation: Relation, depth: u8) {
    let rule = rules.rule(relation);
    for k in 0..8 {
        for _ in 0..rule.side[k as usize] {
            push(rules, at, k + 1, depth);
        }
    }
    add_tail(rules.prime, &mut at.tails, rule.tail);
}

/// Pushes the letters of a word of generators up to 8, and adds a tail.
pub(crate) fn push_word(rules: &Rules, at: &mut Listed, word: &[Syllable], tail: Option<u16>) {
    for s in word {
        if 1 <= s.generator && s.generator <= 8 {
            push_times(rules, at, s.generator, s.exponent);
        }
    }
    add_tail(rules.prime, &mut at.tails, tail);
}

fn push_times(rules: &Rules, at: &mut Listed, generator: u16, times: u8)
    requires from_one { 1 ≤ generator }
    requires in_range { generator ≤ 8 }
{
    for _ in 0..times {
        push(rules, at, generator, 8);
    }
}

/// The relation whose left side a word begins with.
fn left_side(prime: u8, word: &[u16]) -> Option<Relation> {
    match word {
        [j, i, ..] if i < j => Some(Relation::Commutator(*j, *i)),
        [i, ..] if word.iter().take(prime as usize).filter(|x| *x == i).count() == prime as usize =>
            { Some(Relation::Power(*i)) }
        _ => None,
    }
}

/// Adds the letters of exponents to a word.
pub(crate) fn spell(word: &mut Vec<u16>, exponents: &[u8]) -> Result<(), NoMemory> {
    let mut generator = 0u16;
    for times in exponents {
        generator = generator.wrapping_add(1);
        for _ in 0..*times {
            word.push(generator)?;
        }
    }
    Ok(())
}

/// The word after one directed step at the first place that has one.
fn stepped(
    alloc: Global,
    rules: &Rules,
    word: &[u16],
    tails: &mut [u8; 5],
) -> Result<Option<Vec<u16>>, NoMemory> {
    for k in 0..word.len() {
        if let Some(relation) = left_side(rules.prime, &word[k..]) {
            let rule = rules.rule(relation);
            let mut next = Vec::from_slice(alloc, &word[..k])?;
            let taken = match relation {
                Relation::Commutator(j, i) => {
                    next.push(i)?;
                    next.push(j)?;
                    2
                }
                Relation::Power(_) => rules.prime as usize,
            };
            spell(&mut next, rule.side.as_slice())?;
            for letter in word.iter().skip(k).skip(taken) {
                next.push(*letter)?;
            }
            add_tail(rules.prime, tails, rule.tail);
            return Ok(Some(next));
        }
    }
    Ok(None)
}

/// The word after directed steps until there are no more, and at most a hundred thousand.
pub(crate) fn normal_word(
    alloc: Global,
    rules: &Rules,
    word: Vec<u16>,
    tails: &mut [u8; 5],
) -> Result<Vec<u16>, NoMemory> {
    let mut word = word;
    for _ in 0..100_000 {
        match stepped(alloc, rules, word.as_slice(), tails)? {
            Some(next) => word = next,
            None => return Ok(word),
        }
    }
    Ok(word)
}
