//! The collector.

use crate::steps::{push, push_times};
use pc_presentation::{Collect, Elem, Pcp, Syllable, add_tail};
use pq_base::NoMemory;
use std::alloc::Global;

/// The collector that pushes by the plain rule. It keeps nothing.
#[derive(Debug, Drop)]
pub struct Plain;

impl Collect for Plain {
    ghost use Rattle.pc_presentation.specs.Collection.{plain_push};
    ghost use Rattle.pc_presentation.proofs.quotients.CollectorArithmetic.{plain_rule_is_a_meaning};

    ghost meaning = { plain_push };

    ghost serves = { λ _ _. Unit {0} };

    fn fresh(_alloc: Global, _pcp: &Pcp) -> Result<Plain, NoMemory> {
        Ok(Plain)
    }

    fn push(&mut self, pcp: &Pcp, at: &mut Elem, generator: u16) {
        push(pcp, at, generator);
    }

    fn push_word(&mut self, pcp: &Pcp, at: &mut Elem, word: &[Syllable], tail: Option<u16>) {
        for s in word {
            push_times(pcp, at, s.generator, s.exponent);
        }
        add_tail(pcp, at, tail);
    }

    ghost reaches = { plain_rule_is_a_meaning };
}
