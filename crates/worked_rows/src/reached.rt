//! What pushes reach: by the plain collector, by the one that keeps a stack, and by the plain rule as it is defined.

ghost use Rattle.std.specs.Prelude.{IfOk};
ghost use Rattle.pc_presentation.specs.Syllable.{AreGenerators};
ghost use Rattle.pc_presentation.specs.Relation.{IsTail};
ghost use Rattle.pc_presentation.specs.Tailed.{IsElement};
ghost use Rattle.stack_collector.specs.Stacks.{IsReady};

use crate::by_definition::{Listed, Rules, push, push_word};
use crate::element_calls::push_if_any;
use anyhow::Result;
use fp_rows::Row;
use pc_presentation::{Collect, Elem, Pcp, Syllable};
use plain_collector::Plain;
use stack_collector::Stack;
use std::alloc::Global;

/// What pushes have reached by both collectors, and by the definition.
#[derive(Drop)]
pub(crate) struct Reached {
    plain: Plain,
    pub(crate) by_plain: Elem,
    stack: Stack,
    by_stack: Elem,
    pub(crate) listed: Listed,
}

/// The identity, before any push.
pub(crate) fn nothing_reached(alloc: Global, pcp: &Pcp) -> Result<Reached>
    ensures ready { IfOk result (λ r. IsReady r.stack pcp.now.presentation.rank) }
    ensures by_plain { IfOk result (λ r. IsElement pcp.now r.by_plain) }
    ensures by_stack { IfOk result (λ r. IsElement pcp.now r.by_stack) }
{
    Ok(Reached {
        plain: Plain::fresh(alloc, pcp)?,
        by_plain: Elem::one(alloc, pcp)?,
        stack: Stack::fresh(alloc, pcp)?,
        by_stack: Elem::one(alloc, pcp)?,
        listed: Listed {
            exponents: [0; 8],
            tails: [0; 5],
        },
    })
}

impl Reached {
    /// Pushes a generator.
    pub(crate) fn push(&mut self, rules: &Rules, pcp: &Pcp, generator: u16)
        requires ready { IsReady self.old.stack pcp.now.presentation.rank }
        requires by_plain { IsElement pcp.now self.old.by_plain }
        requires by_stack { IsElement pcp.now self.old.by_stack }
        ensures ready { IsReady self.new.stack pcp.now.presentation.rank }
        ensures by_plain { IsElement pcp.now self.new.by_plain }
        ensures by_stack { IsElement pcp.now self.new.by_stack }
    {
        if push_if_any(&mut self.plain, pcp, &mut self.by_plain, generator)
            && push_if_any(&mut self.stack, pcp, &mut self.by_stack, generator)
            && 1 <= generator
            && generator <= 8
        {
            push(rules, &mut self.listed, generator, 8);
        }
    }

    /// Pushes a word, and adds a tail.
    pub(crate) fn push_word(
        &mut self,
        rules: &Rules,
        pcp: &Pcp,
        word: [Syllable; 3],
        tail: Option<u16>,
    )
        requires ready { IsReady self.old.stack pcp.now.presentation.rank }
        requires by_plain { IsElement pcp.now self.old.by_plain }
        requires by_stack { IsElement pcp.now self.old.by_stack }
        requires generators { AreGenerators pcp.now.presentation.rank word }
        requires tail { IsTail pcp.now.tails tail }
        ensures ready { IsReady self.new.stack pcp.now.presentation.rank }
        ensures by_plain { IsElement pcp.now self.new.by_plain }
        ensures by_stack { IsElement pcp.now self.new.by_stack }
    {
        self.plain.push_word(pcp, &mut self.by_plain, &word, tail);
        self.stack.push_word(pcp, &mut self.by_stack, &word, tail);
        push_word(rules, &mut self.listed, &word, tail);
    }

    /// Whether all have reached the same.
    pub(crate) fn are_alike(&self) -> bool {
        is_listed(&self.by_plain, &self.listed) && is_listed(&self.by_stack, &self.listed)
    }
}

/// Whether an element has these exponents and tails.
fn is_listed(at: &Elem, listed: &Listed) -> bool {
    listed.exponents.as_slice().starts_with(at.exponents()) && entries(at.tail()) == listed.tails
}

/// The first five entries of a row, and zeros where it has fewer.
pub(crate) fn entries(row: &Row) -> [u8; 5] {
    let mut entries = [0; 5];
    for k in 0..row.width().min(5) {
        entries[k as usize] = row.get(k + 1);
    }
    entries
}
