//! The plain collector, with elements to work in.

ghost use Rattle.std.specs.Prelude.{◌≡◌, All, length, IfOk};
ghost use Rattle.pc_presentation.specs.Tailed.{IsElement};
ghost use Rattle.cert_checker.specs.MapWords.{IsBench};

use pc_presentation::{Elem, Pcp, Scratch};
use plain_collector::Plain;
use pq_base::NoMemory;
use std::alloc::Global;
use std::marker::Model;

/// The plain collector, with elements for the two sides of a relation and for the steps of a product. Only `new` takes memory.
#[derive(Drop)]
pub(crate) struct Bench {
    pub(crate) scratch: Scratch<Plain>,
    pub(crate) left: Elem,
    pub(crate) right: Elem,
    pub(crate) factor: Elem,
    pub(crate) next: Elem,
}

impl Model for Bench {
    ghost use Rattle.cert_checker.specs.MapWords.{BenchOf};

    ghost Value = { BenchOf };

    ghost view = { λ b. record { scratch = b.scratch; left = b.left; right = b.right; factor = b.factor; next = b.next } };
}

impl Bench {
    /// A bench for a presentation.
    pub(crate) fn new(alloc: Global, pcp: &Pcp) -> Result<Bench, NoMemory>
        ensures { IfOk result (λ bench. IsBench pcp.now bench) }
    {
        Ok(Bench {
            scratch: Scratch::new(alloc, pcp)?,
            left: Elem::one(alloc, pcp)?,
            right: Elem::one(alloc, pcp)?,
            factor: Elem::one(alloc, pcp)?,
            next: Elem::one(alloc, pcp)?,
        })
    }
}

/// The identity, `count` times.
pub(crate) fn ones(alloc: Global, pcp: &Pcp, count: usize) -> Result<Vec<Elem>, NoMemory>
    ensures elements { IfOk result (λ v. All (IsElement pcp.now) v.items) }
    ensures count { IfOk result (λ v. length v.items ≡ count) }
{
    let mut elements = Vec::with_capacity(alloc, count)?;
    for _ in 0..count {
        elements.push(Elem::one(alloc, pcp)?)?;
    }
    Ok(elements)
}
