//! A collector with elements to work in.

ghost use Rattle.std.specs.Prelude.{◌≡◌, IfOk};
ghost use Rattle.pc_presentation.specs.Scratch.{IsScratch};

use crate::collect::Collect;
use crate::elem::Elem;
use crate::pcp::Pcp;
use pq_base::NoMemory;
use std::alloc::Global;
use std::marker::Model;

/// A collector, and two elements to work in. Only `new` takes memory.
#[derive(Debug, Drop)]
pub struct Scratch<C: Collect> {
    pub(crate) left: Elem,
    pub(crate) right: Elem,
    pub(crate) collector: C,
}

impl<C: Collect> Model for Scratch<C> {
    ghost use Rattle.std.specs.Prelude.{length};
    ghost use Rattle.pc_presentation.specs.Scratch.{Workspace};

    ghost Value = { Workspace };

    ghost view = { λ s. record { left = s.left; right = s.right } };

    ghost invariant = { λ s. C.serves s.collector (length s.left.state.exponents) };
}

impl<C: Collect> Scratch<C> {
    /// A scratch for a presentation, and for all others of its prime, rank and number of tails.
    pub fn new(alloc: Global, pcp: &Pcp) -> Result<Scratch<C>, NoMemory>
        ensures { IfOk result (λ s. IsScratch pcp.now s) }
    {
        Ok(Scratch {
            left: Elem::one(alloc, pcp)?,
            right: Elem::one(alloc, pcp)?,
            collector: C::fresh(alloc, pcp)?,
        })
    }

    /// The first of the two elements.
    pub fn left(&self) -> &Elem
        ensures { result.now ≡ self.now.left }
    {
        &self.left
    }

    /// The second of the two elements.
    pub fn right(&self) -> &Elem
        ensures { result.now ≡ self.now.right }
    {
        &self.right
    }
}
