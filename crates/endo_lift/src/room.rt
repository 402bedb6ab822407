//! Elements to work in.

ghost use Rattle.std.specs.Prelude.{◌≡◌, ◌++◌, IfOk};
ghost use Rattle.pq_base.specs.SignedWord.{copies};
ghost use Rattle.pq_base.specs.Joined.{Joined};
ghost use Rattle.pc_presentation.specs.Rowed.{flat};
ghost use Rattle.pc_presentation.specs.Arithmetic.{word_of};
ghost use Rattle.pc_presentation.specs.Tailed.{rowed_presentation, IsElement};
ghost use Rattle.pc_presentation.specs.Scratch.{IsScratch};
ghost use Rattle.endo_lift.specs.Values.{IsRoom};

use pc_presentation::{Collect, Elem, Pcp, Scratch, product};
use pq_base::NoMemory;
use std::alloc::Global;

/// Elements that are written over: the value that is made, and two to make it with. Only `new` takes memory.
#[derive(Drop)]
pub(crate) struct Room {
    pub(crate) value: Elem,
    pub(crate) factor: Elem,
    pub(crate) product: Elem,
}

impl Room {
    /// Room for elements of a presentation.
    pub(crate) fn new(alloc: Global, pcp: &Pcp) -> Result<Room, NoMemory>
        ensures { IfOk result (λ r. IsRoom pcp.now r) }
    {
        Ok(Room {
            value: Elem::one(alloc, pcp)?,
            factor: Elem::one(alloc, pcp)?,
            product: Elem::one(alloc, pcp)?,
        })
    }

    /// Multiplies the value by an element so many times.
    pub(crate) fn multiply<C: Collect>(
        &mut self,
        s: &mut Scratch<C>,
        pcp: &Pcp,
        factor: &Elem,
        times: u8,
    )
        requires scratch { IsScratch pcp.now s.old }
        requires room { IsRoom pcp.now self.old }
        requires factor { IsElement pcp.now factor.now }
        ensures scratch { IsScratch pcp.now s.new }
        ensures room { IsRoom pcp.now self.new }
        ensures joined { let Y = rowed_presentation pcp.now in
            Joined (flat Y) (word_of Y self.new.value.state) (word_of Y self.old.value.state ++ copies (word_of Y factor.now.state) times) }
    {
        for _ in 0..times {
            product(s, pcp, &self.value, factor, &mut self.product);
            std::mem::swap(&mut self.value, &mut self.product);
        }
    }
}
