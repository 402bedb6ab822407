//! Products of elements by a collector.

ghost use Rattle.pc_presentation.specs.Tailed.{IsElement};

use crate::numbers::{next, residue};
use pc_presentation::{Collect, Elem, Pcp, Scratch, product};
use pq_base::NoMemory;
use std::alloc::Global;

/// Multiplies an element by another so many times, and gives the sum of the exponents.
pub fn multiplied<C: Collect + Drop>(
    alloc: Global,
    pcp: &Pcp,
    count: u32,
) -> Result<u32, NoMemory> {
    let mut scratch = Scratch::<C>::new(alloc, pcp)?;
    let mut at = Elem::one(alloc, pcp)?;
    let mut factor = Elem::one(alloc, pcp)?;
    let mut out = Elem::one(alloc, pcp)?;
    let seed = refill(&mut at, pcp, 1);
    refill(&mut factor, pcp, seed);
    for _ in 0..count {
        product(&mut scratch, pcp, &at, &factor, &mut out);
        at.copy_from(&out);
    }
    Ok(sum_of(&at))
}

/// Puts a residue at each generator, and gives the number behind the last.
fn refill(at: &mut Elem, pcp: &Pcp, first: u32) -> u32
    requires { IsElement pcp.now at.old }
    ensures { IsElement pcp.now at.new }
{
    let mut seed = first;
    for i in 0..pcp.rank() {
        seed = next(seed);
        at.set_exponent(i + 1, residue(seed, pcp.prime()));
    }
    seed
}

fn sum_of(at: &Elem) -> u32 {
    let mut sum = 0u32;
    for exponent in at.exponents() {
        sum = sum.wrapping_add(u32::from(*exponent));
    }
    sum
}
