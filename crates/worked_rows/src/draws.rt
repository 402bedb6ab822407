//! Numbers that look random, and words and tails that are drawn by them.

ghost use Rattle.std.specs.Prelude.{◌<◌, ◌≤◌};
ghost use Rattle.pc_presentation.specs.Relation.{IsTail};

use pc_presentation::{Pcp, Syllable};

/// A linear congruential generator.
#[derive(Drop)]
pub(crate) struct Draws(pub(crate) u32);

impl Draws {
    /// A number below `n`.
    pub(crate) fn below(&mut self, n: u16) -> u16
        requires { 0 < n }
        ensures { result < n }
    {
        self.0 = self.0.wrapping_mul(1_103_515_245).wrapping_add(12_345) & 0x7fff_ffff;
        (self.0 >> 16) as u16 % n
    }
}

/// A drawn generator, to a drawn exponent of at most twice the prime.
pub(crate) fn syllable(draws: &mut Draws, pcp: &Pcp) -> Syllable
    requires { 1 ≤ pcp.now.presentation.rank }
    ensures from_one { 1 ≤ result.generator }
    ensures in_range { result.generator ≤ pcp.now.presentation.rank }
{
    let generator = draws.below(pcp.rank()) + 1;
    let exponent = draws.below(u16::from(pcp.prime().value()) * 2 + 1) as u8;
    Syllable {
        generator,
        exponent,
    }
}

/// A drawn tail, or none.
pub(crate) fn tail(draws: &mut Draws, pcp: &Pcp) -> Option<u16>
    ensures { IsTail pcp.now.tails result }
{
    let tail = draws.below(8);
    if 1 <= tail && tail <= pcp.tails() {
        Some(tail)
    } else {
        None
    }
}
