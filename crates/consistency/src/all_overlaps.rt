//! All overlaps, one after the other.

ghost use Rattle.std.specs.Prelude.{◌≡◌};
ghost use Rattle.std.specs.Iterator.{YieldsFirst, item_count};
ghost use Rattle.consistency.specs.AllOverlaps.{all_overlaps};

use crate::next_overlap::{after, first};
use pc_presentation::Overlap;
use std::marker::Model;

/// The overlaps of so many generators, each once: `Triple` by (k, j, i), then `Left` and `Right` by (j, i), then `Own` by i,
/// each rising. Contracts see the list of those that are left. It takes no memory, and each step takes as long as the others.
#[derive(Debug, Drop)]
pub struct Tests {
    rank: u16,
    next: Option<Overlap>,
}

impl Model for Tests {
    ghost use Rattle.std.specs.Prelude.{List, IfSome};
    ghost use Rattle.pc_presentation.specs.declared.overlap.Overlap.{Overlap as OverlapByNumbers};
    ghost use Rattle.pc_presentation.specs.OverlapNumbers.{AreOverlapNumbers};
    ghost use Rattle.consistency.specs.OverlapsLeft.{left_from};

    ghost Value = { List OverlapByNumbers };

    ghost view = { λ t. left_from t.rank t.next };

    ghost invariant = { λ t. IfSome t.next (λ o. AreOverlapNumbers t.rank o) };
}

impl Tests {
    /// All overlaps of `rank` generators.
    pub fn all(rank: u16) -> Tests
        ensures { result ≡ all_overlaps rank }
    {
        Tests {
            rank,
            next: first(rank),
        }
    }
}

impl Iterator for Tests {
    type Item = Overlap;

    ghost next_gives = { YieldsFirst (λ overlaps. overlaps) };

    ghost remaining = { item_count (λ overlaps. overlaps) };

    fn next(&mut self) -> Option<Overlap> {
        let overlap = self.next?;
        self.next = after(self.rank, overlap);
        Some(overlap)
    }
}
