//! Where the rows of a step come from.

use pc_presentation::Overlap;
use pq_base::Path;

/// The two runs of a computation: over the iterated relators alone, and over all.
#[derive(Clone, Copy, Debug, PartialEq, Eq)]
pub enum Run {
    /// The iterated relators.
    Iterated,
    /// The whole presentation.
    Whole,
}

/// What the row of a step comes from. Numbers of relators count from 1.
#[derive(Debug, Drop)]
pub enum RowSource {
    /// The row of an overlap.
    Test(Overlap),
    /// The row of a fixed relator.
    Fixed(u32),
    /// The row of an iterated relator along a path of endomorphisms.
    Iterated(u32, Path),
}
