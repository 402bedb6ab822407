//! Names of the rows of a closure.

use pq_base::Path;

/// Which row a new row of a closure is: a given row times matrices.
#[derive(Debug, Drop)]
pub struct Spun {
    /// The number of the given row, counted from 1.
    pub row: u32,
    /// The numbers of the matrices, counted from 1. The row is multiplied by the last of them first.
    pub along: Path,
}
