//! What an insertion into a basis did.

/// The answer to an insertion.
#[derive(Clone, Copy, Debug, PartialEq, Eq)]
pub enum Insertion {
    /// The row was added, and this is the column of the new pivot.
    Added(u16),
    /// The row is in the span of the rows that were added before.
    Dependent,
}
