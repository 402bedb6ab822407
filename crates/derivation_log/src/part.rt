//! The parts of a certificate, each of which may fail.

/// What is judged of a certificate. The first four are judged at each step of a run, the next four after its last step, and the last
/// three after the run of the whole.
#[derive(Clone, Copy, Debug, PartialEq, Eq)]
pub enum Part {
    /// The step has a class that is asked for, and each step before it kept a tail.
    Extra,
    /// Each source has a row in the cover.
    Row,
    /// Each tail that is eliminated is a sum of the rows.
    Sum,
    /// The tails that are kept give an answer within the limit on ranks.
    Rank,
    /// There is a step for each class that is asked for, or the last one kept no tail.
    Short,
    /// The overlaps agree.
    Overlap,
    /// The images carry the iterated relators to the identity.
    Iterated,
    /// The endomorphisms make maps of the answer into itself.
    Endo,
    /// The images carry the fixed relators to the identity.
    Fixed,
    /// There is a map of the answer of the iterated part into that of the whole.
    Map,
    /// The answer is the one that was built.
    Answer,
}
