//! Laws of overlaps and their rows: each function does nothing, and its clause is a theorem.

ghost use Rattle.consistency.specs.ConsistencyLaws.{EachOverlapOnce, OverlapRowsAreTrivial};

/// The list of all overlaps of n generators has each of them once, and nothing else.
pub fn each_overlap_once()
    ensures { EachOverlapOnce }
{}

/// In every presentation with rows, over every collector, where both ways of an overlap reach the same exponents, the word of
/// the difference of their rows is joined to the empty word.
#[tactic(auto, using(crate::proofs::CoverRows::overlap_rows_are_trivial))]
pub fn overlap_rows_are_trivial()
    ensures { OverlapRowsAreTrivial }
{}
