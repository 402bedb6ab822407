//! Laws of spans, reduced bases and matrices: each function does nothing, and its clause is a theorem.

ghost use Rattle.fp_echelon.specs.Laws.{BasesSpanTheAddedRows, RepresentativesAreUnique, RowsOfTheSpanReduceToZero};
ghost use Rattle.fp_echelon.specs.Laws.{ReducedBasesOfOneSpanAreEqual, EverySpanHasAReducedBasis};
ghost use Rattle.fp_echelon.specs.MatrixLaws.{MatricesAreLinear, MatricesCarrySpans};

/// A basis spans exactly what the rows that were added to it span.
#[tactic(auto, using(crate::proofs::BasisLaws::basis_spans))]
pub fn bases_span_the_added_rows()
    ensures { BasesSpanTheAddedRows }
{}

/// Two rows that are 0 at every pivot of a reduced basis and differ from one row by rows of its span are equal.
#[tactic(auto, using(crate::proofs::SpanTheorems::representatives_are_unique))]
pub fn representatives_are_unique()
    ensures { RepresentativesAreUnique }
{}

/// A row is in the span of a reduced basis exactly where its representative is the zero row.
pub fn rows_of_the_span_reduce_to_zero()
    ensures { RowsOfTheSpanReduceToZero }
{}

/// Two reduced bases of one span have the same pivots, and at each pivot the same row.
#[tactic(auto, using(crate::proofs::SpanTheorems::reduced_bases_of_one_span_are_equal))]
pub fn reduced_bases_of_one_span_are_equal()
    ensures { ReducedBasesOfOneSpanAreEqual }
{}

/// Every list of rows has a reduced basis of its span, where each residue but 0 has an inverse.
#[tactic(auto, using(crate::proofs::SpanTheorems::every_span_has_a_reduced_basis))]
pub fn every_span_has_a_reduced_basis()
    ensures { EverySpanHasAReducedBasis }
{}

/// To multiply rows by a square matrix is a linear map of the rows of its width.
#[tactic(auto, using(crate::proofs::MatrixLaws::matrices_are_linear))]
pub fn matrices_are_linear()
    ensures { MatricesAreLinear }
{}

/// A matrix carries a span into another where it carries each of the rows that span it there.
#[tactic(auto, using(crate::proofs::MatrixLaws::matrices_carry_spans))]
pub fn matrices_carry_spans()
    ensures { MatricesCarrySpans }
{}
