//! Laws of rows modulo a span: each function does nothing, and its clause is a theorem.

ghost use Rattle.cover_quotient.specs.SpanLaws.{MappedWords, QuotientsByOverlapRowsAreConsistent, TrivialRowsAreInTheSpan};
ghost use Rattle.cover_quotient.specs.SpanLaws.{CombinationsOfTrivialRowsAreTrivial, TrivialRowsAreTheSpan};

/// Where the tails of a presentation with rows are replaced by the words of rows, joined words stay joined in the
/// presentation with its rows carried, and the word of a row is joined to the word of the row that it is carried to.
#[tactic(auto, using(crate::proofs::carried_rows::CarriedWords::mapped_words))]
pub fn mapped_words()
    ensures { MappedWords }
{}

/// Over a consistent presentation, modulo the span of a reduced basis that holds each overlap's difference of rows, the
/// flat reading is consistent.
#[tactic(auto, using(crate::proofs::spans::ConsistentQuotients::quotients_by_overlap_rows_are_consistent))]
pub fn quotients_by_overlap_rows_are_consistent()
    ensures { QuotientsByOverlapRowsAreConsistent }
{}

/// Over a consistent presentation each row whose word is joined to the empty word is in every span that holds each
/// overlap's difference of rows.
#[tactic(auto, using(crate::proofs::spans::TrivialRows::trivial_rows_are_in_the_span))]
pub fn trivial_rows_are_in_the_span()
    ensures { TrivialRowsAreInTheSpan }
{}

/// The combinations of rows whose words are joined to the empty word are such rows, also where the presentation is not
/// consistent.
pub fn combinations_of_trivial_rows_are_trivial()
    ensures { CombinationsOfTrivialRowsAreTrivial }
{}

/// Over a consistent presentation the rows whose words are joined to the empty word are exactly the span of the overlaps'
/// differences. So this span is the same for every collector.
pub fn trivial_rows_are_the_span()
    ensures { TrivialRowsAreTheSpan }
{}
