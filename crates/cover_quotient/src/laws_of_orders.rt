//! Laws of the orders of largest quotients: each function does nothing, and its clause is a theorem.

ghost use Rattle.cover_quotient.specs.OrderLaws.{LargestQuotientsHaveTheOrder};

/// An answer that is the largest quotient has the order of its rank: its normal words are a table of p^rank elements that
/// the images generate, with a homomorphism into each table of p-class at most k that obeys the relators.
pub fn largest_quotients_have_the_order()
    ensures { LargestQuotientsHaveTheOrder }
{}
