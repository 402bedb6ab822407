//! What is proved of rows of relators. The functions do nothing: each states a law as its clause.

ghost use Rattle.epimorphism.specs.RelatorRows.{KilledRelatorsHaveRows, RowsOfTwoCollectorsDifferByTrivialRows};

/// In each cover of a consistent answer, over each collector, the value of a word lies in the tails alone exactly where the
/// answer kills the word.
pub fn killed_relators_have_rows()
    ensures { KilledRelatorsHaveRows }
{}

/// In each cover, consistent or not, two collectors that both find a row of one word find rows whose words are joined.
pub fn rows_of_two_collectors_differ_by_trivial_rows()
    ensures { RowsOfTwoCollectorsDifferByTrivialRows }
{}
