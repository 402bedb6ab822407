//! Laws of the definitions: each function does nothing, and its clause is a theorem.

ghost use Rattle.pq_base.specs.Laws.{ClassesGrow, CommutatorsOfLevels, GeneratedTablesHaveTheClass, JoinedWordsAreACongruence};
ghost use Rattle.pq_base.specs.Laws.{JoinedWordsHaveEqualValues, JoinedWordsNeedNoOtherLetters, LevelsAreNormal, OrdersAreUnique};
ghost use Rattle.pq_base.specs.Laws.{RestrictionsAreWhole, RestrictionsCompose, SameRelatorsGiveSameQuotients};
ghost use Rattle.pq_base.specs.Laws.{SubstitutionsCarryJoinedWords, SubstitutionsCarryTheSeries, ValuesCarryTheSeries};

/// Joined words are a congruence: an equivalence that concatenation and inversion respect, in which each relator and each
/// cancelling pair is joined to the empty word. So the words of a presentation stand for the elements of a group.
#[tactic(auto, using(crate::proofs::words::JoinedLaws::joined_words_are_a_congruence))]
pub fn joined_words_are_a_congruence()
    ensures { JoinedWordsAreACongruence }
{}

/// Von Dyck's theorem for words: where the images of the generators kill the relators of one presentation in another, the
/// substitution of the images carries joined words to joined words.
#[tactic(auto, using(crate::proofs::words::WordGroup::substitutions_carry_joined_words))]
pub fn substitutions_carry_joined_words()
    ensures { SubstitutionsCarryJoinedWords }
{}

/// Von Dyck's theorem for finite groups: where elements of a group table give each relator the value 0, joined words have
/// equal values.
#[tactic(auto, using(crate::proofs::tables::TableGroup::joined_words_have_equal_values))]
pub fn joined_words_have_equal_values()
    ensures { JoinedWordsHaveEqualValues }
{}

/// Chains need no letters but those of the presentation: words over its generators are joined exactly where a chain of
/// words over its generators leads from the one to the other.
#[tactic(auto, using(crate::proofs::words::RangeLaws::joined_words_need_no_other_letters))]
pub fn joined_words_need_no_other_letters()
    ensures { JoinedWordsNeedNoOtherLetters }
{}

/// Each level of the lower exponent-p series of a presentation is a normal set of words: it holds products, inverses and
/// conjugates of its words, and all of the next level.
pub fn levels_are_normal()
    ensures { LevelsAreNormal }
{}

/// A presentation of p-class at most c has p-class at most any greater number.
pub fn classes_grow()
    ensures { ClassesGrow }
{}

/// A homomorphism into a finite group carries the lower exponent-p series: where elements of a group table give each relator
/// the value 0, the value of a word of a level lies in the level of the same number.
#[tactic(auto, using(crate::proofs::CarryLaws::values_carry_the_series))]
pub fn values_carry_the_series()
    ensures { ValuesCarryTheSeries }
{}

/// A finite group that is an image of the presented group has p-class at most that of the presentation.
#[tactic(auto, using(crate::proofs::CarryLaws::generated_tables_have_the_class))]
pub fn generated_tables_have_the_class()
    ensures { GeneratedTablesHaveTheClass }
{}

/// A substitution between presentations of one prime that kills the relators carries the lower exponent-p series.
#[tactic(auto, using(crate::proofs::CarryLaws::substitutions_carry_the_series))]
pub fn substitutions_carry_the_series()
    ensures { SubstitutionsCarryTheSeries }
{}

/// The commutator of a word of level a and a word of level b of the series lies in level a + b + 1.
#[tactic(auto, using(crate::proofs::groups::LevelCommutators::commutators_of_levels))]
pub fn commutators_of_levels()
    ensures { CommutatorsOfLevels }
{}

/// An answer cut to a class and then to a smaller one is cut to the smaller one.
#[tactic(auto, using(crate::proofs::Restrictions::restrictions_compose))]
pub fn restrictions_compose()
    ensures { RestrictionsCompose }
{}

/// An answer cut to its class or a greater one is the whole answer.
#[tactic(auto, using(crate::proofs::Restrictions::restrictions_are_whole))]
pub fn restrictions_are_whole()
    ensures { RestrictionsAreWhole }
{}

/// The largest quotient of an L-presented group of p-class at most k has at most one order: two tables with its universal
/// property have as many elements.
pub fn orders_are_unique()
    ensures { OrdersAreUnique }
{}

/// L-presentations with the same relators have the same largest quotients, and the same orders.
pub fn same_relators_give_same_quotients()
    ensures { SameRelatorsGiveSameQuotients }
{}
