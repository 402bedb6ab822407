//! Laws of quotients and refusals: each function does nothing, and its clause is a theorem.

ghost use Rattle.tower.specs.QuotientLaws.{SameRelatorsGiveSameAnswers, AllNumbersNameAll, NamedPartsHaveTheRelators};
ghost use Rattle.tower.specs.QuotientLaws.{NamedPartsHaveTheAnswers};
ghost use Rattle.tower.specs.QuotientLaws.{PresentationsObeyedAlikeHaveSameAnswers, EnoughAndFixedAreObeyedAlike};

/// L-presentations with the same relators have the same quotients, and the same refusals.
pub fn same_relators_give_same_answers()
    ensures { SameRelatorsGiveSameAnswers }
{}

/// All numbers name all relators that are carried along no endomorphism.
pub fn all_numbers_name_all()
    ensures { AllNumbersNameAll }
{}

/// Without endomorphisms the relators of a presentation are those of its named part with all numbers.
pub fn named_parts_have_the_relators()
    ensures { NamedPartsHaveTheRelators }
{}

/// So a quotient, or a refusal, of the one is that of the other.
pub fn named_parts_have_the_answers()
    ensures { NamedPartsHaveTheAnswers }
{}

/// L-presentations that elements of group tables of class at most c obey alike have the same largest quotients and orders up to
/// that class, and the same quotients and refusals.
pub fn presentations_obeyed_alike_have_same_answers()
    ensures { PresentationsObeyedAlikeHaveSameAnswers }
{}

/// Where recorded relators are enough up to class c, they and the fixed ones are obeyed as the whole presentation is.
pub fn enough_and_fixed_are_obeyed_alike()
    ensures { EnoughAndFixedAreObeyedAlike }
{}
