//! Laws of the next answer: each function does nothing, and its clause is a theorem.

ghost use Rattle.cover_quotient.specs.AnswerLaws.{QuotientsAreRowedAnswers, NextAnswersAreAnswers, NextAnswersKeepTheClassesBefore};
ghost use Rattle.cover_quotient.specs.AnswerLaws.{NothingKeptChangesNothing, NextAnswersHaveTheNextClass, NextAnswersAreConsistent};
ghost use Rattle.cover_quotient.specs.AnswerLaws.{ValuesAreCarried, WordsOfTheSpanDie, NextAnswersKill, SpellingsArePreserved};

/// A cover modulo the span of a reduced basis is an answer with rows.
#[tactic(auto, using(crate::proofs::next_answers::AnswerLaws::quotients_are_rowed_answers))]
pub fn quotients_are_rowed_answers()
    ensures { QuotientsAreRowedAnswers }
{}

/// Where a tail is kept, and each kept tail may define a generator, the next answer is an answer, its class is one more, and
/// cut to the class before it is the answer that was covered.
#[tactic(auto, using(crate::proofs::next_answers::AnswerLaws::next_answers_are_answers))]
pub fn next_answers_are_answers()
    ensures { NextAnswersAreAnswers }
{}

/// The next answer and the answer before it restrict to the same answers of all classes up to the latter's.
#[tactic(auto, using(crate::proofs::next_answers::AnswerLaws::next_answers_keep_the_classes_before))]
pub fn next_answers_keep_the_classes_before()
    ensures { NextAnswersKeepTheClassesBefore }
{}

/// Where no tail is kept, the answer of the next class is the answer itself.
#[tactic(auto, using(crate::proofs::next_answers::AnswerLaws::nothing_kept_changes_nothing))]
pub fn nothing_kept_changes_nothing()
    ensures { NothingKeptChangesNothing }
{}

/// The p-class of the next answer's presentation is at most one more.
pub fn next_answers_have_the_next_class()
    ensures { NextAnswersHaveTheNextClass }
{}

/// The next answer is consistent where the answer is and the span holds each overlap's difference of rows.
pub fn next_answers_are_consistent()
    ensures { NextAnswersAreConsistent }
{}

/// The value of a word over the given generators in the next answer is its value in the cover, with the tails replaced by
/// the words of the rows that they become.
#[tactic(auto, using(crate::proofs::next_answers::AnswerLaws::values_are_carried))]
pub fn values_are_carried()
    ensures { ValuesAreCarried }
{}

/// A word over the given generators whose value in the cover is the word of a row of the span is trivial in the next answer.
pub fn words_of_the_span_die()
    ensures { WordsOfTheSpanDie }
{}

/// Where the value in the cover of each relator of an L-presentation is the word of a row of the span, the next answer kills
/// the relators.
pub fn next_answers_kill()
    ensures { NextAnswersKill }
{}

/// The generators spell the same words in the next answer, and each new one spells what its source spells in the words of
/// the generators before.
#[tactic(auto, using(crate::proofs::next_answers::AnswerLaws::spellings_are_preserved))]
pub fn spellings_are_preserved()
    ensures { SpellingsArePreserved }
{}
