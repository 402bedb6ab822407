//! Laws of canonical answers, and of commutators of the levels of a series: each function does nothing, and its clause is a
//! theorem.

ghost use Rattle.cover_quotient.specs.CanonicalAnswerLaws.{WeightsGiveTheClass, ConsistentAnswersAreReady};
ghost use Rattle.cover_quotient.specs.CanonicalAnswerLaws.{CanonicalAnswersHaveNoSmallerClass, HeavyTailsAreTrivial, NextAnswersTakeTurns};
ghost use Rattle.cover_quotient.specs.CanonicalAnswerLaws.{NextAnswersAreCanonical, TrivialAnswersAreCanonical};

/// Weights give the class: cut to class k, the presentation of an answer that obeys weights has p-class at most k. The
/// answer need not be consistent.
pub fn weights_give_the_class()
    ensures { WeightsGiveTheClass }
{}

/// A consistent answer that obeys weights is ready for the class after its own.
pub fn consistent_answers_are_ready()
    ensures { ConsistentAnswersAreReady }
{}

/// A canonical and consistent answer has no smaller p-class than it shows.
pub fn canonical_answers_have_no_smaller_class()
    ensures { CanonicalAnswersHaveNoSmallerClass }
{}

/// In a cover of a canonical answer the tail of a commutator of two generators is trivial, where the sum of their weights is
/// above the class and one. The answer need not be consistent.
pub fn heavy_tails_are_trivial()
    ensures { HeavyTailsAreTrivial }
{}

/// Where the entries of an answer define its generators in turn, class by class, so do those of the next answer: a kept tail
/// defines the next generator of the new class, and one with a pivot defines none.
pub fn next_answers_take_turns()
    ensures { NextAnswersTakeTurns }
{}

/// The next answer of a canonical and consistent answer is canonical, where each kept tail may define a generator and the span
/// holds each overlap's difference of rows.
pub fn next_answers_are_canonical()
    ensures { NextAnswersAreCanonical }
{}

/// The answer of class 0 with no generators is canonical.
pub fn trivial_answers_are_canonical()
    ensures { TrivialAnswersAreCanonical }
{}
