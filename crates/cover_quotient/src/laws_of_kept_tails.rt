//! Laws of the tails that a step keeps: each function does nothing, and its clause is a theorem.

ghost use Rattle.cover_quotient.specs.KeptTailLaws.{KeptImagesMayDefine, KeptTailsMayDefine, KeptTailsOfLargestQuotientsMayDefine};
ghost use Rattle.cover_quotient.specs.KeptTailLaws.{NextAnswersAreReady};

/// At class 0 each tail of the full cover comes from an image, so each kept one may define a generator.
pub fn kept_images_may_define()
    ensures { KeptImagesMayDefine }
{}

/// At a later class each kept tail of the full cover comes from a qualifying relation with the empty word: where the answer
/// is ready, the span holds each overlap's difference of rows, and the images of the cover modulo the span fit the answer
/// at its class, in the table of normal words.
pub fn kept_tails_may_define()
    ensures { KeptTailsMayDefine }
{}

/// In the full cover of an answer which, cut at each class up to its own, is the largest quotient of that class of one L-presented
/// group, each tail that is kept modulo the rows of all overlaps and all relators may define a generator: at class 0 it comes
/// from an image, and later from a qualifying relation with the empty word. Nothing else is asked of the answer, neither that it
/// is canonical nor that its right sides obey weights.
pub fn kept_tails_of_largest_quotients_may_define()
    ensures { KeptTailsOfLargestQuotientsMayDefine }
{}

/// The next answer is ready for the class after it: it is consistent, its new generators have the next weight and relations
/// with empty words, and the generators before have the class of the answer that was covered.
pub fn next_answers_are_ready()
    ensures { NextAnswersAreReady }
{}
