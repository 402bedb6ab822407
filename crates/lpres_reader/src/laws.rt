//! Laws of the grammar: each function does nothing, and its clause is a theorem.

ghost use Rattle.lpres_reader.specs.ReaderLaws.{CanonicalTextsAreShort, CanonicalTextsReadBack, EachLineIsOneTree, EachTextReadsOrFails};
ghost use Rattle.lpres_reader.specs.ReaderLaws.{LinesReadAsTheirTrees, VerdictsAreRight, WordsReadAsTheirTrees};

/// A line is at most one list of tokens, and these are at most one syntax tree.
pub fn each_line_is_one_tree()
    ensures { EachLineIsOneTree }
{}

/// Over distinct names, tokens read as a word exactly where they are those of a syntax tree whose names are known and
/// which passes no limit, and the word is what the tree means.
pub fn words_read_as_their_trees()
    ensures { WordsReadAsTheirTrees }
{}

/// Behind a presentation, a line reads as an item that keeps the limits on presentations exactly where its tokens are
/// those of a syntax tree whose names are known, which passes no limit and gives all images; and the item is what the
/// tree means.
pub fn lines_read_as_their_trees()
    ensures { LinesReadAsTheirTrees }
{}

/// Each text reads as exactly one presentation, or it has exactly one first fault.
pub fn each_text_reads_or_fails()
    ensures { EachTextReadsOrFails }
{}

/// The verdict on a text, which is computed, is the presentation that the text reads as, or its first fault.
pub fn verdicts_are_right()
    ensures { VerdictsAreRight }
{}

/// The canonical text of a presentation within the limits reads as that presentation.
#[tactic(auto, using(crate::proofs::canonical_texts::CanonicalReads::canonical_texts_read_back))]
pub fn canonical_texts_read_back()
    ensures { CanonicalTextsReadBack }
{}

/// The canonical text of a presentation within the limits is short enough to be read.
#[tactic(auto, using(crate::proofs::canonical_texts::CanonicalLengths::canonical_texts_are_short))]
pub fn canonical_texts_are_short()
    ensures { CanonicalTextsAreShort }
{}
