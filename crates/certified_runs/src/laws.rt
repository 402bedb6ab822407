//! What is proved of the certificates that are made of runs. The functions do nothing: each states a law as its clause.

ghost use Rattle.derivation_log.specs.declared.part.Part.TheVariants.{Extra, Row, Sum};
ghost use Rattle.certified_runs.specs.RunLaws.{StepsPass, StepsGiveAnswers, RunsNameFewSources, RunsAreNotShort, RunsBuildTheirAnswers};
ghost use Rattle.certified_runs.specs.RunLaws.{OverlapsOfConsistentAnswersAgree, KilledWordsAreCarried, EndomorphismsInducePlainly};
ghost use Rattle.certified_runs.specs.RunLaws.{ImagesMakeMaps, CertificatesOfRunsAreValid};

/// No step of a run is above the class that is asked for, or behind one that kept no tail.
pub fn steps_are_not_extra()
    ensures { StepsPass Extra }
{}

/// Each source that a step names has a row by the plain rule.
pub fn steps_have_plain_rows()
    ensures { StepsPass Row }
{}

/// Each line of a step is a sum of the rows of the sources that the step names, by the plain rule.
pub fn lines_are_sums_of_rows()
    ensures { StepsPass Sum }
{}

/// The tails that a step keeps may be kept, and the rank is within the limit, where the answer that the run ends with is one within it.
pub fn steps_give_answers()
    ensures { StepsGiveAnswers }
{}

/// No step names more sources than its cover has tails.
pub fn runs_name_few_sources()
    ensures { RunsNameFewSources }
{}

/// There are as many steps as classes, or the last one kept no tail.
pub fn runs_are_not_short()
    ensures { RunsAreNotShort }
{}

/// The lines of the steps build the answer that the steps lead to.
pub fn runs_build_their_answers()
    ensures { RunsBuildTheirAnswers }
{}

/// In a consistent answer the two ways of each overlap reach one state by the plain rule.
pub fn overlaps_of_consistent_answers_agree()
    ensures { OverlapsOfConsistentAnswersAgree }
{}

/// In a consistent answer the images carry each word that is trivial under them to the identity, by the plain rule.
pub fn killed_words_are_carried()
    ensures { KilledWordsAreCarried }
{}

/// Without fixed relators each endomorphism makes a map of the largest quotient into itself.
pub fn endomorphisms_induce_plainly()
    ensures { EndomorphismsInducePlainly }
{}

/// The images of the largest quotient of the whole make a map of that of the iterated part into it.
pub fn images_make_maps()
    ensures { ImagesMakeMaps }
{}

/// A certificate that is made of runs to the largest quotients is valid.
pub fn certificates_of_runs_are_valid()
    ensures { CertificatesOfRunsAreValid }
{}
