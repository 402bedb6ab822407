//! What holds of the sources of tails, and in every cover.

ghost use Rattle.p_cover.specs.CoverLaws.{TailsAndSourcesAreInverse, EachSourceOnce, QualifyingSourcesComeFirst, CoversAreRowedAnswers};

/// In a cover the tail of a source is the number of the tail that comes from it.
pub fn tails_and_sources_are_inverse()
    ensures { TailsAndSourcesAreInverse }
{}

/// The sources of the full cover are the relations and images that define no generator, each once.
#[tactic(auto, using(crate::proofs::SourcesOnce::each_source_once))]
pub fn each_source_once()
    ensures { EachSourceOnce }
{}

/// The sources that qualify are a beginning of the want order.
pub fn qualifying_sources_come_first()
    ensures { QualifyingSourcesComeFirst }
{}

/// A cover is an answer with rows: relations and images have the rows of their tails, and what defines a generator has the
/// row of zeros.
#[tactic(auto, using(crate::proofs::CoverRows::covers_are_rowed_answers))]
pub fn covers_are_rowed_answers()
    ensures { CoversAreRowedAnswers }
{}
