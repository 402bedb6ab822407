//! What is proved of samples alone. The functions do nothing: each states a law as its clause.

ghost use Rattle.samples.specs.SampleLaws.{SamplesArePresentations, SamplePrimesAreOffered};

/// Each sample is a presentation.
#[tactic(auto, using(crate::proofs::Samples::samples_are_presentations))]
pub fn samples_are_presentations()
    ensures { SamplesArePresentations }
{}

/// The prime of each sample is one that the engine works with.
#[tactic(auto, using(crate::proofs::Samples::sample_primes_are_offered))]
pub fn sample_primes_are_offered()
    ensures { SamplePrimesAreOffered }
{}
