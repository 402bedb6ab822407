//! What is proved of valid certificates. The functions do nothing: each states a law as its clause.

ghost use Rattle.valid_certificates.specs.LineBases.{LinesHaveBases};
ghost use Rattle.valid_certificates.specs.ReachedAnswers.{RowsOfSourcesAreTrusted};
ghost use Rattle.valid_certificates.specs.ValidityLaws.{StepsReachAnswers, RunsBuildAnswers, RunsAreUniversal, RunsAreConsistent};
ghost use Rattle.valid_certificates.specs.ValidityLaws.{ValidCertificatesKill, ValidCertificatesAreLargest, ValidCertificatesAreCanonical};

/// Lines in the form that they have in a certificate, each a sum of rows, make of their cover what a reduced basis in the span of
/// these rows makes: they keep the same tails, and where they keep any the next answer is the same.
pub fn lines_have_bases()
    ensures { LinesHaveBases }
{}

/// The rows of sources by the plain rule are trivial wherever the presentation is obeyed, in covers of answers that need not be
/// consistent.
pub fn rows_of_sources_are_trusted()
    ensures { RowsOfSourcesAreTrusted }
{}

/// Where all parts of a run keep what they have to, and its first steps keep tails, the answer after them is one of the class that is
/// their number; cut to smaller classes it is the answers before it, and all elements that obey the presentation fit it up to its class.
pub fn steps_reach_answers()
    ensures { StepsReachAnswers }
{}

/// Where all parts of a run keep what they have to, it builds an answer of the class that its steps reach, which is at most the one that
/// is asked for, and all elements that obey the presentation fit it up to the latter.
pub fn runs_build_answers()
    ensures { RunsBuildAnswers }
{}

/// Each map of the given generators that obeys the presentation, into a group of the class that is asked for, factors exactly once through
/// the answer that such a run builds.
pub fn runs_are_universal()
    ensures { RunsAreUniversal }
{}

/// The answer that such a run builds is consistent.
pub fn runs_are_consistent()
    ensures { RunsAreConsistent }
{}

/// The answer of a valid certificate kills the relators, also those along all lists of endomorphisms.
pub fn valid_certificates_kill()
    ensures { ValidCertificatesKill }
{}

/// The answer of a valid certificate is the largest quotient, whoever wrote the certificate.
pub fn valid_certificates_are_largest()
    ensures { ValidCertificatesAreLargest }
{}

/// The answer of a valid certificate is canonical.
pub fn valid_certificates_are_canonical()
    ensures { ValidCertificatesAreCanonical }
{}
