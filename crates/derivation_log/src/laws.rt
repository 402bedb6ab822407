//! What is proved of certificates and of the lines of held steps. The functions do nothing: each states a law as its clause.

ghost use Rattle.derivation_log.specs.CertificateParts.{full_kind};
ghost use Rattle.derivation_log.specs.CertificateLaws.{ValidCertificatesHaveNoFirstPart, FirstPartsAreUnique, ValidCertificatesKeepAll};
ghost use Rattle.derivation_log.specs.HeldLineLaws.{HeldLinesAreSums, HeldLinesMakeWhatTheBasisMakes};

/// Each line of a held step, over the cover of the step, is a sum of the rows that were added to its basis: the tail minus what the
/// line says it equals.
pub fn held_lines_are_sums()
    ensures { HeldLinesAreSums }
{}

/// The lines of a held step make of the cover of the step what its basis makes: they keep the same tails, and where they keep any the
/// next answer is the same.
pub fn held_lines_make_what_the_basis_makes()
    ensures { HeldLinesMakeWhatTheBasisMakes }
{}

/// No part of a valid certificate is the first that fails.
pub fn valid_certificates_have_no_first_part()
    ensures { ValidCertificatesHaveNoFirstPart full_kind }
{}

/// A certificate has one first part that fails at most.
pub fn first_parts_are_unique()
    ensures { FirstPartsAreUnique full_kind }
{}

/// A certificate is valid exactly where all its parts keep what they have to.
pub fn valid_certificates_keep_all()
    ensures { ValidCertificatesKeepAll full_kind }
{}
