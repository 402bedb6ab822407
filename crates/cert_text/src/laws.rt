//! What is proved of the texts of certificates alone. The functions do nothing: each states a law as its clause.

ghost use Rattle.cert_text.specs.CertificateText.{OneTextOneCertificate};
ghost use Rattle.cert_text.specs.CertificateFaults.{OneFaultLine, FaultsAreNoCertificates};

/// Two certificates with one text are equal.
#[tactic(auto, using(crate::proofs::CertificateLaws::one_text_one_certificate))]
pub fn one_text_one_certificate()
    ensures { OneTextOneCertificate }
{}

/// Bytes that are no certificate's text have their fault at one line only.
#[tactic(auto, using(crate::proofs::CertificateLaws::one_fault_line))]
pub fn one_fault_line()
    ensures { OneFaultLine }
{}

/// Bytes with a fault are no certificate's text.
#[tactic(auto, using(crate::proofs::CertificateLaws::faults_are_no_certificates))]
pub fn faults_are_no_certificates()
    ensures { FaultsAreNoCertificates }
{}
