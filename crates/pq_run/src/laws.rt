//! What is proved of the outputs and refusals of commands alone.

ghost use Rattle.pq_run.specs.Kinds.{OneTooLarge, OneLargeSample};
ghost use Rattle.pq_run.specs.Cause.{OneCertRefusal, OneRefusal};
ghost use Rattle.pq_run.specs.Output.{OneOutput, OneOutputOneAnswer, OneOutputOneCertificate, OneCertifiedAnswer, CertifiesWhatIsWritten};
ghost use Rattle.pq_run.specs.Output.{ChecksWhatIsCertified};

/// The words and the bytes determine what is written, for each command but `certify P C`, whose certificate may name other sources.
pub fn one_output()
    ensures { OneOutput }
{}

/// What `quotient P C` writes determines the answer.
pub fn one_output_one_answer()
    ensures { OneOutputOneAnswer }
{}

/// What `certify P C` writes determines the certificate. The bytes, the prime and the class determine its answer, which is the one
/// that `quotient P C` writes.
pub fn one_certified_answer()
    ensures certificate { OneOutputOneCertificate }
    ensures answer { OneCertifiedAnswer }
    ensures written { CertifiesWhatIsWritten }
{}

/// The words and the bytes determine the part, the first class whose rank is above the limit, and this rank: so they determine
/// the line. For a sample the words alone do.
pub fn one_too_large()
    ensures input { OneTooLarge }
    ensures sample { OneLargeSample }
{}

/// What `certify P C` writes for given bytes is the text of a valid certificate, and what `check` writes for this text is what
/// `quotient P C` writes for those bytes: in both directions, so whichever of the two is carried out.
pub fn checks_what_is_certified()
    ensures { ChecksWhatIsCertified }
{}

/// The bytes of a certificate's input determine what they are refused for, so also the line.
pub fn one_cert_refusal()
    ensures { OneCertRefusal }
{}

/// The words and the bytes determine what a command is refused for, so also its status and the line, unless a read failed or memory
/// was wanting.
pub fn one_refusal()
    ensures { OneRefusal }
{}
