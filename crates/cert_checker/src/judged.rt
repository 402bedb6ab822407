//! The verdict on one part of a certificate: it passes, or the certificate is refused by it.

ghost use Rattle.std.specs.Prelude.{◌↔◌, [], ◌∷◌, IsTrue, IfErr, OnOk};
ghost use Rattle.derivation_log.specs.CertificateParts.{full_kind};
ghost use Rattle.derivation_log.specs.Validity.{Keeps};
ghost use Rattle.cert_checker.specs.Judging.{IsRefusedAt, parts_at};

use crate::refusal::CheckRefusal;
use derivation_log::{Cert, Part, Run};

/// Refuses a certificate by a part that doesn't keep what it has to; `keeps` says whether it does.
pub(crate) fn judged(
    _cert: &Cert,
    run: Run,
    class: u8,
    part: Part,
    keeps: bool,
) -> Result<(), CheckRefusal>
    requires { IsTrue keeps ↔ Keeps full_kind _cert.now run class part }
    ensures ok { OnOk result (Keeps full_kind _cert.now run class part) }
    ensures refused { IfErr result (IsRefusedAt _cert.now (parts_at run class (part ∷ []))) }
{
    if keeps {
        Ok(())
    } else {
        Err(CheckRefusal::Refused { run, class, part })
    }
}

/// The same of a part that is judged after the steps, at the class that is asked for.
pub(crate) fn judged_last(
    cert: &Cert,
    run: Run,
    part: Part,
    keeps: bool,
) -> Result<(), CheckRefusal>
    requires { IsTrue keeps ↔ Keeps full_kind cert.now run cert.now.class part }
    ensures ok { OnOk result (Keeps full_kind cert.now run cert.now.class part) }
    ensures refused { IfErr result (IsRefusedAt cert.now (parts_at run cert.now.class (part ∷ []))) }
{
    judged(cert, run, cert.asked(), part, keeps)
}
