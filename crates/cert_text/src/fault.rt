//! Why bytes are no certificate's text.

ghost use Rattle.std.specs.Prelude.{◌≡◌};
ghost use Rattle.cert_text.specs.declared.fault.CertFault.TheVariants.{NoMemory as WantOfMemory};

use pq_base::NoMemory;
use thiserror::Error;

/// Why bytes aren't read as a certificate.
#[derive(Clone, Copy, Debug, PartialEq, Eq, Error)]
pub enum CertFault {
    /// The bytes are no certificate's text, and the first fault is at this line, counted from 1.
    #[error("line {0} of the certificate has a fault")]
    Line(u32),
    /// Nothing could be allocated.
    #[error("no memory")]
    NoMemory,
}

impl From<NoMemory> for CertFault {
    ghost from_gives = { λ _ e. e ≡ WantOfMemory };

    fn from(_refused: NoMemory) -> CertFault {
        CertFault::NoMemory
    }
}
