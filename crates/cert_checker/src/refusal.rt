//! Why a certificate has no answer.

ghost use Rattle.std.specs.Prelude.{◌≡◌};
ghost use Rattle.cert_checker.specs.declared.refusal.CheckRefusal.TheVariants.{NoMemory as WantOfMemory};

use derivation_log::{Part, Run};
use pq_base::NoMemory;
use thiserror::Error;

/// Why a certificate has no answer.
#[derive(Clone, Copy, Debug, PartialEq, Eq, Error)]
pub enum CheckRefusal {
    /// A part fails, and none before it.
    #[error("a part of class {class} fails")]
    Refused {
        /// The run that is judged.
        run: Run,
        /// The class that is judged: that of a step, and for what is judged after the steps the one that is asked for.
        class: u8,
        /// The part that fails.
        part: Part,
    },
    /// Nothing could be allocated.
    #[error("no memory")]
    NoMemory,
}

impl From<NoMemory> for CheckRefusal {
    ghost from_gives = { λ _ e. e ≡ WantOfMemory };

    fn from(_refused: NoMemory) -> CheckRefusal {
        CheckRefusal::NoMemory
    }
}
