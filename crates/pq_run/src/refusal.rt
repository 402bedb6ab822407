//! Why a command is refused.

ghost use Rattle.std.specs.Prelude.{◌≡◌};
ghost use Rattle.pq_run.specs.Refusals.{refusal_of_reading, refusal_of_tower, refusal_of_fault, refusal_of_check};
ghost use Rattle.pq_run.specs.declared.refusal.Refusal.TheVariants.{NoMemory as WantOfMemory};

use crate::input::Input;
use cert_checker::CheckRefusal;
use cert_text::CertFault;
use derivation_log::{Part, Run};
use lpres_reader::{ReadRefusal, TextFault};
use pq_base::NoMemory;
use tower::TowerRefusal;

/// Why a command is refused.
#[derive(Clone, Copy, Debug, PartialEq, Eq)]
pub enum Refusal {
    /// The words are no command.
    Words,
    /// A read failed.
    ReadFault,
    /// The input has more bytes than it may have.
    InputTooLong(Input),
    /// The input is no presentation: this is its first fault.
    Text(TextFault),
    /// The largest quotient of a class has a rank above `RANK`.
    TooLarge {
        /// The run that came to it.
        run: Run,
        /// The first such class.
        class: u8,
        /// The rank of this quotient.
        rank: u32,
    },
    /// The input is no certificate: its first fault is at this line, counted from 1.
    CertificateLine(u32),
    /// The input is a certificate that isn't valid: this is its first part that fails.
    CertificatePart {
        /// The run that is judged.
        run: Run,
        /// The class that is judged: that of a step, and for what is judged after the steps the one that is asked for.
        class: u8,
        /// The part that fails.
        part: Part,
    },
    /// Nothing could be allocated.
    NoMemory,
}

impl From<ReadRefusal> for Refusal {
    ghost from_gives = { λ refused e. e ≡ refusal_of_reading refused };

    fn from(refused: ReadRefusal) -> Refusal {
        match refused {
            ReadRefusal::Text(fault) => Refusal::Text(fault),
            ReadRefusal::NoMemory => Refusal::NoMemory,
        }
    }
}

impl From<TowerRefusal> for Refusal {
    ghost from_gives = { λ refused e. e ≡ refusal_of_tower refused };

    fn from(refused: TowerRefusal) -> Refusal {
        match refused {
            TowerRefusal::TooLarge { run, class, rank } => Refusal::TooLarge { run, class, rank },
            TowerRefusal::NoMemory => Refusal::NoMemory,
        }
    }
}

impl From<CertFault> for Refusal {
    ghost from_gives = { λ fault e. e ≡ refusal_of_fault fault };

    fn from(fault: CertFault) -> Refusal {
        match fault {
            CertFault::Line(line) => Refusal::CertificateLine(line),
            CertFault::NoMemory => Refusal::NoMemory,
        }
    }
}

impl From<CheckRefusal> for Refusal {
    ghost from_gives = { λ refused e. e ≡ refusal_of_check refused };

    fn from(refused: CheckRefusal) -> Refusal {
        match refused {
            CheckRefusal::Refused { run, class, part } => {
                Refusal::CertificatePart { run, class, part }
            }
            CheckRefusal::NoMemory => Refusal::NoMemory,
        }
    }
}

impl From<NoMemory> for Refusal {
    ghost from_gives = { λ _ e. e ≡ WantOfMemory };

    fn from(_refused: NoMemory) -> Refusal {
        Refusal::NoMemory
    }
}
