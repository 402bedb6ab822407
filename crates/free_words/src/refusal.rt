//! Why there is no word.

ghost use Rattle.std.specs.Prelude.{◌≡◌};
ghost use Rattle.free_words.specs.declared.refusal.WordRefusal.TheVariants.{NoMemory as WantOfMemory};

use pq_base::NoMemory;
use std::alloc::{AllocError, AllocFailed};
use thiserror::Error;

/// Why there is no word.
#[derive(Clone, Copy, Debug, PartialEq, Eq, Error)]
pub enum WordRefusal {
    /// The word has this many letters, above the limit.
    #[error("a word of {0} letters")]
    TooLong(u64),
    /// Nothing could be allocated.
    #[error("no memory")]
    NoMemory,
}

impl From<NoMemory> for WordRefusal {
    ghost from_gives = { λ _ e. e ≡ WantOfMemory };

    fn from(_refused: NoMemory) -> WordRefusal {
        WordRefusal::NoMemory
    }
}

impl From<AllocError> for WordRefusal {
    ghost from_gives = { λ _ e. e ≡ WantOfMemory };

    fn from(_refused: AllocError) -> WordRefusal {
        WordRefusal::NoMemory
    }
}

impl<T: Drop> From<AllocFailed<T>> for WordRefusal {
    ghost from_gives = { λ _ e. e ≡ WantOfMemory };

    fn from(_refused: AllocFailed<T>) -> WordRefusal {
        WordRefusal::NoMemory
    }
}
