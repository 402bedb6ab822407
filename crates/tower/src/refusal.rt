//! Why a tower has no answer.

ghost use Rattle.std.specs.Prelude.{◌≡◌};
ghost use Rattle.tower.specs.declared.refusal.TowerRefusal.TheVariants.{NoMemory as WantOfMemory};

use derivation_log::Run;
use pq_base::NoMemory;

/// Why a tower has no answer.
#[derive(Clone, Copy, Debug, PartialEq, Eq)]
pub enum TowerRefusal {
    /// The largest quotient of a class has a rank above `RANK`.
    TooLarge {
        /// The run that came to it.
        run: Run,
        /// The first such class.
        class: u8,
        /// The rank of this quotient.
        rank: u32,
    },
    /// Nothing could be allocated.
    NoMemory,
}

impl From<NoMemory> for TowerRefusal {
    ghost from_gives = { λ _ e. e ≡ WantOfMemory };

    fn from(_refused: NoMemory) -> TowerRefusal {
        TowerRefusal::NoMemory
    }
}
