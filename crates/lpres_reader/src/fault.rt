//! Why a line is not read.

ghost use Rattle.std.specs.Prelude.{◌≡◌};
ghost use Rattle.lpres_reader.specs.declared.fault.Stop.TheVariants.{Fault as Faulty, NoMemory as WantOfMemory};
ghost use Rattle.lpres_reader.specs.declared.fault.Kind.TheVariants.{Syntax as SyntaxFault};

use crate::token::NoToken;
use pq_base::NoMemory;
use std::alloc::{AllocError, AllocFailed};

/// What is limited.
#[derive(Clone, Copy, Debug, PartialEq, Eq)]
pub enum Which {
    /// The bytes of a name.
    Name,
    /// The generators.
    Generators,
    /// The fixed relators.
    Fixed,
    /// The iterated relators.
    Iterated,
    /// The endomorphisms.
    Endos,
    /// The size of a written exponent.
    Exponent,
    /// The letters of a word, of a part of it or of a partial product.
    Letters,
    /// The letters of all relators and images.
    Total,
}

/// What is wrong with a line. Where more than one is, the first in this order decides.
#[derive(Clone, Copy, Debug, PartialEq, Eq)]
pub enum Kind {
    /// More than 64 brackets are open at one place.
    Deep,
    /// The line has none of the forms that it may have where it stands.
    Syntax,
    /// A name is no generator.
    UnknownName,
    /// A generator's name comes twice.
    RepeatedName,
    /// A limit is passed by this number.
    Limit(Which, u64),
    /// The line does not give an image for each generator exactly once.
    NotAllImages,
}

/// The first fault of a text.
#[derive(Clone, Copy, Debug, PartialEq, Eq)]
pub struct TextFault {
    /// The line, counted from 1.
    pub line: u32,
    /// What is wrong with it.
    pub kind: Kind,
}

/// Why a line is not read.
#[derive(Clone, Copy)]
pub enum Stop {
    /// The line has this fault.
    Fault(Kind),
    /// Nothing could be allocated.
    NoMemory,
}

impl From<NoToken> for Stop {
    ghost from_gives = { λ _ e. e ≡ Faulty SyntaxFault };

    fn from(_fault: NoToken) -> Stop {
        Stop::Fault(Kind::Syntax)
    }
}

impl From<AllocError> for Stop {
    ghost from_gives = { λ _ e. e ≡ WantOfMemory };

    fn from(_refused: AllocError) -> Stop {
        Stop::NoMemory
    }
}

impl From<NoMemory> for Stop {
    ghost from_gives = { λ _ e. e ≡ WantOfMemory };

    fn from(_refused: NoMemory) -> Stop {
        Stop::NoMemory
    }
}

impl<T: Drop> From<AllocFailed<T>> for Stop {
    ghost from_gives = { λ _ e. e ≡ WantOfMemory };

    fn from(_refused: AllocFailed<T>) -> Stop {
        Stop::NoMemory
    }
}
