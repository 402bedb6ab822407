//! Paths: in which order endomorphisms are applied.

ghost use Rattle.std.specs.Prelude.{◌≡◌, IfOk};

use crate::refusal::NoMemory;
use std::alloc::Global;
use std::marker::Model;

/// A list of endomorphism numbers, counted from 1. Contracts see it as that list.
#[derive(Debug, Drop)]
pub struct Path {
    numbers: Vec<u8>,
}

impl Model for Path {
    ghost use Rattle.std.specs.Prelude.{ℕ, List};

    ghost Value = { List ℕ };

    ghost view = { λ p. p.numbers.items };
}

impl Path {
    /// The path of these numbers.
    pub fn of(alloc: Global, numbers: &[u8]) -> Result<Path, NoMemory>
        ensures { IfOk result (λ p. p ≡ numbers.now) }
    {
        Ok(Path {
            numbers: Vec::from_slice(alloc, numbers)?,
        })
    }

    /// The numbers of the path.
    pub fn numbers(&self) -> &[u8]
        ensures { result.now ≡ self.now }
    {
        self.numbers.as_slice()
    }
}
