//! The brackets of a line that are open.

ghost use Rattle.std.specs.Prelude.{◌≡◌, [], ◌∷◌, MatchOption, MatchResult};
ghost use Rattle.lpres_reader.specs.declared.fault.Stop.TheVariants.{NoMemory as WantOfMemory};

use crate::fault::Stop;
use std::alloc::Global;
use std::marker::Model;

/// An open bracket. A square one may have entries already.
#[derive(Clone, Copy)]
pub(crate) enum Bracket {
    Round,
    Square(bool),
}

/// The brackets that are open.
#[derive(Drop)]
pub(crate) struct Brackets {
    list: Vec<Bracket>,
}

impl Model for Brackets {
    ghost use Rattle.std.specs.Prelude.{List, reverse};
    ghost use Rattle.lpres_reader.specs.declared.brackets.Bracket.{Bracket};

    ghost Value = { List Bracket };

    ghost view = { λ b. reverse b.list.items };
}

impl Brackets {
    /// No bracket.
    pub(crate) fn none(alloc: Global) -> Brackets
        ensures { result ≡ [] }
    {
        Brackets {
            list: Vec::new(alloc),
        }
    }

    /// One bracket more, which is the innermost.
    pub(crate) fn push(self, bracket: Bracket) -> Result<Brackets, Stop>
        ensures { MatchResult result (λ more. more ≡ bracket ∷ self) (λ e. e ≡ WantOfMemory) }
    {
        let mut list = self.list;
        list.push(bracket)?;
        Ok(Brackets { list })
    }

    /// The innermost bracket, and those around it.
    pub(crate) fn pop(self) -> Option<(Bracket, Brackets)>
        ensures { MatchOption result (self ≡ []) (λ top. self ≡ top.0 ∷ top.1) }
    {
        let mut list = self.list;
        match list.pop() {
            None => None,
            Some(bracket) => Some((bracket, Brackets { list })),
        }
    }
}
