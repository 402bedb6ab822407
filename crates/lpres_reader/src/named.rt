//! A presentation while a text is read, with a set in which its generators are found by their names.

ghost use Rattle.std.specs.Prelude.{◌≡◌, MatchResult, Some};
ghost use Rattle.lpres_reader.specs.Faults.{LineFault};
ghost use Rattle.lpres_reader.specs.Makes.{Makes};
ghost use Rattle.lpres_reader.specs.Presentations.{AreGenerators};
ghost use Rattle.lpres_reader.specs.Stops.{Refuses, kind_of};

use crate::fault::Stop;
use crate::item::read_behind;
use crate::presentation::LPres;
use indexmap::IndexSet;
use pq_base::Name;
use std::alloc::Global;
use std::marker::Model;

/// What the lines so far are, with the names of its generators as a set. Contracts see it as the presentation.
#[derive(Drop)]
pub struct Named {
    names: IndexSet<Name>,
    pres: LPres,
}

impl Model for Named {
    ghost use Rattle.std.specs.Prelude.{◌≡◌};
    ghost use Rattle.pq_base.specs.LPresentation.{LPresentation};
    ghost use Rattle.lpres_reader.specs.Presentations.{AreGenerators};

    ghost Value = { LPresentation };

    ghost view = { λ n. n.pres };

    ghost invariant = { λ n. AreGenerators n.names.keys × (n.names.keys ≡ n.pres.names) };
}

impl Named {
    /// The presentation with the set of its names.
    pub(crate) fn of(names: IndexSet<Name>, pres: LPres) -> Named
        requires generators { AreGenerators names.keys }
        requires names { names.keys ≡ pres.names }
        ensures { result ≡ pres }
    {
        Named { names, pres }
    }

    /// The presentation that a line makes of this one.
    // Never inlined: where it is, each skipped line costs as much as a call of all that reads a line.
    #[inline(never)]
    pub(crate) fn with_line(self, alloc: Global, line: &[u8]) -> Result<Named, Stop>
        ensures { MatchResult result (Makes (Some self) line.now) (Refuses (λ k. LineFault (Some self) line.now (kind_of k))) }
    {
        let Named { names, pres } = self;
        let pres = read_behind(alloc, &names, pres, line)?;
        Ok(Named { names, pres })
    }

    /// The presentation alone.
    pub(crate) fn into_pres(self) -> LPres
        ensures { result ≡ self }
    {
        self.pres
    }
}
