//! Definitions as a text has them, which name the image that they mean.

ghost use Rattle.std.specs.Prelude.{◌≡◌, ◌<◌, ◌≤◌, ◌-◌, ℕ, List, [], get_or, length, IfSome, IfNone};
ghost use Rattle.pc_presentation.specs.Definition.{definition_of};
ghost use Rattle.answer_text.specs.declared.source.Source.{Source as SourceData};
ghost use Rattle.answer_text.specs.AnswerPlaces.{IsSource, source_text};
ghost use Rattle.answer_text.specs.Sources.{Resolves, FindsName};

use crate::pieces::{behind, left_side};
use pc_presentation::{Definition, Relation};
use pq_base::Name;
use pq_base::limits::GENERATORS;

/// Where a generator comes from.
#[derive(Debug, Drop)]
pub enum Source {
    /// The image of the given generator with this name.
    Image(Name),
    /// The right side of a relation.
    RightSide(Relation),
}

impl Source {
    /// The source that is written here, of a generator of `rank`.
    pub(crate) fn of(text: &[u8], prime: u8, rank: u16) -> Option<Source>
        requires { rank < 1000 }
        ensures some { IfSome result (λ s. IsSource rank s × (text.now ≡ source_text prime s)) }
        ensures none { IfNone result ((s : SourceData) → IsSource rank s → ¬ (text.now ≡ source_text prime s)) }
    {
        match behind(text, b"image ") {
            Some(name) => Some(Source::Image(Name::of(name)?)),
            None => Some(Source::RightSide(left_side(text, prime, rank)?)),
        }
    }

    /// The definition by the number of the name among these, which is 0 where it isn't one of the first `GENERATORS`.
    pub(crate) fn definition(&self, names: &[Name]) -> Definition
        ensures { Resolves names.now self.now (definition_of result) }
    {
        match self {
            Source::Image(name) => Definition::Image(number_in(names, name)),
            Source::RightSide(Relation::Commutator(j, i)) => Definition::Commutator(*j, *i),
            Source::RightSide(Relation::Power(j)) => Definition::Power(*j),
        }
    }
}

/// The number of a name among these, counted from 1, or 0 where it isn't one of the first `GENERATORS`.
fn number_in(names: &[Name], name: &Name) -> u16
    ensures { FindsName names.now name.now result }
{
    let mut number = 0;
    for other in names {
        if usize::from(number) == GENERATORS {
            return 0;
        }
        number += 1;
        if other == name {
            return number;
        }
    }
    0
}
