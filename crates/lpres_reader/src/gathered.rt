//! What a line gives: its relators or arrows, counted and measured.

ghost use Rattle.std.specs.Prelude.{◌≡◌, ◌≤◌};
ghost use Rattle.lpres_reader.specs.Values.{Given, nothing_gathered, with_relator, with_arrow, more_letters};

use crate::fault::{Kind, Stop, Which};
use crate::recipe::Recipe;
use crate::writing::write_word;
use free_words::Word;
use pq_base::limits::{FIXED, TOTAL};
use std::alloc::Global;
use std::marker::Model;

/// An arrow from the generator at a place, counted from 0.
#[derive(Drop)]
pub struct Arrow {
    /// The place of the generator.
    pub from: usize,
    /// The generator's image.
    pub to: Word,
}

/// The relators or arrows of a line so far.
#[derive(Drop)]
pub struct Gathered {
    /// Which limit counts the relators.
    which: Which,
    /// How many relators of this sort there are on all lines.
    count: usize,
    /// How many letters there are on all lines.
    total: usize,
    relators: Vec<Word>,
    arrows: Vec<Arrow>,
}

impl Model for Gathered {
    ghost use Rattle.std.specs.Prelude.{◌≤◌};
    ghost use Rattle.lpres_reader.specs.Gatherings.{Gathering};

    ghost Value = { Gathering };

    ghost view = { λ g. record {
      which = g.which;
      count = g.count;
      total = g.total;
      relators = g.relators.items;
      arrows = g.arrows.items;
    } };

    ghost invariant = { λ g. (g.count ≤ 4096) × (g.total ≤ 4194304) };
}

impl Gathered {
    /// Nothing yet, behind other lines.
    pub(crate) fn none(alloc: Global, which: Which, count: usize, total: usize) -> Gathered
        requires few { count ≤ 4096 }
        requires small { total ≤ 4194304 }
        ensures { result ≡ nothing_gathered which count total }
    {
        Gathered {
            which,
            count,
            total,
            relators: Vec::new(alloc),
            arrows: Vec::new(alloc),
        }
    }

    /// With one relator more.
    pub(crate) fn with_relator(self, relator: Recipe) -> Result<Gathered, Stop>
        ensures { Given result (with_relator self relator) }
    {
        let count = self.count + 1;
        if count > FIXED {
            return Err(Stop::Fault(Kind::Limit(self.which, count as u64)));
        }
        let total = more_letters(self.total, &relator)?;
        let mut relators = self.relators;
        let word = write_word(*relators.allocator(), &relator)?;
        relators.push(word)?;
        Ok(Gathered {
            which: self.which,
            count,
            total,
            relators,
            arrows: self.arrows,
        })
    }

    /// With one arrow more.
    pub(crate) fn with_arrow(self, from: usize, to: Recipe) -> Result<Gathered, Stop>
        ensures { Given result (with_arrow self from to) }
    {
        let total = more_letters(self.total, &to)?;
        let mut arrows = self.arrows;
        let to = write_word(*arrows.allocator(), &to)?;
        arrows.push(Arrow { from, to })?;
        Ok(Gathered {
            which: self.which,
            count: self.count,
            total,
            relators: self.relators,
            arrows,
        })
    }

    /// Which limit counts the relators.
    pub fn which(&self) -> Which
        ensures { result ≡ self.now.which }
    {
        self.which
    }

    /// The relators.
    pub fn into_relators(self) -> Vec<Word>
        ensures { result.items ≡ self.relators }
    {
        self.relators
    }

    /// The arrows.
    pub fn arrows(&self) -> &[Arrow]
        ensures { result.now ≡ self.now.arrows }
    {
        self.arrows.as_slice()
    }
}

/// The letters so far with those of a word.
fn more_letters(total: usize, word: &Recipe) -> Result<usize, Stop>
    requires { total ≤ 4194304 }
    ensures { Given result (more_letters total word.now) }
{
    let more = total + word.letters();
    if more > TOTAL {
        return Err(Stop::Fault(Kind::Limit(Which::Total, more as u64)));
    }
    Ok(more)
}
