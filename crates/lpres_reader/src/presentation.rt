//! L-presentations as values.

ghost use Rattle.std.specs.Prelude.{◌≡◌, ◌≤◌, [], ◌∷◌, All, length, map, MatchResult};
ghost use Rattle.pq_base.specs.Name.{IsName};
ghost use Rattle.pq_base.specs.LPresentation.{LPresentation, IsLPresentation, AreEndoNumbers, AreWords, endo_at};
ghost use Rattle.lpres_reader.specs.declared.fault.Kind.TheVariants.{NotAllImages as MissesImages};
ghost use Rattle.lpres_reader.specs.declared.fault.Stop.TheVariants.{NoMemory as WantOfMemory};
ghost use Rattle.lpres_reader.specs.Adds.{Adds, AddsNothing, AddsSoundly};
ghost use Rattle.lpres_reader.specs.Items.{fixed, iterated, endo};
ghost use Rattle.lpres_reader.specs.Limits.{IsWithinLimits, letters_in, total_letters};
ghost use Rattle.lpres_reader.specs.Presentations.{made_of, endo_letters, AreGenerators};
ghost use Rattle.lpres_reader.specs.Stops.{Refuses};
ghost use Rattle.lpres_reader.specs.Trials.{added};

use crate::fault::{Stop, Which};
use crate::gathered::Gathered;
use crate::images::images;
use free_words::Word;
use pq_base::Name;
use std::alloc::Global;
use std::marker::Model;

/// An L-presentation within the limits: names of generators, relators, and endomorphisms as the images of the
/// generators. A word's letter k is the generator whose name comes at place k, counted from 1.
#[derive(Debug, Drop)]
pub struct LPres {
    names: Vec<Name>,
    fixed: Vec<Word>,
    iterated: Vec<Word>,
    endos: Vec<Vec<Word>>,
}

impl Model for LPres {
    ghost use Rattle.pq_base.specs.LPresentation.{LPresentation, IsLPresentation};
    ghost use Rattle.lpres_reader.specs.Limits.{IsWithinLimits};
    ghost use Rattle.lpres_reader.specs.Presentations.{made_of, AreGenerators};

    ghost Value = { LPresentation };

    ghost view = { λ p. made_of p.names.items p.fixed.items p.iterated.items p.endos.items };

    ghost invariant = { λ p. AreGenerators p.names.items
        × IsLPresentation (made_of p.names.items p.fixed.items p.iterated.items p.endos.items)
        × IsWithinLimits (made_of p.names.items p.fixed.items p.iterated.items p.endos.items) };
}

impl LPres {
    /// The presentation of these parts.
    pub(crate) fn of_parts(
        names: Vec<Name>,
        fixed: Vec<Word>,
        iterated: Vec<Word>,
        endos: Vec<Vec<Word>>,
    ) -> LPres
        requires generators { AreGenerators names.items }
        requires presentation { IsLPresentation (made_of names.items fixed.items iterated.items endos.items) }
        requires limits { IsWithinLimits (made_of names.items fixed.items iterated.items endos.items) }
        ensures { result ≡ made_of names.items fixed.items iterated.items endos.items }
    {
        LPres {
            names,
            fixed,
            iterated,
            endos,
        }
    }

    /// The presentation with what a line gives behind it.
    pub(crate) fn with(self, alloc: Global, gathered: Gathered) -> Result<LPres, Stop>
        requires { AddsSoundly self gathered }
        ensures { MatchResult result (Adds self gathered) (Refuses (λ k. (k ≡ MissesImages) × AddsNothing self gathered)) }
    {
        match gathered.which() {
            Which::Fixed => self.with_fixed(gathered.into_relators()),
            Which::Iterated => self.with_iterated(gathered.into_relators()),
            _ => {
                let images = images(alloc, self.names().len(), gathered.arrows())?;
                self.with_endo(images)
            }
        }
    }

    /// The presentation with more fixed relators.
    fn with_fixed(self, mut relators: Vec<Word>) -> Result<LPres, Stop>
        requires presentation { IsLPresentation (added self (fixed relators.items)) }
        requires limits { IsWithinLimits (added self (fixed relators.items)) }
        ensures { MatchResult result (λ pres. pres ≡ added self (fixed relators.items)) (λ e. e ≡ WantOfMemory) }
    {
        let mut fixed = self.fixed;
        fixed.append(&mut relators)?;
        Ok(LPres {
            names: self.names,
            fixed,
            iterated: self.iterated,
            endos: self.endos,
        })
    }

    /// The presentation with more iterated relators.
    fn with_iterated(self, mut relators: Vec<Word>) -> Result<LPres, Stop>
        requires presentation { IsLPresentation (added self (iterated relators.items)) }
        requires limits { IsWithinLimits (added self (iterated relators.items)) }
        ensures { MatchResult result (λ pres. pres ≡ added self (iterated relators.items)) (λ e. e ≡ WantOfMemory) }
    {
        let mut iterated = self.iterated;
        iterated.append(&mut relators)?;
        Ok(LPres {
            names: self.names,
            fixed: self.fixed,
            iterated,
            endos: self.endos,
        })
    }

    /// The presentation with one endomorphism more.
    fn with_endo(self, images: Vec<Word>) -> Result<LPres, Stop>
        requires presentation { IsLPresentation (added self (endo images.items)) }
        requires limits { IsWithinLimits (added self (endo images.items)) }
        ensures { MatchResult result (λ pres. pres ≡ added self (endo images.items)) (λ e. e ≡ WantOfMemory) }
    {
        let mut endos = self.endos;
        endos.push(images)?;
        Ok(LPres {
            names: self.names,
            fixed: self.fixed,
            iterated: self.iterated,
            endos,
        })
    }

    /// Where its parts are held.
    pub(crate) fn allocator(&self) -> Global {
        *self.names.allocator()
    }

    /// The names of the generators, in order.
    pub fn names(&self) -> &[Name]
        ensures names { result.now ≡ self.now.names }
        ensures each { All IsName self.now.names }
        ensures presentation { IsLPresentation self.now }
        ensures limits { IsWithinLimits self.now }
    {
        self.names.as_slice()
    }

    /// The relators that no endomorphism carries.
    pub fn fixed(&self) -> &[Word]
        ensures { result.now ≡ self.now.fixed }
    {
        self.fixed.as_slice()
    }

    /// The relators that the endomorphisms carry along.
    pub fn iterated(&self) -> &[Word]
        ensures { result.now ≡ self.now.iterated }
    {
        self.iterated.as_slice()
    }

    /// The endomorphisms, each as the images of the generators in their order.
    pub fn endos(&self) -> &[Vec<Word>]
        ensures { map (λ f. f.items) result.now ≡ self.now.endos }
    {
        self.endos.as_slice()
    }

    /// How many relators no endomorphism carries.
    pub(crate) fn fixed_count(&self) -> usize
        ensures count { result ≡ length self.now.fixed }
        ensures few { result ≤ 4096 }
    {
        self.fixed.len()
    }

    /// How many relators the endomorphisms carry along.
    pub(crate) fn iterated_count(&self) -> usize
        ensures count { result ≡ length self.now.iterated }
        ensures few { result ≤ 4096 }
    {
        self.iterated.len()
    }

    /// The letters of all relators and images.
    #[tactic(auto, using(crate::proofs::items::EndoLetters::endo_letters_map))]
    pub(crate) fn total_letters(&self) -> usize
        ensures total { result ≡ total_letters self.now }
        ensures limit { result ≤ 4194304 }
    {
        letters_in(&self.fixed) + letters_in(&self.iterated) + endo_letters(&self.endos)
    }

    /// The images of the generators under the endomorphism with this number, counted from 1.
    pub fn endo(&self, number: u8) -> &[Word]
        requires { AreEndoNumbers (length self.now.endos) (number ∷ []) }
        ensures images { result.now ≡ endo_at self.now.endos number }
        ensures words { AreWords (length self.now.names) result.now }
        ensures count { length result.now ≡ length self.now.names }
    {
        self.endos[usize::from(number) - 1].as_slice()
    }
}

/// The letters of words together.
fn letters_in(words: &Vec<Word>) -> usize
    requires { letters_in words.now.items ≤ 4194304 }
    ensures { result ≡ letters_in words.now.items }
{
    let mut total = 0;
    for word in words {
        total += word.letters().len();
    }
    total
}

/// The letters of the images under endomorphisms together.
fn endo_letters(endos: &Vec<Vec<Word>>) -> usize
    requires { endo_letters endos.now.items ≤ 4194304 }
    ensures { result ≡ endo_letters endos.now.items }
{
    let mut total = 0;
    for endo in endos {
        total += letters_in(endo);
    }
    total
}
