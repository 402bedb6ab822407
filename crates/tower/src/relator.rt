//! Relators by number.

ghost use Rattle.std.specs.Prelude.{◌≡◌, ◌++◌, map, IfOk, OnOk};
ghost use Rattle.pq_base.specs.Canonical.{numbers_from};
ghost use Rattle.tower.specs.declared.relator.Relator.TheVariants.{Fixed};
ghost use Rattle.tower.specs.NamedParts.{recorded_source, iterated_at, all_named};

use derivation_log::RowSource;
use lpres_reader::LPres;
use pq_base::{NoMemory, Path};
use std::alloc::Global;

/// A relator of a presentation by its number, counted from 1.
#[derive(Debug, Drop)]
pub enum Relator {
    /// A fixed relator.
    Fixed(u32),
    /// An iterated relator along a path of endomorphisms.
    Iterated(u32, Path),
}

impl Relator {
    /// What a row of the relator comes from.
    pub fn source(&self, alloc: Global) -> Result<RowSource, NoMemory>
        ensures { IfOk result (λ source. source ≡ recorded_source self.now) }
    {
        match self {
            Relator::Fixed(number) => Ok(RowSource::Fixed(*number)),
            Relator::Iterated(number, path) => {
                let path = Path::of(alloc, path.numbers())?;
                Ok(RowSource::Iterated(*number, path))
            }
        }
    }

    /// A copy of the relator.
    pub fn duplicate(&self, alloc: Global) -> Result<Relator, NoMemory>
        ensures { IfOk result (λ copy. copy ≡ self.now) }
    {
        match self {
            Relator::Fixed(number) => Ok(Relator::Fixed(*number)),
            Relator::Iterated(number, path) => {
                let path = Path::of(alloc, path.numbers())?;
                Ok(Relator::Iterated(*number, path))
            }
        }
    }
}

/// What the rows of relators come from.
pub(crate) fn sources(alloc: Global, relators: &[Relator]) -> Result<Vec<RowSource>, NoMemory>
    ensures { IfOk result (λ sources. sources.items ≡ map recorded_source relators.now) }
{
    let mut sources = Vec::new(alloc);
    for relator in relators {
        sources.push(relator.source(alloc)?)?;
    }
    Ok(sources)
}

/// All relators that are carried along no endomorphism: the fixed ones, then the iterated ones.
pub(crate) fn all_relators(alloc: Global, pres: &LPres) -> Result<Vec<Relator>, NoMemory>
    ensures { IfOk result (λ relators. relators.items ≡ all_named pres.now) }
{
    let _names = pres.names();
    let mut relators = Vec::new(alloc);
    push_fixed(&mut relators, pres.fixed().len() as u32)?;
    push_iterated(alloc, &mut relators, pres.iterated().len() as u32)?;
    Ok(relators)
}

/// Puts so many fixed relators at the end.
pub(crate) fn push_fixed(relators: &mut Vec<Relator>, count: u32) -> Result<(), NoMemory>
    ensures { OnOk result (relators.new.items ≡ relators.old.items ++ map Fixed (numbers_from 1 count)) }
{
    for i in 0..count {
        relators.push(Relator::Fixed(i + 1))?;
    }
    Ok(())
}

/// Puts so many iterated relators at the end.
fn push_iterated(alloc: Global, relators: &mut Vec<Relator>, count: u32) -> Result<(), NoMemory>
    ensures { OnOk result (relators.new.items ≡ relators.old.items ++ map iterated_at (numbers_from 1 count)) }
{
    for i in 0..count {
        relators.push(Relator::Iterated(i + 1, Path::of(alloc, &[])?))?;
    }
    Ok(())
}
