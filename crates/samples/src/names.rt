//! The names of the generators of a sample.

ghost use Rattle.std.specs.Prelude.{◌≡◌, ◌<◌, ◌++◌, IfOk, codes, decimal};
ghost use Rattle.samples.specs.Samples.{sample_names};

use pq_base::{Name, NoMemory};
use std::alloc::Global;

/// How many generators there are.
const GENERATORS: u8 = 32;

/// x1 to x32.
pub(crate) fn names(alloc: Global) -> Result<Vec<Name>, NoMemory>
    ensures { IfOk result (λ v. v.items ≡ sample_names) }
{
    let mut names = Vec::new(alloc);
    for k in 0..GENERATORS {
        names.push(name(alloc, k + 1)?)?;
    }
    Ok(names)
}

/// The name of generator i, counted from 1.
fn name(alloc: Global, i: u8) -> Result<Name, NoMemory>
    ensures { IfOk result (λ name. name ≡ codes "x" ++ decimal i) }
{
    let text = format!(in alloc; "x{i}")?;
    match Name::of(text.as_bytes()) {
        Some(name) => Ok(name),
        None => unreachable!(),
    }
}
