//! What calls in covers work in, and rows over their tails.

ghost use Rattle.std.specs.Prelude.{◌≡◌, IfOk, length};
ghost use Rattle.pc_presentation.specs.Scratch.{IsScratch};
ghost use Rattle.p_cover.specs.Covers.{cover_presentation};

use anyhow::Result;
use fp_rows::Row;
use p_cover::Cover;
use pc_presentation::Scratch;
use plain_collector::Plain;
use std::alloc::Global;

/// A scratch over the plain collector, for a cover.
pub fn scratch_of(alloc: Global, cover: &Cover) -> Result<Scratch<Plain>>
    ensures { IfOk result (λ s. IsScratch (cover_presentation cover.now) s) }
{
    let s = Scratch::<Plain>::new(alloc, cover.pcp())?;
    Ok(s)
}

/// A row over the tails of a cover.
pub fn empty_row(alloc: Global, cover: &Cover) -> Result<Row>
    ensures prime { IfOk result (λ row. row.prime ≡ cover.now.answer.presentation.prime) }
    ensures width { IfOk result (λ row. length row.entries ≡ length cover.now.sources) }
{
    let row = Row::zero(alloc, cover.pcp().prime(), cover.tails())?;
    Ok(row)
}

/// Writes the entries of a row.
pub fn show_row(out: &mut String, row: &Row) -> Result<()> {
    if row.width() == 0 {
        out.push_str(" none")?;
    }
    for k in 0..row.width() {
        let entry = row.get(k + 1);
        write!(out, " {entry}")?;
    }
    Ok(())
}
