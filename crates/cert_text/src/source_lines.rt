//! The lines of sources.

ghost use Rattle.std.specs.Prelude.{◌≡◌, ◌++◌, [], ◌∷◌, OnOk, map};
ghost use Rattle.pq_base.specs.Lines.{text_of_lines};
ghost use Rattle.derivation_log.specs.declared.source.RowSource.TheVariants.{Fixed, Iterated};
ghost use Rattle.cert_text.specs.CertificateText.{overlap_text, source_text, source_line};

use crate::numbers::push_along;
use derivation_log::RowSource;
use pc_presentation::Overlap;
use pq_base::NoMemory;

/// The lines of the sources of a step.
pub(crate) fn push_sources(out: &mut Vec<u8>, sources: &[RowSource]) -> Result<(), NoMemory>
    ensures { OnOk result (out.new.items ≡ out.old.items ++ text_of_lines (map source_line sources.now)) }
{
    for source in sources {
        push_source_line(out, source)?;
    }
    Ok(())
}

/// The line of a source.
fn push_source_line(out: &mut Vec<u8>, source: &RowSource) -> Result<(), NoMemory>
    ensures { OnOk result (out.new.items ≡ out.old.items ++ (source_line source.now ++ 10 ∷ [])) }
{
    out.extend_from_slice(b"source ")?;
    push_source(out, source)?;
    out.push(b'\n')?;
    Ok(())
}

/// A source: an overlap, a fixed relator, or an iterated one along a path.
fn push_source(out: &mut Vec<u8>, source: &RowSource) -> Result<(), NoMemory>
    ensures { OnOk result (out.new.items ≡ out.old.items ++ source_text source.now) }
{
    match source {
        RowSource::Test(overlap) => push_overlap(out, *overlap),
        RowSource::Fixed(relator) => push_fixed(out, *relator),
        RowSource::Iterated(relator, path) => push_iterated(out, *relator, path.numbers()),
    }
}

/// An overlap, with the numbers of its generators.
fn push_overlap(out: &mut Vec<u8>, overlap: Overlap) -> Result<(), NoMemory>
    ensures { OnOk result (out.new.items ≡ out.old.items ++ overlap_text overlap) }
{
    let text = match overlap {
        Overlap::Triple(k, j, i) => format!(in *out.allocator(); "triple {k} {j} {i}")?,
        Overlap::Left(j, i) => format!(in *out.allocator(); "left {j} {i}")?,
        Overlap::Right(j, i) => format!(in *out.allocator(); "right {j} {i}")?,
        Overlap::Own(i) => format!(in *out.allocator(); "own {i}")?,
    };
    out.extend_from_slice(text.as_bytes())?;
    Ok(())
}

/// A fixed relator.
fn push_fixed(out: &mut Vec<u8>, relator: u32) -> Result<(), NoMemory>
    ensures { OnOk result (out.new.items ≡ out.old.items ++ source_text (Fixed relator)) }
{
    let text = format!(in *out.allocator(); "fixed {relator}")?;
    out.extend_from_slice(text.as_bytes())?;
    Ok(())
}

/// An iterated relator along a path.
fn push_iterated(out: &mut Vec<u8>, relator: u32, path: &[u8]) -> Result<(), NoMemory>
    ensures { OnOk result (out.new.items ≡ out.old.items ++ source_text (Iterated relator path.now)) }
{
    let text = format!(in *out.allocator(); "iterated {relator}")?;
    out.extend_from_slice(text.as_bytes())?;
    push_along(out, path)
}
