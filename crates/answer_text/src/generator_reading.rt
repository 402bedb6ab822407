//! The lines of the generators: their weights and their sources.

ghost use Rattle.std.specs.Prelude.{◌≡◌, ◌≤◌, ◌+◌, ◌++◌, [], ◌∷◌, length, IfOk, IfErr, OnOk};
ghost use Rattle.pq_base.specs.Limits.{max_rank};
ghost use Rattle.pq_base.specs.Lines.{text_of_lines};
ghost use Rattle.pq_base.specs.Prime.{prime_value};
ghost use Rattle.answer_text.specs.AnswerPlaces.Place.{in_body};
ghost use Rattle.answer_text.specs.ReadSoFar.{IsBadAt, source_lines, AreSources};

use crate::fault::AnswerFault;
use crate::head_reading::Head;
use crate::line_reading::generator_line;
use crate::pieces::next_line;
use crate::source::Source;
use pq_base::NoMemory;
use std::alloc::Global;

/// The weights and the sources of the generators, and what follows their lines.
pub(crate) fn read_generators<'a>(
    alloc: Global,
    head: Head,
    text: &'a [u8],
) -> Result<(Vec<u8>, Vec<Source>, &'a [u8]), AnswerFault>
    requires { head.rank ≤ max_rank }
    ensures ok { IfOk result
        (λ x. (length x.0.items ≡ head.rank) × (length x.1.items ≡ head.rank) × AreSources head.rank x.0.items x.1.items
        × (text.now ≡ text_of_lines (source_lines (prime_value head.prime) 0 x.0.items x.1.items) ++ x.2.now)) }
    ensures shorter { IfOk result (λ x. length x.2.now + head.rank ≤ length text.now) }
    ensures err { IfErr result (IsBadAt (in_body (prime_value head.prime) head.rank head.rank 0) text.now 5) }
{
    let mut weights = Vec::new(alloc);
    let mut sources = Vec::new(alloc);
    let mut rest = text;
    let prime = head.prime.value();
    for k in 0..head.rank {
        let number = u32::from(k) + 5;
        let Some((line, more)) = next_line(rest) else {
            return Err(AnswerFault::Line(number));
        };
        let Some((weight, source)) = generator_line(line, k + 1, prime, head.rank) else {
            return Err(AnswerFault::Line(number));
        };
        add_generator(&mut weights, &mut sources, weight, source)?;
        rest = more;
    }
    Ok((weights, sources, rest))
}

/// Adds a generator behind those that were read.
fn add_generator(
    weights: &mut Vec<u8>,
    sources: &mut Vec<Source>,
    weight: u8,
    source: Source,
) -> Result<(), NoMemory>
    ensures weights { OnOk result (weights.new.items ≡ weights.old.items ++ weight ∷ []) }
    ensures sources { OnOk result (sources.new.items ≡ sources.old.items ++ source ∷ []) }
{
    weights.push(weight)?;
    sources.push(source)?;
    Ok(())
}
