//! The lines of tails.

ghost use Rattle.std.specs.Prelude.{◌≡◌, ◌++◌, [], ◌∷◌, OnOk, map};
ghost use Rattle.pq_base.specs.Lines.{text_of_lines};
ghost use Rattle.cert_text.specs.CertificateText.{pair_text, further_pairs_text, pairs_text, kept_text, tail_line};

use derivation_log::CertTail;
use pq_base::{NoMemory, push_number};

/// The lines of the tails that a step eliminates.
pub(crate) fn push_tails(out: &mut Vec<u8>, lines: &[CertTail]) -> Result<(), NoMemory>
    ensures { OnOk result (out.new.items ≡ out.old.items ++ text_of_lines (map tail_line lines.now)) }
{
    for line in lines {
        push_tail_line(out, line)?;
    }
    Ok(())
}

/// The line of a tail.
fn push_tail_line(out: &mut Vec<u8>, line: &CertTail) -> Result<(), NoMemory>
    ensures { OnOk result (out.new.items ≡ out.old.items ++ (tail_line line.now ++ 10 ∷ [])) }
{
    out.extend_from_slice(b"tail ")?;
    push_number(out, u64::from(line.tail()))?;
    out.extend_from_slice(b" = ")?;
    push_kept(out, line.kept())?;
    out.extend_from_slice(b" by ")?;
    push_pairs(out, line.sums())?;
    out.push(b'\n')?;
    Ok(())
}

/// What a tail equals: tails with their coefficients, or 0.
fn push_kept(out: &mut Vec<u8>, kept: &[(u16, u8)]) -> Result<(), NoMemory>
    ensures { OnOk result (out.new.items ≡ out.old.items ++ kept_text kept.now) }
{
    if kept.is_empty() {
        out.push(b'0')?;
        return Ok(());
    }
    push_pairs(out, kept)
}

/// Numbers with their coefficients, with blanks between them.
fn push_pairs(out: &mut Vec<u8>, pairs: &[(u16, u8)]) -> Result<(), NoMemory>
    ensures { OnOk result (out.new.items ≡ out.old.items ++ pairs_text pairs.now) }
{
    match pairs {
        [] => Ok(()),
        [first, rest @ ..] => {
            push_pair(out, *first)?;
            push_further_pairs(out, rest)
        }
    }
}

/// Pairs behind others.
fn push_further_pairs(out: &mut Vec<u8>, pairs: &[(u16, u8)]) -> Result<(), NoMemory>
    ensures { OnOk result (out.new.items ≡ out.old.items ++ further_pairs_text pairs.now) }
{
    for pair in pairs {
        out.push(b' ')?;
        push_pair(out, *pair)?;
    }
    Ok(())
}

/// A number with its coefficient.
fn push_pair(out: &mut Vec<u8>, pair: (u16, u8)) -> Result<(), NoMemory>
    ensures { OnOk result (out.new.items ≡ out.old.items ++ pair_text pair) }
{
    let (number, coefficient) = pair;
    push_number(out, u64::from(number))?;
    out.push(b':')?;
    push_number(out, u64::from(coefficient))
}
