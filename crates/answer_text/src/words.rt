// Words of a presentation as texts.
ghost use Rattle.std.specs.Prelude.{◌≡◌, ◌≤◌, ◌++◌, OnOk};
ghost use Rattle.answer_text.specs.Words.{generator_text, exponent_text, syllable_text, further_text, word_text, AreExponents};

use pc_presentation::Syllable;
use pq_base::{NoMemory, push_number};

/// Writes a generator, counted from 1.
pub fn push_generator(out: &mut Vec<u8>, k: u16) -> Result<(), NoMemory>
    ensures { OnOk result (out.new.items ≡ out.old.items ++ generator_text k) }
{
    out.push(b'a')?;
    push_number(out, u64::from(k))
}

/// Writes an exponent, which is left out where it is 1.
fn push_exponent(out: &mut Vec<u8>, e: u8) -> Result<(), NoMemory>
    requires { 1 ≤ e }
    ensures { OnOk result (out.new.items ≡ out.old.items ++ exponent_text e) }
{
    if e == 1 {
        return Ok(());
    }
    out.push(b'^')?;
    push_number(out, u64::from(e))
}

fn push_syllable(out: &mut Vec<u8>, s: Syllable) -> Result<(), NoMemory>
    requires { 1 ≤ s.exponent }
    ensures { OnOk result (out.new.items ≡ out.old.items ++ syllable_text s) }
{
    push_generator(out, s.generator)?;
    push_exponent(out, s.exponent)
}

/// Writes a word: its syllables with stars between them, or 1 where there is none.
pub fn push_word(out: &mut Vec<u8>, word: &[Syllable]) -> Result<(), NoMemory>
    requires { AreExponents word.now }
    ensures { OnOk result (out.new.items ≡ out.old.items ++ word_text word.now) }
{
    match word {
        [] => {
            out.push(b'1')?;
            Ok(())
        }
        [first, rest @ ..] => {
            push_syllable(out, *first)?;
            push_further(out, rest)
        }
    }
}

/// Writes syllables behind others.
fn push_further(out: &mut Vec<u8>, word: &[Syllable]) -> Result<(), NoMemory>
    requires { AreExponents word.now }
    ensures { OnOk result (out.new.items ≡ out.old.items ++ further_text word.now) }
{
    for s in word {
        out.push(b'*')?;
        push_syllable(out, *s)?;
    }
    Ok(())
}
