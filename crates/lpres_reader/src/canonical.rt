//! Writing a presentation: its canonical text.

ghost use Rattle.std.specs.Prelude.{◌≡◌, ◌++◌, ◌-◌, ◌^◌, ◌<◌, ◌≤◌, [], ◌∷◌, OnOk, IfOk, IfSome, MatchOption, codes, length, map};
ghost use Rattle.std.specs.List.{prefix_len};
ghost use Rattle.std.specs.Ordering.{int_eq};
ghost use Rattle.pq_base.specs.Name.{name_text};
ghost use Rattle.pq_base.specs.Lines.{text_of_lines};
ghost use Rattle.lpres_reader.specs.Runs.{runs_of};
ghost use Rattle.lpres_reader.specs.Reads.{Reads};
ghost use Rattle.lpres_reader.specs.CanonicalText.{preceded, separated, exponent_text, run_text, word_text, generators_line, relator_lines};
ghost use Rattle.lpres_reader.specs.CanonicalText.{arrow_text, arrow_texts, endo_line, endo_lines, canonical_text};

use crate::presentation::LPres;
use free_words::Word;
use pq_base::{Name, NoMemory, push_number};
use std::alloc::Global;

/// A letter, and how often it comes.
#[derive(Clone, Copy)]
pub(crate) struct Run {
    letter: i32,
    size: usize,
}

/// The canonical text of a presentation: every byte of it is determined by the presentation. It reads as the
/// presentation again.
pub fn write(alloc: Global, pres: &LPres) -> Result<Vec<u8>, NoMemory>
    ensures text { IfOk result (λ text. text.items ≡ canonical_text pres.now) }
    ensures reads { IfOk result (λ text. Reads text.items pres.now) }
    ensures short { IfOk result (λ text. length text.items < 2 ^ 32 - 1) }
{
    let mut out = Vec::new(alloc);
    let names = pres.names();
    push_generators(&mut out, names)?;
    push_relators(&mut out, b"fixed ", names, pres.fixed())?;
    push_relators(&mut out, b"iterated ", names, pres.iterated())?;
    push_endos(&mut out, names, pres.endos())?;
    Ok(out)
}

/// The line of the generators.
fn push_generators(out: &mut Vec<u8>, names: &[Name]) -> Result<(), NoMemory>
    ensures { OnOk result (out.new.items ≡ out.old.items ++ (generators_line names.now ++ 10 ∷ [])) }
{
    out.extend_from_slice(b"generators")?;
    for name in names {
        out.push(b' ')?;
        out.extend_from_slice(name.bytes())?;
    }
    out.push(b'\n')?;
    Ok(())
}

/// A line for each relator.
fn push_relators(
    out: &mut Vec<u8>,
    keyword: &[u8],
    names: &[Name],
    words: &[Word],
) -> Result<(), NoMemory>
    ensures { OnOk result (out.new.items ≡ out.old.items ++ text_of_lines (relator_lines keyword.now names.now words.now)) }
{
    for word in words {
        out.extend_from_slice(keyword)?;
        push_word(out, names, word.letters())?;
        out.push(b'\n')?;
    }
    Ok(())
}

/// A line for each endomorphism.
fn push_endos(out: &mut Vec<u8>, names: &[Name], endos: &[Vec<Word>]) -> Result<(), NoMemory>
    ensures { OnOk result (out.new.items ≡ out.old.items ++ text_of_lines (endo_lines names.now (map (λ f. f.items) endos.now))) }
{
    for images in endos {
        out.extend_from_slice(b"endo ")?;
        push_arrows(out, names, images)?;
        out.push(b'\n')?;
    }
    Ok(())
}

/// Arrows from the generators in order to these words, with commas between them.
fn push_arrows(out: &mut Vec<u8>, names: &[Name], images: &[Word]) -> Result<(), NoMemory>
    ensures { OnOk result (out.new.items ≡ out.old.items ++ separated (codes ", ") (arrow_texts names.now 0 images.now)) }
{
    for (place, image) in images.iter().enumerate() {
        if place > 0 {
            out.extend_from_slice(b", ")?;
        }
        push_arrow(out, names, place + 1, image)?;
    }
    Ok(())
}

/// An arrow from generator number i, counted from 1, to a word.
fn push_arrow(out: &mut Vec<u8>, names: &[Name], i: usize, image: &Word) -> Result<(), NoMemory>
    ensures { OnOk result (out.new.items ≡ out.old.items ++ arrow_text names.now i image.now) }
{
    push_name(out, names, i)?;
    out.extend_from_slice(b" -> ")?;
    push_word(out, names, image.letters())
}

/// A word: its runs of equal letters with stars between them, or 1 where there is none.
#[tactic(auto, unfolding(crate::specs::CanonicalText::word_text))]
fn push_word(out: &mut Vec<u8>, names: &[Name], word: &[i32]) -> Result<(), NoMemory>
    ensures { OnOk result (out.new.items ≡ out.old.items ++ word_text names.now word.now) }
{
    match first_run(word) {
        None => {
            out.push(b'1')?;
            Ok(())
        }
        Some((run, rest)) => {
            push_run(out, names, run)?;
            push_further(out, names, rest)
        }
    }
}

/// The runs of a word, each behind a star.
fn push_further(out: &mut Vec<u8>, names: &[Name], word: &[i32]) -> Result<(), NoMemory>
    ensures { OnOk result (out.new.items ≡ out.old.items ++ preceded (codes "*") (map (run_text names.now) (runs_of word.now))) }
{
    let mut rest = word;
    while let Some((run, after)) = first_run(rest) {
        out.push(b'*')?;
        push_run(out, names, run)?;
        rest = after;
    }
    Ok(())
}

/// The first run of a word, and what is behind it.
fn first_run(word: &[i32]) -> Option<(Run, &[i32])>
    ensures run { MatchOption result (runs_of word.now ≡ []) (λ found. runs_of word.now ≡ found.0 ∷ runs_of found.1.now) }
    ensures rest { IfSome result (λ found. length found.1.now < length word.now) }
{
    let letter = word.first()?;
    let size = run_size(*letter, word);
    let (_, rest) = word.split_at(size);
    Some((
        Run {
            letter: *letter,
            size,
        },
        rest,
    ))
}

/// How often a letter comes at the front of a word.
fn run_size(letter: i32, word: &[i32]) -> usize
    ensures size { result ≡ prefix_len (int_eq letter) word.now }
    ensures within { result ≤ length word.now }
{
    word.iter().take_while(|other| letter == **other).count()
}

/// A letter so many times.
fn push_run(out: &mut Vec<u8>, names: &[Name], run: Run) -> Result<(), NoMemory>
    ensures { OnOk result (out.new.items ≡ out.old.items ++ run_text names.now run) }
{
    push_name(out, names, run.letter.unsigned_abs() as usize)?;
    push_exponent(out, run.letter, run.size)
}

/// Name number i, counted from 1, and nothing where there is none.
fn push_name(out: &mut Vec<u8>, names: &[Name], i: usize) -> Result<(), NoMemory>
    ensures { OnOk result (out.new.items ≡ out.old.items ++ name_text names.now i) }
{
    if i == 0 {
        return Ok(());
    }
    if let Some(name) = names.get(i - 1) {
        out.extend_from_slice(name.bytes())?;
    }
    Ok(())
}

/// The exponent of a run of a letter, which is left out for one generator.
fn push_exponent(out: &mut Vec<u8>, letter: i32, size: usize) -> Result<(), NoMemory>
    ensures { OnOk result (out.new.items ≡ out.old.items ++ exponent_text letter size) }
{
    if letter < 0 {
        out.extend_from_slice(b"^-")?;
        push_number(out, size as u64)
    } else if size == 1 {
        Ok(())
    } else {
        out.push(b'^')?;
        push_number(out, size as u64)
    }
}
