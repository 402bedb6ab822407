//! Covers of answers. `answer` takes the text of the case as an answer. Then `want` is its want order; `cover` is its cover
//! with a tail for each relation and image that defines no generator, and `cover N` with tails for the first N of these
//! alone: the answer is what each tail comes from, and the images with their tails and inverses. `tail SOURCE` is the tail
//! of `[aJ,aI]`, `aJ^P` or `image I`. `overlaps` are the rows of all overlaps, each without memory, and `relator LETTERS` is
//! the row of a relator, where it has one. `light` is the light cover, shown as `cover` shows it, `tests` are the overlaps that leave
//! room for the next class with their rows there, and `carries SOURCE` says whether a relation or an image has room.

ghost use Rattle.std.specs.Prelude.{IsTrue, length};
ghost use Rattle.pq_base.specs.SignedWord.{HasLetters};
ghost use Rattle.p_cover.specs.CoverLaws.{IsSource};
ghost use Rattle.pc_presentation.specs.Definition.{definition_of};

use crate::answer_cases::read_short;
use crate::element_calls::show_element;
use crate::relation_text::{relation_of, show_overlap};
use anyhow::{Result, bail};
use case_lists::text::Text;
use case_lists::{Cases, empty_row, is_over, scratch_of, show_row, word_of};
use consistency::{Tests, row};
use epimorphism::relator_row;
use fp_rows::Row;
use free_words::Word;
use p_cover::{Cover, Images, cover_of, full_cover, want_order};
use pc_presentation::{Answer, Definition, Overlap, Relation};
use std::alloc::Global;
use tails_by_weight::{is_light, light_cover, light_tests};

#[derive(Drop)]
pub(crate) struct CoverCases {
    alloc: Global,
    text: Text,
    answer: Option<Answer>,
}

impl Cases for CoverCases {
    fn new(alloc: Global) -> CoverCases {
        CoverCases {
            alloc,
            text: Text::new(alloc),
            answer: None,
        }
    }

    fn act(&mut self, verb: &str, rest: &str, out: &mut String) -> Result<()> {
        if self.text.add(verb, rest)? {
            return Ok(());
        }
        if verb == "answer" {
            self.answer = Some(read_short(self.alloc, self.text.bytes())??);
            return Ok(());
        }
        match &self.answer {
            Some(answer) => calculate(self.alloc, answer, verb, rest, out),
            None => bail!("no answer"),
        }
    }
}

fn calculate(
    alloc: Global,
    answer: &Answer,
    verb: &str,
    rest: &str,
    out: &mut String,
) -> Result<()> {
    match verb {
        "want" => show_sources(out, &want_order(alloc, answer)?),
        "cover" if rest.is_empty() => show_cover(alloc, &full_cover(alloc, answer)?, out),
        "cover" => {
            let cover = cover_of_first(alloc, answer, rest.parse::<usize>()?)?;
            show_cover(alloc, &cover, out)
        }
        "tail" => show_tail(&full_cover(alloc, answer)?, source_of(rest)?, out),
        "overlaps" => show_overlaps(alloc, &full_cover(alloc, answer)?, out),
        "light" => show_cover(alloc, &light_cover(alloc, answer)?, out),
        "tests" => show_tests(alloc, answer, out),
        "carries" => show_carries(answer, source_of(rest)?, out),
        "relator" => {
            let word = word_of(alloc, rest)?;
            show_relator(alloc, &full_cover(alloc, answer)?, &word, out)
        }
        _ => bail!("no such verb"),
    }
}

/// The cover in which the first so many of all sources carry tails.
fn cover_of_first(alloc: Global, answer: &Answer, count: usize) -> Result<Cover> {
    let mut sources = want_order(alloc, answer)?;
    sources.truncate(count);
    let cover = cover_of(alloc, answer, &sources)?;
    Ok(cover)
}

/// The source that a text is.
fn source_of(text: &str) -> Result<Definition> {
    if let Some(number) = text.strip_prefix("image ") {
        return Ok(Definition::Image(number.parse::<u16>()?));
    }
    match relation_of(text)? {
        Relation::Commutator(j, i) => Ok(Definition::Commutator(j, i)),
        Relation::Power(j) => Ok(Definition::Power(j)),
    }
}

fn show_source(out: &mut String, source: Definition) -> Result<()> {
    match source {
        Definition::Commutator(j, i) => write!(out, " [a{j},a{i}]")?,
        Definition::Power(j) => write!(out, " a{j}^p")?,
        Definition::Image(i) => write!(out, " image {i}")?,
    }
    Ok(())
}

fn show_sources(out: &mut String, sources: &[Definition]) -> Result<()> {
    out.push_str("   ")?;
    for source in sources {
        show_source(out, *source)?;
    }
    out.push('\n')?;
    Ok(())
}

fn show_cover(alloc: Global, cover: &Cover, out: &mut String) -> Result<()> {
    let class = cover.answer().class();
    let tails = cover.tails();
    writeln!(out, "    class {class} tails {tails}")?;
    for t in 0..cover.tails() {
        let tail = t + 1;
        write!(out, "    tail {tail} from")?;
        show_source(out, cover.source_of(tail))?;
        out.push('\n')?;
    }
    show_images(alloc, cover, out)
}

/// Writes the images of the given generators, each with its inverse.
fn show_images(alloc: Global, cover: &Cover, out: &mut String) -> Result<()> {
    let mut s = scratch_of(alloc, cover)?;
    let images = Images::lift(alloc, &mut s, cover)?;
    for image in images.elements() {
        show_element(out, image)?;
    }
    for inverse in images.inverses() {
        show_element(out, inverse)?;
    }
    Ok(())
}

fn show_tail(cover: &Cover, source: Definition, out: &mut String) -> Result<()> {
    match cover.tail_of(source) {
        Some(tail) => writeln!(out, "    tail {tail}")?,
        None => writeln!(out, "    none")?,
    }
    Ok(())
}

fn show_overlaps(alloc: Global, cover: &Cover, out: &mut String) -> Result<()> {
    for overlap in Tests::all(cover.pcp().rank()) {
        write!(out, "    ")?;
        show_overlap(out, overlap)?;
        out.push(':')?;
        show_overlap_row(alloc, cover, overlap, out)?;
        out.push('\n')?;
    }
    Ok(())
}

fn show_tests(alloc: Global, answer: &Answer, out: &mut String) -> Result<()> {
    let cover = light_cover(alloc, answer)?;
    for overlap in light_tests(alloc, answer)? {
        write!(out, "    ")?;
        show_overlap(out, overlap)?;
        out.push(':')?;
        show_overlap_row(alloc, &cover, overlap, out)?;
        out.push('\n')?;
    }
    Ok(())
}

fn show_carries(answer: &Answer, source: Definition, out: &mut String) -> Result<()> {
    if !is_source(answer, source) {
        bail!("no relation or image of the answer");
    }
    let light = is_light(answer, source);
    writeln!(out, "    {light}")?;
    Ok(())
}

/// Whether this is a relation or an image of an answer.
fn is_source(answer: &Answer, source: Definition) -> bool
    ensures { IsTrue result → IsSource answer.now (definition_of source) }
{
    let rank = answer.pcp().rank();
    match source {
        Definition::Commutator(j, i) => 1 <= i && i < j && j <= rank,
        Definition::Power(j) => 1 <= j && j <= rank,
        Definition::Image(i) => 1 <= i && i as usize <= answer.names().len(),
    }
}

fn show_overlap_row(
    alloc: Global,
    cover: &Cover,
    overlap: Overlap,
    out: &mut String,
) -> Result<()> {
    let mut s = scratch_of(alloc, cover)?;
    let mut tails = empty_row(alloc, cover)?;
    if !overlap.is_of(cover.pcp().rank()) {
        bail!("no overlap of the cover");
    }
    if row(&mut s, cover, overlap, &mut tails) {
        show_row(out, &tails)
    } else {
        out.push_str(" exponents differ")?;
        Ok(())
    }
}

fn show_relator(alloc: Global, cover: &Cover, word: &Word, out: &mut String) -> Result<()> {
    if !is_over(cover.answer().names().len(), word.letters()) {
        bail!("a letter without an image");
    }
    match relator_row_of(alloc, cover, word)? {
        Some(row) => {
            out.push_str("   ")?;
            show_row(out, &row)?;
            out.push('\n')?;
        }
        None => writeln!(out, "    no row")?,
    }
    Ok(())
}

/// The row of a word over the given generators, where it has one.
fn relator_row_of(alloc: Global, cover: &Cover, word: &Word) -> Result<Option<Row>>
    requires { HasLetters (length cover.now.answer.names) word.now }
{
    let mut s = scratch_of(alloc, cover)?;
    let images = Images::lift(alloc, &mut s, cover)?;
    let mut row = empty_row(alloc, cover)?;
    if relator_row(&mut s, cover, &images, word, &mut row) {
        Ok(Some(row))
    } else {
        Ok(None)
    }
}
