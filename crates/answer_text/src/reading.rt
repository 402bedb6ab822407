//! Reading an answer's text, a line at a time.

ghost use Rattle.std.specs.Prelude.{◌≡◌, ◌<◌, ◌-◌, ◌^◌, ℕ, All, length, map, IfOk, IfErr, IfSome, IfNone};
ghost use Rattle.pq_base.specs.Name.{IsName};
ghost use Rattle.pc_presentation.specs.Definition.{definition_of};
ghost use Rattle.pc_presentation.specs.Parts.{words_of};
ghost use Rattle.answer_text.specs.AnswerFaults.{IsAnswerText, IsFaultOf};
ghost use Rattle.answer_text.specs.AnswerPlaces.Place.{for_prime};
ghost use Rattle.answer_text.specs.AnswerText.{answer_text};
ghost use Rattle.answer_text.specs.BodyRead.{IsRead};
ghost use Rattle.answer_text.specs.Drafts.{so_far};
ghost use Rattle.answer_text.specs.OneText.{IsWritable};
ghost use Rattle.answer_text.specs.ReadSoFar.{IsBadAt};
ghost use Rattle.answer_text.specs.Sources.{AreResolved};

use crate::body_reading::{Body, read_body};
use crate::fault::AnswerFault;
use crate::generator_reading::read_generators;
use crate::head_reading::read_head;
use crate::pieces::are_same;
use crate::source::Source;
use crate::writing::text;
use pc_presentation::{Answer, Definition, PcpBuilder};
use pq_base::{Name, NoMemory};
use std::alloc::Global;

/// The answer that a text is, or the line of its first fault, counted from 1.
///
/// The text is that which `text` writes of an answer: no other text of it is read. Lines are judged one by one, and the fault is at the
/// first that hasn't the form of a line in its place; for bytes that end early it is behind the last whole line. What only all lines
/// together break is a fault at the last line. `NoMemory` tells nothing about the bytes. There may be at most 2^32 - 2 bytes, so that the
/// numbers of lines are in range.
pub fn read_answer(alloc: Global, bytes: &[u8]) -> Result<Answer, AnswerFault>
    requires { length bytes.now < 2 ^ 32 - 1 }
    ensures ok { IfOk result (λ a. bytes.now ≡ answer_text a) }
    ensures writable { IfOk result (λ a. IsWritable a) }
    ensures fault { IfErr result (IsFaultOf bytes.now) }
{
    let Reading { sources, body, end } = read_lines(alloc, bytes)?;
    match answer_of(alloc, bytes, &sources, body)? {
        Some(answer) => {
            keeps_limits(&answer);
            Ok(answer)
        }
        None => Err(AnswerFault::Line(end)),
    }
}

/// That an answer keeps the limits of texts: the calls are made for what their contracts say of it. Takes a step for each of its names.
fn keeps_limits(answer: &Answer)
    ensures { IsWritable answer.now }
{
    let _rank = answer.pcp().rank();
    are_names(answer.names());
}

/// That each name is one.
fn are_names(names: &[Name])
    ensures { All IsName names.now }
{
    for name in names {
        let _bytes = name.bytes();
    }
}

/// What the lines of a text say, and the number of the last.
#[derive(Drop)]
struct Reading {
    sources: Vec<Source>,
    body: Body,
    end: u32,
}

/// All lines of a text, or the first that hasn't the form of a line in its place.
fn read_lines(alloc: Global, bytes: &[u8]) -> Result<Reading, AnswerFault>
    requires { length bytes.now < 2 ^ 32 - 1 }
    ensures ok { IfOk result
        (λ r. IsRead bytes.now r.end r.sources.items
        (so_far r.body.builder r.body.last r.body.names.items (words_of r.body.images.items))) }
    ensures err { IfErr result (IsBadAt for_prime bytes.now 1) }
{
    let (head, rest) = read_head(bytes)?;
    let (weights, sources, rest) = read_generators(alloc, head, rest)?;
    let mut body = Body {
        builder: PcpBuilder::new(alloc, head.prime, &weights, 0)?,
        last: 0,
        names: Vec::new(alloc),
        images: Vec::new(alloc),
    };
    let end = read_body(&mut body, head, rest)?;
    Ok(Reading { sources, body, end })
}

/// The answer of what was read, where it has this text.
fn answer_of(
    alloc: Global,
    bytes: &[u8],
    sources: &[Source],
    body: Body,
) -> Result<Option<Answer>, NoMemory>
    ensures some { IfOk result (λ o. IfSome o (λ a. bytes.now ≡ answer_text a)) }
    ensures none { IfOk result
        (λ o. IfNone o ((end : ℕ)
        → IsRead bytes.now end sources.now (so_far body.builder body.last body.names.items (words_of body.images.items))
        → ¬ IsAnswerText bytes.now)) }
{
    let definitions = definitions(alloc, sources, &body.names)?;
    let Body {
        builder,
        last: _,
        names,
        images,
    } = body;
    let pcp = builder.finish();
    let _rank = pcp.rank();
    let Some(answer) = Answer::of(pcp, names, definitions, images) else {
        return Ok(None);
    };
    // the class, and the names in the definitions, are compared with what they are to be
    let written = text(alloc, &answer)?;
    if !are_same(bytes, &written) {
        return Ok(None);
    }
    Ok(Some(answer))
}

/// The definitions by the numbers of the images.
fn definitions(
    alloc: Global,
    sources: &[Source],
    names: &[Name],
) -> Result<Vec<Definition>, NoMemory>
    ensures { IfOk result (λ ds. AreResolved names.now sources.now (map definition_of ds.items)) }
{
    let mut definitions = Vec::new(alloc);
    for source in sources {
        definitions.push(source.definition(names))?;
    }
    Ok(definitions)
}
