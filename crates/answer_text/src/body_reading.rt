//! The lines behind those of the generators: relations and images, to the end.

ghost use Rattle.std.specs.Prelude.{◌≡◌, ◌<◌, ◌≤◌, ◌+◌, ◌-◌, ◌^◌, length, IfOk, IfErr, IsTrue, codes, None as Nothing};
ghost use Rattle.pq_base.specs.Limits.{max_rank};
ghost use Rattle.pq_base.specs.Prime.{prime_value};
ghost use Rattle.pc_presentation.specs.Builder.{extended, IsAccepted};
ghost use Rattle.pc_presentation.specs.Parts.{words_of};
ghost use Rattle.answer_text.specs.BodyRead.{IsBodyRead};
ghost use Rattle.answer_text.specs.Drafts.{IsDraft, Adds, so_far};
ghost use Rattle.answer_text.specs.AnswerPlaces.{Place, HasForm, order_of};
ghost use Rattle.answer_text.specs.AnswerPlaces.Place.{in_body};
ghost use Rattle.answer_text.specs.ReadSoFar.{IsBadAt};

use crate::fault::AnswerFault;
use crate::head_reading::Head;
use crate::line_reading::{image_line, relation_line};
use crate::pieces::{are_same, next_line};
use pc_presentation::{PcpBuilder, PcpRefusal, Relation, Syllable};
use pq_base::{Name, NoMemory};

/// What the lines after the generators say.
#[derive(Drop)]
pub(crate) struct Body {
    pub(crate) builder: PcpBuilder,
    /// The place of the last relation in the order of all, which are behind it once an image came
    pub(crate) last: u32,
    pub(crate) names: Vec<Name>,
    pub(crate) images: Vec<Vec<Syllable>>,
}

/// A place behind those of all relations.
const BEHIND_RELATIONS: u32 = 1_000_000;

/// The place of a relation in the order of all: the powers, then the commutators.
fn place(relation: Relation) -> u32
    ensures { result ≡ order_of relation }
{
    match relation {
        Relation::Power(i) => u32::from(i),
        Relation::Commutator(j, i) => 1000 * u32::from(j) + u32::from(i),
    }
}

/// Reads relations and images to the end of the bytes, and gives the number of the last line.
pub(crate) fn read_body(body: &mut Body, head: Head, text: &[u8]) -> Result<u32, AnswerFault>
    requires rank { head.rank ≤ max_rank }
    requires limit { length text.now + head.rank + 4 < 2 ^ 32 - 1 }
    requires start { IsBodyRead (prime_value head.prime) head.rank body.now.builder.built.weights text.now text.now (head.rank + 5)
        (so_far body.now.builder body.now.last body.now.names.items (words_of body.now.images.items)) }
    ensures ok { IfOk result
        (λ number. IsBodyRead (prime_value head.prime) head.rank body.old.builder.built.weights text.now (codes "end\n") number
        (so_far body.new.builder body.new.last body.new.names.items (words_of body.new.images.items))) }
    ensures err { IfErr result (IsBadAt (in_body (prime_value head.prime) head.rank 0 0) text.now (head.rank + 5)) }
{
    let mut number = u32::from(head.rank) + 5;
    let mut rest = text;
    while let Some((line, more)) = next_line(rest) {
        if are_same(line, b"end") {
            return if more.is_empty() {
                Ok(number)
            } else {
                Err(AnswerFault::Line(number + 1))
            };
        }
        if !add_line(body, head, line)? {
            return Err(AnswerFault::Line(number));
        }
        number += 1;
        rest = more;
    }
    Err(AnswerFault::Line(number))
}

/// Adds what a line says, and says whether it has the form of a relation or an image in its place.
fn add_line(body: &mut Body, head: Head, line: &[u8]) -> Result<bool, NoMemory>
    requires { head.rank ≤ max_rank }
    ensures added { IfOk result
        (λ b. IsTrue b → Adds (prime_value head.prime) head.rank
        (so_far body.old.builder body.old.last body.old.names.items (words_of body.old.images.items))
        (so_far body.new.builder body.new.last body.new.names.items (words_of body.new.images.items)) line.now) }
    ensures refused { IfOk result (λ b. ¬ IsTrue b → IsDraft (prime_value head.prime) head.rank body.old.builder body.old.last
        → (Q : Place) → HasForm (in_body (prime_value head.prime) head.rank 0 body.old.last) line.now Q → line.now ≡ codes "end") }
{
    let alloc = *body.names.allocator();
    let prime = head.prime.value();
    if let Some((relation, word)) = relation_line(alloc, line, prime, head.rank)? {
        return add_relation(body, relation, &word);
    }
    match image_line(alloc, line, prime, head.rank)? {
        Some((name, word)) => {
            body.names.push(name)?;
            body.images.push(word)?;
            body.last = BEHIND_RELATIONS;
            Ok(true)
        }
        None => Ok(false),
    }
}

/// Gives a relation to the builder, where it is behind the last one, and says whether it did.
fn add_relation(body: &mut Body, relation: Relation, word: &[Syllable]) -> Result<bool, NoMemory>
    ensures rises { IfOk result (λ b. IsTrue b → (body.old.last < order_of relation) × (body.new.last ≡ order_of relation)) }
    ensures added { IfOk result (λ b. IsTrue b → body.new.builder ≡ extended body.old.builder relation word.now Nothing) }
    ensures images { (body.new.names.items ≡ body.old.names.items) × (body.new.images.items ≡ body.old.images.items) }
    ensures refused { IfOk result
        (λ b. ¬ IsTrue b → body.old.last < order_of relation → ¬ IsAccepted body.old.builder relation word.now Nothing) }
{
    let place = place(relation);
    if place <= body.last {
        return Ok(false);
    }
    match body.builder.relation(relation, word, None) {
        Ok(()) => {
            body.last = place;
            Ok(true)
        }
        Err(PcpRefusal::NoMemory) => Err(NoMemory),
        Err(_) => Ok(false),
    }
}
