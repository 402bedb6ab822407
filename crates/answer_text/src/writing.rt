//! The text of an answer, part by part.

ghost use Rattle.std.specs.Prelude.{◌≡◌, ◌<◌, ◌≤◌, ◌++◌, ◌-◌, [], ◌∷◌, OnOk, IfOk, get_or, length, codes};
ghost use Rattle.pq_base.specs.Answer.{class_of, definition_at};
ghost use Rattle.pq_base.specs.Lines.{text_of_lines};
ghost use Rattle.pq_base.specs.Name.{name_text};
ghost use Rattle.pc_presentation.specs.Definition.{definition_of};
ghost use Rattle.answer_text.specs.Words.{AreExponents, word_text};
ghost use Rattle.answer_text.specs.AnswerText.{answer_text, head_lines, definition_text, generator_line, generator_lines, relation_lines};
ghost use Rattle.answer_text.specs.AnswerText.{power_text, power_lines, commutator_text, commutator_row_lines, commutator_lines};
ghost use Rattle.answer_text.specs.AnswerText.{image_line, image_lines};

use crate::words::{push_generator, push_word};
use pc_presentation::{Answer, Definition, Relation, Syllable};
use pq_base::{Name, NoMemory, push_number};
use std::alloc::Global;

/// The text of an answer: every byte of it is determined by the answer.
pub fn text(alloc: Global, answer: &Answer) -> Result<Vec<u8>, NoMemory>
    ensures { IfOk result (λ text. text.items ≡ answer_text answer.now) }
{
    let mut out = Vec::new(alloc);
    push_head(&mut out, answer)?;
    push_generators(&mut out, answer)?;
    push_powers(&mut out, answer)?;
    push_commutators(&mut out, answer)?;
    push_images(&mut out, answer)?;
    out.extend_from_slice(b"end\n")?;
    Ok(out)
}

/// Prime, class, rank and order.
fn push_head(out: &mut Vec<u8>, answer: &Answer) -> Result<(), NoMemory>
    ensures { OnOk result (out.new.items
        ≡ out.old.items ++ text_of_lines (head_lines answer.now.presentation.prime (class_of answer.now) answer.now.presentation.rank)) }
{
    let prime = answer.pcp().prime().value();
    let rank = answer.pcp().rank();
    let class = answer.class();
    let head = format!(in *out.allocator();
        "prime {prime}\nclass {class}\nrank {rank}\norder {prime}^{rank}\n"
    )?;
    out.extend_from_slice(head.as_bytes())?;
    Ok(())
}

/// A line for each generator of the answer.
fn push_generators(out: &mut Vec<u8>, answer: &Answer) -> Result<(), NoMemory>
    ensures { OnOk result (out.new.items ≡ out.old.items
        ++ text_of_lines (generator_lines answer.now.presentation.prime answer.now.names 0 answer.now.weights answer.now.definitions)) }
{
    let prime = answer.pcp().prime().value();
    let rank = answer.pcp().rank();
    for k in 0..rank {
        let weight = answer.pcp().weight(k + 1);
        push_generator_line(
            out,
            prime,
            answer.names(),
            k + 1,
            weight,
            answer.definition(k + 1),
        )?;
    }
    Ok(())
}

/// The line of generator k, counted from 1.
fn push_generator_line(
    out: &mut Vec<u8>,
    prime: u8,
    names: &[Name],
    k: u16,
    weight: u8,
    definition: Definition,
) -> Result<(), NoMemory>
    ensures { OnOk result (out.new.items
        ≡ out.old.items ++ (generator_line prime names.now k weight (definition_of definition) ++ 10 ∷ [])) }
{
    out.extend_from_slice(b"generator ")?;
    push_generator(out, k)?;
    out.extend_from_slice(b" weight ")?;
    push_number(out, u64::from(weight))?;
    out.extend_from_slice(b" from ")?;
    push_definition(out, prime, names, definition)?;
    out.push(b'\n')?;
    Ok(())
}

/// The definition of a generator.
fn push_definition(
    out: &mut Vec<u8>,
    prime: u8,
    names: &[Name],
    definition: Definition,
) -> Result<(), NoMemory>
    ensures { OnOk result (out.new.items ≡ out.old.items ++ definition_text prime names.now (definition_of definition)) }
{
    match definition {
        Definition::Image(i) => {
            out.extend_from_slice(b"image ")?;
            push_name(out, names, i)
        }
        Definition::Commutator(j, i) => push_commutator(out, j, i),
        Definition::Power(j) => push_power(out, prime, j),
    }
}

/// Name number i, counted from 1, and nothing where there is none.
fn push_name(out: &mut Vec<u8>, names: &[Name], i: u16) -> Result<(), NoMemory>
    ensures { OnOk result (out.new.items ≡ out.old.items ++ name_text names.now i) }
{
    if i == 0 {
        return Ok(());
    }
    if let Some(name) = names.get(i as usize - 1) {
        out.extend_from_slice(name.bytes())?;
    }
    Ok(())
}

/// `[aJ,aI]`.
fn push_commutator(out: &mut Vec<u8>, j: u16, i: u16) -> Result<(), NoMemory>
    ensures { OnOk result (out.new.items ≡ out.old.items ++ commutator_text j i) }
{
    out.push(b'[')?;
    push_generator(out, j)?;
    out.push(b',')?;
    push_generator(out, i)?;
    out.push(b']')?;
    Ok(())
}

/// `aJ^P`.
fn push_power(out: &mut Vec<u8>, prime: u8, j: u16) -> Result<(), NoMemory>
    ensures { OnOk result (out.new.items ≡ out.old.items ++ power_text prime j) }
{
    push_generator(out, j)?;
    out.push(b'^')?;
    push_number(out, u64::from(prime))
}

/// The lines of the powers whose words aren't empty.
fn push_powers(out: &mut Vec<u8>, answer: &Answer) -> Result<(), NoMemory>
    ensures { OnOk result (out.new.items
        ≡ out.old.items ++ text_of_lines (power_lines answer.now.presentation.prime 0 answer.now.presentation.powers)) }
{
    let prime = answer.pcp().prime().value();
    let rank = answer.pcp().rank();
    for k in 0..rank {
        push_power_relation(out, prime, k + 1, answer.pcp().word(Relation::Power(k + 1)))?;
    }
    Ok(())
}

/// The line of a power, where its word isn't empty.
fn push_power_relation(
    out: &mut Vec<u8>,
    prime: u8,
    j: u16,
    word: &[Syllable],
) -> Result<(), NoMemory>
    requires { AreExponents word.now }
    ensures { OnOk result (out.new.items ≡ out.old.items ++ text_of_lines (relation_lines (power_text prime j) word.now)) }
{
    if word.is_empty() {
        return Ok(());
    }
    out.extend_from_slice(b"relation ")?;
    push_power(out, prime, j)?;
    push_right_side(out, word)
}

/// ` = ` and a word, to the end of the line.
fn push_right_side(out: &mut Vec<u8>, word: &[Syllable]) -> Result<(), NoMemory>
    requires { AreExponents word.now }
    ensures { OnOk result (out.new.items ≡ out.old.items ++ (codes " = " ++ (word_text word.now ++ 10 ∷ []))) }
{
    out.extend_from_slice(b" = ")?;
    push_word(out, word)?;
    out.push(b'\n')?;
    Ok(())
}

/// The lines of the commutators whose words aren't empty.
fn push_commutators(out: &mut Vec<u8>, answer: &Answer) -> Result<(), NoMemory>
    ensures { OnOk result (out.new.items ≡ out.old.items ++ text_of_lines (commutator_lines 0 answer.now.presentation.commutators)) }
{
    let rank = answer.pcp().rank();
    for k in 0..rank {
        push_commutator_row(out, answer, k + 1)?;
    }
    Ok(())
}

/// The lines of the commutators of generator j with those before it.
fn push_commutator_row(out: &mut Vec<u8>, answer: &Answer, j: u16) -> Result<(), NoMemory>
    requires from_one { 1 ≤ j }
    requires in_range { j ≤ answer.now.presentation.rank }
    ensures { OnOk result (out.new.items
        ≡ out.old.items ++ text_of_lines (commutator_row_lines j 0 (get_or answer.now.presentation.commutators (j - 1) []))) }
{
    let pcp = answer.pcp();
    for k in 0..j - 1 {
        push_commutator_relation(out, j, k + 1, pcp.word(Relation::Commutator(j, k + 1)))?;
    }
    Ok(())
}

/// The line of a commutator, where its word isn't empty.
fn push_commutator_relation(
    out: &mut Vec<u8>,
    j: u16,
    i: u16,
    word: &[Syllable],
) -> Result<(), NoMemory>
    requires { AreExponents word.now }
    ensures { OnOk result (out.new.items ≡ out.old.items ++ text_of_lines (relation_lines (commutator_text j i) word.now)) }
{
    if word.is_empty() {
        return Ok(());
    }
    out.extend_from_slice(b"relation ")?;
    push_commutator(out, j, i)?;
    push_right_side(out, word)
}

/// A line for each image.
fn push_images(out: &mut Vec<u8>, answer: &Answer) -> Result<(), NoMemory>
    ensures { OnOk result (out.new.items ≡ out.old.items ++ text_of_lines (image_lines answer.now.names answer.now.images)) }
{
    // an answer has at most `GENERATORS` names, so they can be counted in a u16
    let _pcp = answer.pcp();
    let mut i = 0u16;
    for name in answer.names() {
        i += 1;
        push_image(out, name, answer.image(i))?;
    }
    Ok(())
}

/// The line of an image.
fn push_image(out: &mut Vec<u8>, name: &Name, word: &[Syllable]) -> Result<(), NoMemory>
    requires { AreExponents word.now }
    ensures { OnOk result (out.new.items
        ≡ out.old.items ++ (codes "image " ++ (name.now ++ (codes " = " ++ (word_text word.now ++ 10 ∷ []))))) }
{
    out.extend_from_slice(b"image ")?;
    out.extend_from_slice(name.bytes())?;
    push_right_side(out, word)
}
