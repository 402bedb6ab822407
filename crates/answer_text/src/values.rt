//! Words, definitions and relations as JSON values.

ghost use Rattle.std.specs.Prelude.{◌≡◌, ◌++◌, [], ◌∷◌, IfOk, OnOk, map};
ghost use Rattle.pq_base.specs.Name.{name_text};
ghost use Rattle.serde_json.specs.Data.{string};
ghost use Rattle.serde_json.specs.View.{view};
ghost use Rattle.pc_presentation.specs.Definition.{definition_of};
ghost use Rattle.answer_text.specs.AnswerData.{syllable_data, word_data, definition_data, power_data, commutator_data, list_data};

use pc_presentation::{Definition, Syllable};
use pq_base::{Name, NoMemory};
use serde_json::{Value, json};
use std::alloc::{AllocError, Global};
use std::str;

/// A pair of a generator and its exponent.
fn syllable_value(alloc: Global, s: Syllable) -> Result<Value, AllocError>
    ensures { IfOk result (λ v. view v ≡ syllable_data s) }
{
    json!(in alloc; [s.generator, s.exponent])
}

/// The list of the pairs of a word.
fn word_value(alloc: Global, word: &[Syllable]) -> Result<Value, NoMemory>
    ensures { IfOk result (λ v. view v ≡ word_data word.now) }
{
    let mut list = Vec::new(alloc);
    for s in word {
        list.push(syllable_value(alloc, *s)?)?;
    }
    Ok(Value::Array(list))
}

/// A name as a string.
fn name_value(alloc: Global, name: &Name) -> Result<Value, AllocError>
    ensures { IfOk result (λ v. view v ≡ string name.now) }
{
    match str::from_utf8(name.bytes()) {
        Ok(text) => Value::try_from_str(alloc, text),
        Err(_) => unreachable!(),
    }
}

/// Name number i, counted from 1, and the empty string where there is none.
fn nth_name_value(alloc: Global, names: &[Name], i: u16) -> Result<Value, AllocError>
    ensures { IfOk result (λ v. view v ≡ string (name_text names.now i)) }
{
    if i == 0 {
        return Value::try_from_str(alloc, "");
    }
    match names.get(i as usize - 1) {
        Some(name) => name_value(alloc, name),
        None => Value::try_from_str(alloc, ""),
    }
}

/// A definition: its kind, and the name or the numbers.
pub fn definition_value(
    alloc: Global,
    names: &[Name],
    definition: Definition,
) -> Result<Value, AllocError>
    ensures { IfOk result (λ v. view v ≡ definition_data names.now (definition_of definition)) }
{
    match definition {
        Definition::Image(i) => {
            let name = nth_name_value(alloc, names, i)?;
            json!(in alloc; ["image", name])
        }
        Definition::Commutator(j, i) => json!(in alloc; ["commutator", j, i]),
        Definition::Power(j) => json!(in alloc; ["power", j]),
    }
}

/// Adds a power, where its word isn't empty.
pub fn push_power(list: &mut Vec<Value>, j: u16, word: &[Syllable]) -> Result<(), NoMemory>
    ensures { OnOk result (map view list.new.items ≡ map view list.old.items ++ power_data j word.now) }
{
    if word.is_empty() {
        return Ok(());
    }
    let alloc = *list.allocator();
    let right = word_value(alloc, word)?;
    list.push(json!(in alloc; [j, right])?)?;
    Ok(())
}

/// Adds a commutator, where its word isn't empty.
pub fn push_commutator(
    list: &mut Vec<Value>,
    j: u16,
    i: u16,
    word: &[Syllable],
) -> Result<(), NoMemory>
    ensures { OnOk result (map view list.new.items ≡ map view list.old.items ++ commutator_data j i word.now) }
{
    if word.is_empty() {
        return Ok(());
    }
    let alloc = *list.allocator();
    let right = word_value(alloc, word)?;
    list.push(json!(in alloc; [j, i, right])?)?;
    Ok(())
}

/// A pair of a name and the word of its image.
pub fn image_value(alloc: Global, name: &Name, word: &[Syllable]) -> Result<Value, NoMemory>
    ensures { IfOk result (λ v. view v ≡ list_data (string name.now ∷ word_data word.now ∷ [])) }
{
    let name = name_value(alloc, name)?;
    let word = word_value(alloc, word)?;
    Ok(json!(in alloc; [name, word])?)
}
