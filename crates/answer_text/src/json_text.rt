//! The JSON text of an answer.

ghost use Rattle.std.specs.Prelude.{◌≡◌, ◌≤◌, ◌-◌, ◌++◌, [], ◌∷◌, IfOk, OnOk, map, get_or};
ghost use Rattle.serde_json.specs.View.{view};
ghost use Rattle.answer_text.specs.AnswerData.{list_data, number_data, definition_data, powers_data, commutator_row_data, commutators_data};
ghost use Rattle.answer_text.specs.AnswerData.{images_data, answer_data, answer_json};

use crate::values::{definition_value, image_value, push_commutator, push_power};
use pc_presentation::{Answer, Relation};
use pq_base::NoMemory;
use serde_json::{Map, Value, json, put};
use std::alloc::{AllocError, Global};

/// The JSON text of an answer, and a newline: every byte of it is determined by the answer.
pub fn json(alloc: Global, answer: &Answer) -> Result<Vec<u8>, NoMemory>
    ensures { IfOk result (λ text. text.items ≡ answer_json answer.now) }
{
    let mut out = answer_value(alloc, answer)?.to_string(alloc)?.into_bytes();
    out.push(b'\n')?;
    Ok(out)
}

fn answer_value(alloc: Global, answer: &Answer) -> Result<Value, NoMemory>
    ensures { IfOk result (λ v. view v ≡ answer_data answer.now) }
{
    let prime = answer.pcp().prime().value();
    let rank = answer.pcp().rank();
    let mut members = Map::new(alloc);
    put(&mut members, alloc, "class", Value::from(answer.class()))?;
    put(
        &mut members,
        alloc,
        "commutators",
        commutators_value(alloc, answer)?,
    )?;
    put(
        &mut members,
        alloc,
        "definitions",
        definitions_value(alloc, answer)?,
    )?;
    put(&mut members, alloc, "images", images_value(alloc, answer)?)?;
    put(
        &mut members,
        alloc,
        "order",
        order_value(alloc, prime, rank)?,
    )?;
    put(&mut members, alloc, "powers", powers_value(alloc, answer)?)?;
    put(&mut members, alloc, "prime", Value::from(prime))?;
    put(&mut members, alloc, "rank", Value::from(rank))?;
    put(
        &mut members,
        alloc,
        "weights",
        weights_value(alloc, answer)?,
    )?;
    Ok(Value::Object(members))
}

/// The pair of the prime and the rank.
fn order_value(alloc: Global, prime: u8, rank: u16) -> Result<Value, AllocError>
    ensures { IfOk result (λ v. view v ≡ list_data (number_data prime ∷ number_data rank ∷ [])) }
{
    json!(in alloc; [prime, rank])
}

fn weights_value(alloc: Global, answer: &Answer) -> Result<Value, NoMemory>
    ensures { IfOk result (λ v. view v ≡ list_data (map number_data answer.now.weights)) }
{
    let pcp = answer.pcp();
    let mut list = Vec::new(alloc);
    for k in 0..pcp.rank() {
        list.push(Value::from(pcp.weight(k + 1)))?;
    }
    Ok(Value::Array(list))
}

fn definitions_value(alloc: Global, answer: &Answer) -> Result<Value, NoMemory>
    ensures { IfOk result (λ v. view v ≡ list_data (map (definition_data answer.now.names) answer.now.definitions)) }
{
    let pcp = answer.pcp();
    let mut list = Vec::new(alloc);
    for k in 0..pcp.rank() {
        list.push(definition_value(alloc, answer.names(), answer.definition(k + 1))?)?;
    }
    Ok(Value::Array(list))
}

fn powers_value(alloc: Global, answer: &Answer) -> Result<Value, NoMemory>
    ensures { IfOk result (λ v. view v ≡ list_data (powers_data 0 answer.now.presentation.powers)) }
{
    let pcp = answer.pcp();
    let mut list = Vec::new(alloc);
    for k in 0..pcp.rank() {
        push_power(&mut list, k + 1, pcp.word(Relation::Power(k + 1)))?;
    }
    Ok(Value::Array(list))
}

fn commutators_value(alloc: Global, answer: &Answer) -> Result<Value, NoMemory>
    ensures { IfOk result (λ v. view v ≡ list_data (commutators_data 0 answer.now.presentation.commutators)) }
{
    let pcp = answer.pcp();
    let mut list = Vec::new(alloc);
    for k in 0..pcp.rank() {
        push_commutator_row(&mut list, answer, k + 1)?;
    }
    Ok(Value::Array(list))
}

/// Adds the commutators of generator j with those before it.
fn push_commutator_row(list: &mut Vec<Value>, answer: &Answer, j: u16) -> Result<(), NoMemory>
    requires from_one { 1 ≤ j }
    requires in_range { j ≤ answer.now.presentation.rank }
    ensures { OnOk result (map view list.new.items ≡ map view list.old.items
        ++ commutator_row_data j 0 (get_or answer.now.presentation.commutators (j - 1) [])) }
{
    let pcp = answer.pcp();
    for k in 0..j - 1 {
        push_commutator(list, j, k + 1, pcp.word(Relation::Commutator(j, k + 1)))?;
    }
    Ok(())
}

fn images_value(alloc: Global, answer: &Answer) -> Result<Value, NoMemory>
    ensures { IfOk result (λ v. view v ≡ list_data (images_data answer.now.names answer.now.images)) }
{
    // an answer has at most `GENERATORS` names, so they can be counted in a u16
    let _pcp = answer.pcp();
    let mut list = Vec::new(alloc);
    let mut i = 0u16;
    for name in answer.names() {
        i += 1;
        list.push(image_value(alloc, name, answer.image(i))?)?;
    }
    Ok(Value::Array(list))
}
