//! The want order.

ghost use Rattle.std.specs.Prelude.{◌≡◌, ◌≤◌, ◌++◌, ◌∷◌, [], false, IfOk, OnOk, map, length};
ghost use Rattle.pq_base.specs.Answer.{class_of};
ghost use Rattle.pq_base.specs.Canonical.{same_definition, is_among, commutators_of, all_commutators, all_powers, all_images};
ghost use Rattle.pq_base.specs.Canonical.{is_qualifying};
ghost use Rattle.pc_presentation.specs.Definition.{definition_of};
ghost use Rattle.p_cover.specs.Covers.{all_sources};
ghost use Rattle.p_cover.specs.CoverLaws.{IsSource};
ghost use Rattle.p_cover.specs.Wanted.{is_wanted, wanted};

use pc_presentation::{Answer, Definition};
use pq_base::NoMemory;
use std::alloc::Global;

/// The relations and images of an answer that define no generator, in the order in which they are wanted as definitions of
/// the next class: at class 0 the images; else the commutators `[a_j,a_i]` with weights c and 1 and the powers of weight c,
/// c being the class, then the other commutators, the other powers and the images.
pub fn want_order(alloc: Global, answer: &Answer) -> Result<Vec<Definition>, NoMemory>
    ensures { IfOk result (λ sources. map definition_of sources.items ≡ all_sources answer.now) }
{
    let _conditions = answer.pcp();
    // at class 0 there are no relations
    let mut sources = Vec::new(alloc);
    push_commutators(&mut sources, answer, true)?;
    push_powers(&mut sources, answer, true)?;
    push_commutators(&mut sources, answer, false)?;
    push_powers(&mut sources, answer, false)?;
    push_images(&mut sources, answer)?;
    Ok(sources)
}

/// Puts the commutators that define no generator at the end, those that qualify or the others.
fn push_commutators(
    sources: &mut Vec<Definition>,
    answer: &Answer,
    qualifying: bool,
) -> Result<(), NoMemory>
    ensures { OnOk result (map definition_of sources.new.items
        ≡ map definition_of sources.old.items
        ++ wanted answer.now (class_of answer.now) qualifying (all_commutators answer.now.presentation.rank)) }
{
    for k in 0..answer.pcp().rank() {
        push_commutators_of(sources, answer, qualifying, k + 1)?;
    }
    Ok(())
}

/// Puts such commutators of generator j with those before it at the end.
fn push_commutators_of(
    sources: &mut Vec<Definition>,
    answer: &Answer,
    qualifying: bool,
    j: u16,
) -> Result<(), NoMemory>
    requires from_one { 1 ≤ j }
    requires in_range { j ≤ answer.now.presentation.rank }
    ensures { OnOk result (map definition_of sources.new.items
        ≡ map definition_of sources.old.items ++ wanted answer.now (class_of answer.now) qualifying (commutators_of j)) }
{
    for k in 0..j - 1 {
        push_wanted(
            sources,
            answer,
            qualifying,
            Definition::Commutator(j, k + 1),
        )?;
    }
    Ok(())
}

/// Puts the powers that define no generator at the end of a list of sources, those that qualify or the others.
pub fn push_powers(
    sources: &mut Vec<Definition>,
    answer: &Answer,
    qualifying: bool,
) -> Result<(), NoMemory>
    ensures { OnOk result (map definition_of sources.new.items
        ≡ map definition_of sources.old.items
        ++ wanted answer.now (class_of answer.now) qualifying (all_powers answer.now.presentation.rank)) }
{
    for k in 0..answer.pcp().rank() {
        push_wanted(sources, answer, qualifying, Definition::Power(k + 1))?;
    }
    Ok(())
}

/// Puts the images that define no generator at the end of a list of sources.
pub fn push_images(sources: &mut Vec<Definition>, answer: &Answer) -> Result<(), NoMemory>
    ensures { OnOk result (map definition_of sources.new.items
        ≡ map definition_of sources.old.items ++ wanted answer.now (class_of answer.now) false (all_images (length answer.now.names))) }
{
    let _conditions = answer.pcp();
    let names = answer.names().len() as u16;
    for k in 0..names {
        push_wanted(sources, answer, false, Definition::Image(k + 1))?;
    }
    Ok(())
}

/// Puts a source at the end of a list of sources, where it defines no generator, and qualifies or not, as is asked.
pub fn push_wanted(
    sources: &mut Vec<Definition>,
    answer: &Answer,
    qualifying: bool,
    source: Definition,
) -> Result<(), NoMemory>
    requires { IsSource answer.now (definition_of source) }
    ensures { OnOk result (map definition_of sources.new.items
        ≡ map definition_of sources.old.items ++ wanted answer.now (class_of answer.now) qualifying (definition_of source ∷ [])) }
{
    if is_wanted(answer, qualifying, source) {
        sources.push(source)?;
    }
    Ok(())
}

/// Whether a source defines no generator, and qualifies or not.
fn is_wanted(answer: &Answer, qualifying: bool, source: Definition) -> bool
    requires { IsSource answer.now (definition_of source) }
    ensures { result ≡ is_wanted answer.now (class_of answer.now) qualifying (definition_of source) }
{
    is_qualifying(answer, source) == qualifying && !is_definition(answer, source)
}

/// Whether this is a commutator of a generator of the last weight with one of weight 1, or the power of one of the last
/// weight.
fn is_qualifying(answer: &Answer, source: Definition) -> bool
    requires { IsSource answer.now (definition_of source) }
    ensures { result ≡ is_qualifying answer.now (class_of answer.now) (definition_of source) }
{
    let pcp = answer.pcp();
    let class = answer.class();
    match source {
        Definition::Commutator(j, i) => pcp.weight(j) == class && pcp.weight(i) == 1,
        Definition::Power(j) => pcp.weight(j) == class,
        Definition::Image(_) => false,
    }
}

/// Whether a generator is defined by this.
fn is_definition(answer: &Answer, source: Definition) -> bool
    ensures { result ≡ is_among (definition_of source) answer.now.definitions }
{
    for k in 0..answer.pcp().rank() {
        if is_same(source, answer.definition(k + 1)) {
            return true;
        }
    }
    false
}

/// Whether two definitions are one.
fn is_same(source: Definition, definition: Definition) -> bool
    ensures { result ≡ same_definition (definition_of source) (definition_of definition) }
{
    match (source, definition) {
        (Definition::Commutator(j, i), Definition::Commutator(l, k)) => j == l && i == k,
        (Definition::Power(j), Definition::Power(k)) => j == k,
        (Definition::Image(i), Definition::Image(k)) => i == k,
        _ => false,
    }
}
