//! The tower of a whole presentation.

ghost use Rattle.std.specs.Prelude.{◌≡◌, ◌≢◌, ◌≤◌, ◌↔◌, IsTrue, List, [], IfOk, IfErr};
ghost use Rattle.std.specs.List.{All};
ghost use Rattle.pq_base.specs.Limits.{max_class};
ghost use Rattle.pq_base.specs.Prime.{prime_value};
ghost use Rattle.derivation_log.specs.declared.source.Run.TheVariants.{Iterated, Whole};
ghost use Rattle.derivation_log.specs.HeldSteps.{HeldStep, KeepsTheSame};
ghost use Rattle.tower.specs.NamedParts.{IsNamed, named_part};
ghost use Rattle.tower.specs.SpunParts.{AreEnough};
ghost use Rattle.tower.specs.Answers.{IsQuotient};
ghost use Rattle.tower.specs.LoggedRuns.{HoldsRun, HoldsRefused};
ghost use Rattle.tower.specs.Refusals.{IsRefusalOf};
ghost use Rattle.tower.specs.TwoRuns.{and_all_fixed, TakesTwoRuns, HasSmallPart, IsRefusalOfWhole, HoldsPart, HoldsTwoRefused};

use crate::ascending;
use crate::refusal::TowerRefusal;
use crate::relator::{Relator, all_relators, push_fixed};
use crate::runs::finite;
use derivation_log::{Log, Run};
use lpres_reader::LPres;
use pc_presentation::{Answer, Collect};
use pq_base::{NoMemory, Prime};
use std::alloc::Global;

/// The largest quotient of a presentation, of p-class at most so much, in its canonical form. Where there are fixed relators and
/// endomorphisms, the iterated part is computed first, as the run `Iterated`; the relators that it records and the fixed ones are
/// the run `Whole`. `TooLarge` comes at the first class whose largest quotient has a rank above 100, in the run that it names. Which
/// tails and overlaps a class has, and what the log holds, is as in `finite`, for each of the runs.
pub fn largest<C: Collect + Drop, L: Log>(
    alloc: Global,
    pres: &LPres,
    prime: Prime,
    class: u8,
    log: &mut L,
) -> Result<Answer, TowerRefusal>
    requires from_one { 1 ≤ class }
    requires class { class ≤ max_class }
    requires log { (steps : List HeldStep) → L.keeps log.old Whole steps → steps ≡ [] }
    requires part_log { TakesTwoRuns pres.now → (steps : List HeldStep) → L.keeps log.old Iterated steps → steps ≡ [] }
    ensures quotient { IfOk result (λ a. IsQuotient pres.now (prime_value prime) class a) }
    ensures small { IfOk result (λ a. HasSmallPart pres.now (prime_value prime) class) }
    ensures refusal { IfErr result (λ e. IsRefusalOfWhole pres.now (prime_value prime) class e) }
    ensures other { ¬ TakesTwoRuns pres.now → KeepsTheSame (L.keeps log.old Iterated) (L.keeps log.new Iterated) }
    ensures held { L.keeps log.old Whole []
        → IfOk result (λ a. HoldsRun L.FULL pres.now C.meaning (prime_value prime) class (L.keeps log.new Whole) a) }
    ensures held_part { TakesTwoRuns pres.now → L.keeps log.old Iterated []
        → IfOk result (λ a. HoldsPart L.FULL pres.now C.meaning (prime_value prime) class (L.keeps log.new Iterated)) }
    ensures refused { ¬ TakesTwoRuns pres.now → L.keeps log.old Whole []
        → IfErr result (λ e. HoldsRefused L.FULL pres.now C.meaning (prime_value prime) class (L.keeps log.new Whole) e) }
    ensures refused_part { TakesTwoRuns pres.now → L.keeps log.old Iterated [] → L.keeps log.old Whole []
        → IfErr result (λ e. HoldsTwoRefused L.FULL pres.now C.meaning (prime_value prime) class
        (L.keeps log.new Iterated) (L.keeps log.new Whole) e) }
{
    if has_no_endos(pres) {
        without_endos::<C, L>(alloc, pres, prime, class, log)
    } else if has_no_fixed(pres) {
        without_fixed::<C, L>(alloc, pres, prime, class, log)
    } else {
        in_two_runs::<C, L>(alloc, pres, prime, class, log)
    }
}

/// Whether a presentation has no endomorphism.
fn has_no_endos(pres: &LPres) -> bool
    ensures { IsTrue result ↔ (pres.now.endos ≡ []) }
{
    pres.endos().is_empty()
}

/// Whether a presentation has no fixed relator.
fn has_no_fixed(pres: &LPres) -> bool
    ensures { IsTrue result ↔ (pres.now.fixed ≡ []) }
{
    pres.fixed().is_empty()
}

/// Without endomorphisms: one run over all relators.
fn without_endos<C: Collect + Drop, L: Log>(
    alloc: Global,
    pres: &LPres,
    prime: Prime,
    class: u8,
    log: &mut L,
) -> Result<Answer, TowerRefusal>
    requires endos { pres.now.endos ≡ [] }
    requires from_one { 1 ≤ class }
    requires class { class ≤ max_class }
    requires log { (steps : List HeldStep) → L.keeps log.old Whole steps → steps ≡ [] }
    ensures quotient { IfOk result (λ a. IsQuotient pres.now (prime_value prime) class a) }
    ensures refusal { IfErr result (λ e. IsRefusalOf pres.now (prime_value prime) class Whole e) }
    ensures other { KeepsTheSame (L.keeps log.old Iterated) (L.keeps log.new Iterated) }
    ensures held { L.keeps log.old Whole []
        → IfOk result (λ a. HoldsRun L.FULL pres.now C.meaning (prime_value prime) class (L.keeps log.new Whole) a) }
    ensures refused { L.keeps log.old Whole []
        → IfErr result (λ e. HoldsRefused L.FULL pres.now C.meaning (prime_value prime) class (L.keeps log.new Whole) e) }
{
    let relators = all_relators(alloc, pres)?;
    finite::<C, L>(alloc, pres, relators.as_slice(), prime, class, log)
}

/// Without fixed relators: one run over the iterated ones, which are all.
fn without_fixed<C: Collect + Drop, L: Log>(
    alloc: Global,
    pres: &LPres,
    prime: Prime,
    class: u8,
    log: &mut L,
) -> Result<Answer, TowerRefusal>
    requires fixed { pres.now.fixed ≡ [] }
    requires from_one { 1 ≤ class }
    requires class { class ≤ max_class }
    requires log { (steps : List HeldStep) → L.keeps log.old Whole steps → steps ≡ [] }
    ensures quotient { IfOk result (λ a. IsQuotient pres.now (prime_value prime) class a) }
    ensures refusal { IfErr result (λ e. IsRefusalOf pres.now (prime_value prime) class Whole e) }
    ensures other { KeepsTheSame (L.keeps log.old Iterated) (L.keeps log.new Iterated) }
    ensures held { L.keeps log.old Whole []
        → IfOk result (λ a. HoldsRun L.FULL pres.now C.meaning (prime_value prime) class (L.keeps log.new Whole) a) }
    ensures refused { L.keeps log.old Whole []
        → IfErr result (λ e. HoldsRefused L.FULL pres.now C.meaning (prime_value prime) class (L.keeps log.new Whole) e) }
{
    let (answer, _recorded) = ascending::<C, L>(alloc, pres, Run::Whole, prime, class, log)?;
    Ok(answer)
}

/// With both: a run over the iterated part, and one over what it records and the fixed relators.
fn in_two_runs<C: Collect + Drop, L: Log>(
    alloc: Global,
    pres: &LPres,
    prime: Prime,
    class: u8,
    log: &mut L,
) -> Result<Answer, TowerRefusal>
    requires two { TakesTwoRuns pres.now }
    requires from_one { 1 ≤ class }
    requires class { class ≤ max_class }
    requires log { (steps : List HeldStep) → L.keeps log.old Whole steps → steps ≡ [] }
    requires part_log { (steps : List HeldStep) → L.keeps log.old Iterated steps → steps ≡ [] }
    ensures quotient { IfOk result (λ a. IsQuotient pres.now (prime_value prime) class a) }
    ensures small { IfOk result (λ a. HasSmallPart pres.now (prime_value prime) class) }
    ensures refusal { IfErr result (λ e. IsRefusalOfWhole pres.now (prime_value prime) class e) }
    ensures held { L.keeps log.old Whole []
        → IfOk result (λ a. HoldsRun L.FULL pres.now C.meaning (prime_value prime) class (L.keeps log.new Whole) a) }
    ensures held_part { L.keeps log.old Iterated []
        → IfOk result (λ a. HoldsPart L.FULL pres.now C.meaning (prime_value prime) class (L.keeps log.new Iterated)) }
    ensures refused_part { L.keeps log.old Iterated [] → L.keeps log.old Whole []
        → IfErr result (λ e. HoldsTwoRefused L.FULL pres.now C.meaning (prime_value prime) class
        (L.keeps log.new Iterated) (L.keeps log.new Whole) e) }
{
    let (_answer, recorded) = ascending::<C, L>(alloc, pres, Run::Iterated, prime, class, log)?;
    with_fixed::<C, L>(alloc, pres, recorded.as_slice(), prime, class, log)
}

/// The largest quotient of the recorded relators and all fixed ones, as `finite` has it. Where the recorded relators are enough up
/// to the class asked for, it is that of the whole presentation.
pub fn with_fixed<C: Collect + Drop, L: Log>(
    alloc: Global,
    pres: &LPres,
    recorded: &[Relator],
    prime: Prime,
    class: u8,
    log: &mut L,
) -> Result<Answer, TowerRefusal>
    requires named { All (IsNamed pres.now) recorded.now }
    requires from_one { 1 ≤ class }
    requires class { class ≤ max_class }
    requires log { (steps : List HeldStep) → L.keeps log.old Whole steps → steps ≡ [] }
    ensures quotient { IfOk result
        (λ a. IsQuotient (named_part pres.now (and_all_fixed pres.now recorded.now)) (prime_value prime) class a) }
    ensures refusal { IfErr result
        (λ e. IsRefusalOf (named_part pres.now (and_all_fixed pres.now recorded.now)) (prime_value prime) class Whole e) }
    ensures whole { AreEnough pres.now recorded.now (prime_value prime) class
        → IfOk result (λ a. IsQuotient pres.now (prime_value prime) class a) }
    ensures whole_refusal { AreEnough pres.now recorded.now (prime_value prime) class
        → IfErr result (λ e. IsRefusalOf pres.now (prime_value prime) class Whole e) }
    ensures other { KeepsTheSame (L.keeps log.old Iterated) (L.keeps log.new Iterated) }
    ensures held { L.keeps log.old Whole []
        → IfOk result (λ a. HoldsRun L.FULL pres.now C.meaning (prime_value prime) class (L.keeps log.new Whole) a) }
    ensures refused { L.keeps log.old Whole []
        → IfErr result (λ e. HoldsRefused L.FULL pres.now C.meaning (prime_value prime) class (L.keeps log.new Whole) e) }
{
    let relators = and_fixed(alloc, pres, recorded)?;
    finite::<C, L>(alloc, pres, relators.as_slice(), prime, class, log)
}

/// The recorded relators, and all fixed ones behind them.
fn and_fixed(alloc: Global, pres: &LPres, recorded: &[Relator]) -> Result<Vec<Relator>, NoMemory>
    ensures { IfOk result (λ relators. relators.items ≡ and_all_fixed pres.now recorded.now) }
{
    let _names = pres.names();
    let mut relators = duplicates(alloc, recorded)?;
    push_fixed(&mut relators, pres.fixed().len() as u32)?;
    Ok(relators)
}

/// A copy of each relator of a list.
fn duplicates(alloc: Global, relators: &[Relator]) -> Result<Vec<Relator>, NoMemory>
    ensures { IfOk result (λ copies. copies.items ≡ relators.now) }
{
    let mut copies = Vec::new(alloc);
    for relator in relators {
        copies.push(relator.duplicate(alloc)?)?;
    }
    Ok(copies)
}
