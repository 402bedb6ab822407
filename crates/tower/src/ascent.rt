//! Towers of all iterated relators, carried along all endomorphisms: class after class, with few of them recorded.

ghost use Rattle.std.specs.Prelude.{◌≡◌, ◌≤◌, List, [], IfOk, IfErr};
ghost use Rattle.std.specs.List.{All};
ghost use Rattle.pq_base.specs.Limits.{max_class};
ghost use Rattle.pq_base.specs.Prime.{prime_value};
ghost use Rattle.pq_base.specs.LPresentation.{part};
ghost use Rattle.pq_base.specs.LPresentation.Part.{iterated_part};
ghost use Rattle.derivation_log.specs.HeldSteps.{HeldStep, other_run, KeepsTheSame};
ghost use Rattle.tower.specs.NamedParts.{IsNamed};
ghost use Rattle.tower.specs.SpunParts.{AreIterated, AreEnough};
ghost use Rattle.tower.specs.Answers.{IsQuotient};
ghost use Rattle.tower.specs.LoggedRuns.{HoldsRun, HoldsRefused};
ghost use Rattle.tower.specs.Refusals.{IsRefusalOf};

use crate::refusal::TowerRefusal;
use crate::relator::Relator;
use crate::spun_classes::spun_class;
use class_step::Step;
use derivation_log::{Log, Run};
use lpres_reader::LPres;
use pc_presentation::{Answer, Collect};
use pq_base::Prime;
use std::alloc::Global;

/// The largest quotient of the group of the iterated relators, carried along all endomorphisms, of p-class at most so much, in its
/// canonical form. `TooLarge` comes at the first class whose largest quotient has a rank above 100, and only there.
///
/// With it come the relators that were recorded: iterated ones along lists of endomorphisms, which say as much as all of them up to
/// this class. In each class the span of the overlap rows is closed under the matrices of the endomorphisms, from the rows of the
/// iterated relators on, and each row that is new in it records a relator. Each class has all tails and tests all overlaps where the
/// log asks for full steps, and else those alone whose weights leave room for a generator of the next class; other relators may be
/// recorded then.
///
/// The log is told of the step of each class of this run, of which it holds none before. After `Ok` it holds one for each
/// class up to the one asked for, or to the first that kept no tail; after a refusal it holds those that were done.
pub fn ascending<C: Collect + Drop, L: Log>(
    alloc: Global,
    pres: &LPres,
    run: Run,
    prime: Prime,
    class: u8,
    log: &mut L,
) -> Result<(Answer, Vec<Relator>), TowerRefusal>
    requires from_one { 1 ≤ class }
    requires class { class ≤ max_class }
    requires log { (steps : List HeldStep) → L.keeps log.old run steps → steps ≡ [] }
    ensures quotient { IfOk result (λ r. IsQuotient (part pres.now iterated_part) (prime_value prime) class r.0) }
    ensures recorded { IfOk result (λ r. All (IsNamed pres.now) r.1.items) }
    ensures iterated { IfOk result (λ r. AreIterated pres.now r.1.items) }
    ensures enough { IfOk result (λ r. AreEnough pres.now r.1.items (prime_value prime) class) }
    ensures refusal { IfErr result (λ e. IsRefusalOf (part pres.now iterated_part) (prime_value prime) class run e) }
    ensures other { KeepsTheSame (L.keeps log.old (other_run run)) (L.keeps log.new (other_run run)) }
    ensures held { L.keeps log.old run []
        → IfOk result (λ r.
        HoldsRun L.FULL (part pres.now iterated_part) C.meaning (prime_value prime) class (L.keeps log.new run) r.0) }
    ensures refused { L.keeps log.old run []
        → IfErr result (λ e.
        HoldsRefused L.FULL (part pres.now iterated_part) C.meaning (prime_value prime) class (L.keeps log.new run) e) }
{
    let mut answer = Answer::trivial(alloc, prime, pres.names())?;
    let mut recorded = Vec::new(alloc);
    for k in 0..class {
        let _rank = answer.pcp().rank();
        match spun_class::<C, L>(alloc, pres, run, prime, k, &answer, &mut recorded, log)? {
            Step::Next(next) => answer = next,
            Step::Same => return Ok((answer, recorded)),
            Step::TooLarge { rank } => {
                return Err(TowerRefusal::TooLarge {
                    run,
                    class: k + 1,
                    rank,
                })
            }
        }
    }
    let _rank = answer.pcp().rank();
    Ok((answer, recorded))
}
