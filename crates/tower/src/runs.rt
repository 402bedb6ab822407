//! Towers of few relators: class after class.

ghost use Rattle.std.specs.Prelude.{◌≡◌, ◌≤◌, List, [], IfOk, IfErr};
ghost use Rattle.std.specs.List.{All};
ghost use Rattle.pq_base.specs.Limits.{max_class};
ghost use Rattle.pq_base.specs.Prime.{prime_value};
ghost use Rattle.derivation_log.specs.declared.source.Run.TheVariants.{Iterated, Whole};
ghost use Rattle.derivation_log.specs.HeldSteps.{HeldStep, KeepsTheSame};
ghost use Rattle.tower.specs.NamedParts.{IsNamed, named_part};
ghost use Rattle.tower.specs.Answers.{IsQuotient};
ghost use Rattle.tower.specs.LoggedRuns.{HoldsRun, HoldsRefused};
ghost use Rattle.tower.specs.Refusals.{IsRefusalOf};

use crate::classes::one_class;
use crate::refusal::TowerRefusal;
use crate::relator::Relator;
use class_step::Step;
use derivation_log::{Log, Run};
use lpres_reader::LPres;
use pc_presentation::{Answer, Collect};
use pq_base::Prime;
use std::alloc::Global;

/// The largest quotient of the group of the relators named, of p-class at most so much, in its canonical form. A relator is a fixed
/// one, or an iterated one along a list of endomorphisms. `TooLarge` comes at the first class whose largest quotient has a rank
/// above 100, and only there.
///
/// Each class has all tails and tests all overlaps where the log asks for full steps, and else those alone whose weights leave room for
/// a generator of the next class.
///
/// The log is told of the step of each class of the run `Whole`, of which it holds none before. After `Ok` it holds one for each
/// class up to the one asked for, or to the first that kept no tail; after a refusal it holds those that were done.
pub fn finite<C: Collect + Drop, L: Log>(
    alloc: Global,
    pres: &LPres,
    relators: &[Relator],
    prime: Prime,
    class: u8,
    log: &mut L,
) -> Result<Answer, TowerRefusal>
    requires named { All (IsNamed pres.now) relators.now }
    requires from_one { 1 ≤ class }
    requires class { class ≤ max_class }
    requires log { (steps : List HeldStep) → L.keeps log.old Whole steps → steps ≡ [] }
    ensures quotient { IfOk result (λ a. IsQuotient (named_part pres.now relators.now) (prime_value prime) class a) }
    ensures refusal { IfErr result (λ e. IsRefusalOf (named_part pres.now relators.now) (prime_value prime) class Whole e) }
    ensures other { KeepsTheSame (L.keeps log.old Iterated) (L.keeps log.new Iterated) }
    ensures held { L.keeps log.old Whole []
        → IfOk result (λ a. HoldsRun L.FULL pres.now C.meaning (prime_value prime) class (L.keeps log.new Whole) a) }
    ensures refused { L.keeps log.old Whole []
        → IfErr result (λ e. HoldsRefused L.FULL pres.now C.meaning (prime_value prime) class (L.keeps log.new Whole) e) }
{
    let mut answer = Answer::trivial(alloc, prime, pres.names())?;
    for k in 0..class {
        let _rank = answer.pcp().rank();
        match one_class::<C, L>(alloc, pres, relators, prime, k, &answer, log)? {
            Step::Next(next) => answer = next,
            Step::Same => return Ok(answer),
            Step::TooLarge { rank } => {
                return Err(TowerRefusal::TooLarge {
                    run: Run::Whole,
                    class: k + 1,
                    rank,
                })
            }
        }
    }
    let _rank = answer.pcp().rank();
    Ok(answer)
}
