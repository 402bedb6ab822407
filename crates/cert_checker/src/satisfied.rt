//! Whether elements of a consistent presentation satisfy the relations of an answer.

ghost use Rattle.std.specs.Prelude.{◌≡◌, ◌<◌, ◌+◌, ◌↔◌, ℕ, All, length, IsTrue};
ghost use Rattle.pq_base.specs.SignedWord.{sub};
ghost use Rattle.pq_base.specs.Joined.{Joined, IsConsistent};
ghost use Rattle.pc_presentation.specs.declared.relation.Relation.TheVariants.{Power, Commutator};
ghost use Rattle.pc_presentation.specs.Relation.{IsRelation};
ghost use Rattle.pc_presentation.specs.Rowed.{flat};
ghost use Rattle.pc_presentation.specs.Arithmetic.{word_of};
ghost use Rattle.pc_presentation.specs.Scratch.{IsScratch};
ghost use Rattle.pc_presentation.specs.Tailed.{IsElement, rowed_presentation};
ghost use Rattle.cert_checker.specs.MapWords.{words_of, StandsFor, left_word, Satisfy, IsBench};

use crate::bench::Bench;
use crate::overlaps::are_alike;
use crate::values::multiply_out;
use pc_presentation::{Answer, Elem, Pcp, Relation, Scratch, commutator, power};
use plain_collector::Plain;

/// Whether the elements for the generators of an answer satisfy the powers among its relations.
pub(crate) fn satisfy_powers(
    bench: &mut Bench,
    pcp: &Pcp,
    answer: &Answer,
    elements: &[Elem],
) -> bool
    requires bench { IsBench pcp.now bench.old }
    requires no_tails { pcp.now.tails ≡ 0 }
    requires consistent { IsConsistent pcp.now.presentation }
    requires elements { All (IsElement pcp.now) elements.now }
    requires count { length elements.now ≡ answer.now.presentation.rank }
    ensures bench { IsBench pcp.now bench.new }
    ensures satisfied { IsTrue result ↔ ((i : ℕ) → i < answer.now.presentation.rank
        → Satisfy (rowed_presentation pcp.now) answer.now.presentation (words_of pcp.now elements.now) (Power (i + 1))) }
{
    for i in 0..answer.pcp().rank() {
        if !satisfy(bench, pcp, answer, elements, Relation::Power(i + 1)) {
            return false;
        }
    }
    true
}

/// Whether the elements for the generators of an answer satisfy the commutators among its relations.
pub(crate) fn satisfy_commutators(
    bench: &mut Bench,
    pcp: &Pcp,
    answer: &Answer,
    elements: &[Elem],
) -> bool
    requires bench { IsBench pcp.now bench.old }
    requires no_tails { pcp.now.tails ≡ 0 }
    requires consistent { IsConsistent pcp.now.presentation }
    requires elements { All (IsElement pcp.now) elements.now }
    requires count { length elements.now ≡ answer.now.presentation.rank }
    ensures bench { IsBench pcp.now bench.new }
    ensures satisfied { IsTrue result ↔ ((j i : ℕ) → j < answer.now.presentation.rank → i < j
        → Satisfy (rowed_presentation pcp.now) answer.now.presentation (words_of pcp.now elements.now) (Commutator (j + 1) (i + 1))) }
{
    for j in 0..answer.pcp().rank() {
        if !satisfy_commutators_of(bench, pcp, answer, elements, j) {
            return false;
        }
    }
    true
}

/// Whether they satisfy the commutators of generator j + 1, counted from 1, and those before it.
fn satisfy_commutators_of(
    bench: &mut Bench,
    pcp: &Pcp,
    answer: &Answer,
    elements: &[Elem],
    j: u16,
) -> bool
    requires bench { IsBench pcp.now bench.old }
    requires no_tails { pcp.now.tails ≡ 0 }
    requires consistent { IsConsistent pcp.now.presentation }
    requires elements { All (IsElement pcp.now) elements.now }
    requires count { length elements.now ≡ answer.now.presentation.rank }
    requires in_range { j < answer.now.presentation.rank }
    ensures bench { IsBench pcp.now bench.new }
    ensures satisfied { IsTrue result ↔ ((i : ℕ) → i < j
        → Satisfy (rowed_presentation pcp.now) answer.now.presentation (words_of pcp.now elements.now) (Commutator (j + 1) (i + 1))) }
{
    let _rank = answer.pcp().rank();
    for i in 0..j {
        if !satisfy(
            bench,
            pcp,
            answer,
            elements,
            Relation::Commutator(j + 1, i + 1),
        ) {
            return false;
        }
    }
    true
}

/// Whether the elements for the generators of an answer satisfy one of its relations.
fn satisfy(
    bench: &mut Bench,
    pcp: &Pcp,
    answer: &Answer,
    elements: &[Elem],
    relation: Relation,
) -> bool
    requires bench { IsBench pcp.now bench.old }
    requires no_tails { pcp.now.tails ≡ 0 }
    requires consistent { IsConsistent pcp.now.presentation }
    requires elements { All (IsElement pcp.now) elements.now }
    requires count { length elements.now ≡ answer.now.presentation.rank }
    requires relation { IsRelation answer.now.presentation.rank relation }
    ensures bench { IsBench pcp.now bench.new }
    ensures satisfied { IsTrue result
        ↔ Satisfy (rowed_presentation pcp.now) answer.now.presentation (words_of pcp.now elements.now) relation }
{
    let own = answer.pcp();
    let _presentation = own.rank();
    left_side(
        &mut bench.scratch,
        pcp,
        answer,
        elements,
        relation,
        &mut bench.left,
    );
    multiply_out(
        &mut bench.scratch,
        pcp,
        own.word(relation),
        elements,
        &mut bench.factor,
        &mut bench.next,
        &mut bench.right,
    );
    are_joined(pcp, &bench.left, &bench.right)
}

/// Makes `value` the value of the left side of a relation under the elements for the generators.
fn left_side(
    s: &mut Scratch<Plain>,
    pcp: &Pcp,
    answer: &Answer,
    elements: &[Elem],
    relation: Relation,
    value: &mut Elem,
)
    requires scratch { IsScratch pcp.now s.old }
    requires elements { All (IsElement pcp.now) elements.now }
    requires count { length elements.now ≡ answer.now.presentation.rank }
    requires relation { IsRelation answer.now.presentation.rank relation }
    requires value { IsElement pcp.now value.old }
    ensures scratch { IsScratch pcp.now s.new }
    ensures value { StandsFor pcp.now (sub (left_word answer.now.presentation relation) (words_of pcp.now elements.now)) value.new }
{
    match relation {
        Relation::Power(i) => {
            let prime = answer.pcp().prime().value() as u32;
            power(s, pcp, &elements[i as usize - 1], prime, value);
        }
        Relation::Commutator(j, i) => {
            commutator(
                s,
                pcp,
                &elements[j as usize - 1],
                &elements[i as usize - 1],
                value,
            );
        }
    }
}

/// Whether the words of two elements of a consistent presentation are joined: they are exactly where the exponents are the same.
pub(crate) fn are_joined(pcp: &Pcp, left: &Elem, right: &Elem) -> bool
    requires no_tails { pcp.now.tails ≡ 0 }
    requires consistent { IsConsistent pcp.now.presentation }
    requires left { IsElement pcp.now left.now }
    requires right { IsElement pcp.now right.now }
    ensures { let Y = rowed_presentation pcp.now in
        IsTrue result ↔ Joined (flat Y) (word_of Y left.now.state) (word_of Y right.now.state) }
{
    let _presentation = pcp.rank();
    are_alike(left, right)
}
