//! Pushes by the plain rule, on an element in place. What commutes stays in place, and copies are pushed together, where
//! that gives exactly what the plain rule gives.

ghost use Rattle.std.specs.Prelude.{◌≡◌, ◌≤◌, ◌<◌, ◌-◌, ◌+◌, ℕ, get_or, replicate};
ghost use Rattle.pc_presentation.specs.Relation.{IsRelation};
ghost use Rattle.pc_presentation.specs.Collection.{push_word, push_configuration, plain_push};
ghost use Rattle.pc_presentation.specs.PushSteps.{with_exponent, raised, passed};
ghost use Rattle.pc_presentation.specs.Tailed.{rowed_presentation, IsElement, with_state, side_with_tail};

use crate::zeros::are_zero;
use pc_presentation::{Elem, Pcp, Relation, add_tail, add_tail_times, commutes_with_later};

/// Pushes a generator, counted from 1. The letters from which on all commute stay in place.
#[cycle(plain)]
pub(crate) fn push(pcp: &Pcp, at: &mut Elem, generator: u16)
    requires element { IsElement pcp.now at.old }
    requires from_one { 1 ≤ generator }
    requires in_range { generator ≤ pcp.now.presentation.rank }
    ensures element { IsElement pcp.now at.new }
    ensures pushed { at.new ≡ with_state at.old (plain_push (rowed_presentation pcp.now) at.old.state (generator - 1)) }
{
    let commuting = pcp.commuting_from(generator);
    let later = at.exponents_between(generator, commuting);
    at.clear_between(generator, commuting);
    raise(pcp, at, generator);
    for j in generator..commuting - 1 {
        pass(pcp, at, j + 1, generator, later[j as usize]);
    }
}

/// Raises the exponent of a generator by 1. Where it becomes the prime, the right side of the power takes its place.
#[cycle(plain)]
fn raise(pcp: &Pcp, at: &mut Elem, generator: u16)
    requires element { IsElement pcp.now at.old }
    requires from_one { 1 ≤ generator }
    requires in_range { generator ≤ pcp.now.presentation.rank }
    ensures element { IsElement pcp.now at.new }
    ensures raised { at.new ≡ with_state at.old (raised (rowed_presentation pcp.now) at.old.state (generator - 1)) }
{
    let exponent = at.exponent(generator) + 1;
    if exponent == pcp.prime().value() {
        carry(pcp, at, generator);
    } else {
        at.set_exponent(generator, exponent);
    }
}

/// Replaces the power of a generator by its right side.
#[cycle(plain)]
fn carry(pcp: &Pcp, at: &mut Elem, generator: u16)
    requires element { IsElement pcp.now at.old }
    requires from_one { 1 ≤ generator }
    requires in_range { generator ≤ pcp.now.presentation.rank }
    ensures element { IsElement pcp.now at.new }
    ensures carried { let Y = rowed_presentation pcp.now in
        at.new ≡ with_state at.old (push_configuration Y (plain_push Y)
        (with_exponent at.old.state (generator - 1) 0) (side_with_tail pcp.now (Relation.Power generator))) }
{
    at.set_exponent(generator, 0);
    push_side(pcp, at, Relation::Power(generator));
}

/// Pushes generator j so many times, each time with the right side of its commutator with generator i behind it.
#[cycle(plain)]
fn pass(pcp: &Pcp, at: &mut Elem, j: u16, i: u16, times: u8)
    requires element { IsElement pcp.now at.old }
    requires relation { IsRelation pcp.now.presentation.rank (Relation.Commutator j i) }
    ensures element { IsElement pcp.now at.new }
    ensures passed { let Y = rowed_presentation pcp.now in
        at.new ≡ with_state at.old (push_word (passed Y (i - 1)) at.old.state (replicate times (j - 1))) }
{
    if times == 0 {
        return;
    }
    let relation = Relation::Commutator(j, i);
    if pcp.word(relation).is_empty() {
        push_times(pcp, at, j, times);
        add_tail_times(pcp, at, pcp.tail(relation), times);
    } else {
        pass_each(pcp, at, j, i, times);
    }
}

/// Pushes generator j so many times, one copy after the other, each with the right side of the commutator behind it.
#[cycle(plain)]
fn pass_each(pcp: &Pcp, at: &mut Elem, j: u16, i: u16, times: u8)
    requires element { IsElement pcp.now at.old }
    requires relation { IsRelation pcp.now.presentation.rank (Relation.Commutator j i) }
    ensures element { IsElement pcp.now at.new }
    ensures passed { let Y = rowed_presentation pcp.now in
        at.new ≡ with_state at.old (push_word (passed Y (i - 1)) at.old.state (replicate times (j - 1))) }
{
    for _ in 0..times {
        push(pcp, at, j);
        push_side(pcp, at, Relation::Commutator(j, i));
    }
}

/// Pushes the right side of a relation, and adds its tail.
#[cycle(plain)]
fn push_side(pcp: &Pcp, at: &mut Elem, relation: Relation)
    requires element { IsElement pcp.now at.old }
    requires relation { IsRelation pcp.now.presentation.rank relation }
    ensures element { IsElement pcp.now at.new }
    ensures pushed { let Y = rowed_presentation pcp.now in
        at.new ≡ with_state at.old (push_configuration Y (plain_push Y) at.old.state (side_with_tail pcp.now relation)) }
{
    for s in pcp.word(relation) {
        push_times(pcp, at, s.generator, s.exponent);
    }
    add_tail(pcp, at, pcp.tail(relation));
}

/// Pushes a generator, counted from 1, so many times. Where that takes its exponent past the prime, but not twice, the power
/// goes first.
#[cycle(plain)]
pub(crate) fn push_times(pcp: &Pcp, at: &mut Elem, generator: u16, times: u8)
    requires element { IsElement pcp.now at.old }
    requires from_one { 1 ≤ generator }
    requires in_range { generator ≤ pcp.now.presentation.rank }
    ensures element { IsElement pcp.now at.new }
    ensures pushed { let Y = rowed_presentation pcp.now in
        at.new ≡ with_state at.old (push_word (plain_push Y) at.old.state (replicate times (generator - 1))) }
{
    let prime = pcp.prime().value();
    let missing = prime - at.exponent(generator);
    if missing <= times && times - missing < prime {
        push_past_prime(pcp, at, generator, times, times - missing);
    } else {
        push_copies(pcp, at, generator, times);
    }
}

/// Pushes copies of a generator that take its exponent past the prime. The rest is what is above the prime. Where the right
/// side of the power is empty, the rest stays; else it is pushed behind the right side.
#[cycle(plain)]
fn push_past_prime(pcp: &Pcp, at: &mut Elem, generator: u16, times: u8, rest: u8)
    requires element { IsElement pcp.now at.old }
    requires from_one { 1 ≤ generator }
    requires in_range { generator ≤ pcp.now.presentation.rank }
    requires total { get_or at.old.state.exponents (generator - 1) 0 + times ≡ pcp.now.presentation.prime + rest }
    requires rest { rest < pcp.now.presentation.prime }
    ensures element { IsElement pcp.now at.new }
    ensures pushed { let Y = rowed_presentation pcp.now in
        at.new ≡ with_state at.old (push_word (plain_push Y) at.old.state (replicate times (generator - 1))) }
{
    if pcp.word(Relation::Power(generator)).is_empty() && commutes_with_later(pcp, at, generator) {
        at.set_exponent(generator, rest);
        add_tail(pcp, at, pcp.tail(Relation::Power(generator)));
    } else if are_zero(at.exponents(), generator, pcp.commuting_from(generator) - 1) {
        carry(pcp, at, generator);
        push_copies(pcp, at, generator, rest);
    } else {
        push_each(pcp, at, generator, times);
    }
}

/// Pushes copies of a generator: they are added to its exponent where it commutes with the later letters and stays below the
/// prime.
#[cycle(plain)]
fn push_copies(pcp: &Pcp, at: &mut Elem, generator: u16, times: u8)
    requires element { IsElement pcp.now at.old }
    requires from_one { 1 ≤ generator }
    requires in_range { generator ≤ pcp.now.presentation.rank }
    ensures element { IsElement pcp.now at.new }
    ensures pushed { let Y = rowed_presentation pcp.now in
        at.new ≡ with_state at.old (push_word (plain_push Y) at.old.state (replicate times (generator - 1))) }
{
    let exponent = at.exponent(generator);
    if times < pcp.prime().value() - exponent && commutes_with_later(pcp, at, generator) {
        at.set_exponent(generator, exponent + times);
    } else {
        push_each(pcp, at, generator, times);
    }
}

/// Pushes copies of a generator, one after the other.
#[cycle(plain)]
fn push_each(pcp: &Pcp, at: &mut Elem, generator: u16, times: u8)
    requires element { IsElement pcp.now at.old }
    requires from_one { 1 ≤ generator }
    requires in_range { generator ≤ pcp.now.presentation.rank }
    ensures element { IsElement pcp.now at.new }
    ensures pushed { let Y = rowed_presentation pcp.now in
        at.new ≡ with_state at.old (push_word (plain_push Y) at.old.state (replicate times (generator - 1))) }
{
    for _ in 0..times {
        push(pcp, at, generator);
    }
}
