//! Whether two answers are equal.

ghost use Rattle.std.specs.Prelude.{◌≡◌, ◌<◌, ◌≤◌, ◌+◌, ◌↔◌, ℕ, get_or, length, [], IsTrue};
ghost use Rattle.pq_base.specs.Answer.{definition_at};
ghost use Rattle.pc_presentation.specs.declared.relation.Relation.TheVariants.{Power, Commutator};
ghost use Rattle.pc_presentation.specs.Definition.{definition_of};
ghost use Rattle.pc_presentation.specs.Relation.{IsRelation};
ghost use Rattle.pc_presentation.specs.Pcp.{right_side};

use pc_presentation::{Answer, Definition, Pcp, Relation, Syllable};
use pq_base::Name;

/// Whether two answers are equal: their presentations, the weights and definitions of their generators, the names and the images.
pub(crate) fn answers_are_equal(left: &Answer, right: &Answer) -> bool
    ensures { IsTrue result ↔ left.now ≡ right.now }
{
    let _left = left.pcp();
    let _right = right.pcp();
    if !presentations_are_equal(left.pcp(), right.pcp()) {
        return false;
    }
    if !names_are_equal(left.names(), right.names()) {
        return false;
    }
    if !definitions_are_equal(left, right) {
        return false;
    }
    images_are_equal(left, right)
}

/// Whether two presentations without their tails are equal, and their weights.
fn presentations_are_equal(left: &Pcp, right: &Pcp) -> bool
    ensures { IsTrue result ↔ (left.now.presentation ≡ right.now.presentation) × (left.now.weights ≡ right.now.weights) }
{
    let _left = left.rank();
    let _right = right.rank();
    if left.prime().value() != right.prime().value() {
        return false;
    }
    if left.rank() != right.rank() {
        return false;
    }
    if !powers_are_equal(left, right) {
        return false;
    }
    if !commutators_are_equal(left, right) {
        return false;
    }
    weights_are_equal(left, right)
}

/// Whether the right sides of the powers are equal.
fn powers_are_equal(left: &Pcp, right: &Pcp) -> bool
    requires rank { left.now.presentation.rank ≡ right.now.presentation.rank }
    ensures { IsTrue result ↔ ((i : ℕ) → i < left.now.presentation.rank
        → right_side left.now.presentation (Power (i + 1)) ≡ right_side right.now.presentation (Power (i + 1))) }
{
    for i in 0..left.rank() {
        if !sides_are_equal(left, right, Relation::Power(i + 1)) {
            return false;
        }
    }
    true
}

/// Whether the right sides of the commutators are equal.
fn commutators_are_equal(left: &Pcp, right: &Pcp) -> bool
    requires rank { left.now.presentation.rank ≡ right.now.presentation.rank }
    ensures { IsTrue result ↔ ((j i : ℕ) → j < left.now.presentation.rank → i < j
        → right_side left.now.presentation (Commutator (j + 1) (i + 1)) ≡ right_side right.now.presentation (Commutator (j + 1) (i + 1))) }
{
    for j in 0..left.rank() {
        if !commutators_of_are_equal(left, right, j) {
            return false;
        }
    }
    true
}

/// Whether the right sides of the commutators of generator j + 1 and those before it are equal.
fn commutators_of_are_equal(left: &Pcp, right: &Pcp, j: u16) -> bool
    requires rank { left.now.presentation.rank ≡ right.now.presentation.rank }
    requires in_range { j < left.now.presentation.rank }
    ensures { IsTrue result ↔ ((i : ℕ) → i < j
        → right_side left.now.presentation (Commutator (j + 1) (i + 1)) ≡ right_side right.now.presentation (Commutator (j + 1) (i + 1))) }
{
    let _rank = left.rank();
    for i in 0..j {
        if !sides_are_equal(left, right, Relation::Commutator(j + 1, i + 1)) {
            return false;
        }
    }
    true
}

/// Whether the right sides of a relation are equal.
fn sides_are_equal(left: &Pcp, right: &Pcp, relation: Relation) -> bool
    requires rank { left.now.presentation.rank ≡ right.now.presentation.rank }
    requires relation { IsRelation left.now.presentation.rank relation }
    ensures { IsTrue result ↔ right_side left.now.presentation relation ≡ right_side right.now.presentation relation }
{
    let _left = left.rank();
    let _right = right.rank();
    words_are_equal(left.word(relation), right.word(relation))
}

/// Whether the weights are equal.
fn weights_are_equal(left: &Pcp, right: &Pcp) -> bool
    requires rank { left.now.presentation.rank ≡ right.now.presentation.rank }
    ensures { IsTrue result ↔ ((i : ℕ) → i < left.now.presentation.rank → get_or left.now.weights i 0 ≡ get_or right.now.weights i 0) }
{
    for i in 0..left.rank() {
        if left.weight(i + 1) != right.weight(i + 1) {
            return false;
        }
    }
    true
}

/// Whether the definitions are equal.
fn definitions_are_equal(left: &Answer, right: &Answer) -> bool
    requires rank { left.now.presentation.rank ≡ right.now.presentation.rank }
    ensures { IsTrue result ↔ ((k : ℕ) → k < left.now.presentation.rank → definition_at left.now k ≡ definition_at right.now k) }
{
    for k in 0..left.pcp().rank() {
        if !definition_is_equal(left.definition(k + 1), right.definition(k + 1)) {
            return false;
        }
    }
    true
}

/// Whether two definitions are equal.
fn definition_is_equal(left: Definition, right: Definition) -> bool
    ensures { IsTrue result ↔ definition_of left ≡ definition_of right }
{
    left == right
}

/// Whether the images are equal.
fn images_are_equal(left: &Answer, right: &Answer) -> bool
    requires rank { left.now.presentation.rank ≡ right.now.presentation.rank }
    requires names { length left.now.names ≡ length right.now.names }
    ensures { IsTrue result ↔ ((i : ℕ) → i < length left.now.names → get_or left.now.images i [] ≡ get_or right.now.images i []) }
{
    let _left = left.pcp();
    for i in 0..left.names().len() as u16 {
        if !image_is_equal(left, right, i) {
            return false;
        }
    }
    true
}

/// Whether the images of given generator i + 1, counted from 1, are equal.
fn image_is_equal(left: &Answer, right: &Answer, i: u16) -> bool
    requires rank { left.now.presentation.rank ≡ right.now.presentation.rank }
    requires names { length left.now.names ≡ length right.now.names }
    requires in_range { i < length left.now.names }
    ensures { IsTrue result ↔ get_or left.now.images i [] ≡ get_or right.now.images i [] }
{
    let _left = left.pcp();
    let _right = right.pcp();
    words_are_equal(left.image(i + 1), right.image(i + 1))
}

/// Whether two sparse words are equal.
fn words_are_equal(left: &[Syllable], right: &[Syllable]) -> bool
    ensures { IsTrue result ↔ left.now ≡ right.now }
{
    left == right
}

/// Whether two lists of names are equal.
fn names_are_equal(left: &[Name], right: &[Name]) -> bool
    ensures { IsTrue result ↔ left.now ≡ right.now }
{
    left == right
}
