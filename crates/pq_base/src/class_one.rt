//! What is proved of answers of class 1, and of the definitions of every answer. The functions do nothing: each states a
//! law as its clause.
ghost use Rattle.pq_base.specs.Elementary.{ElementaryIsConsistentOfClassOne};
ghost use Rattle.pq_base.specs.ClassOne.{AnswersAreGenerated};

/// The presentation of the elementary abelian group of rank n, for any number p from 1 on as its prime, is consistent and
/// of class 1.
pub fn elementary_is_consistent_of_class_one()
    ensures { ElementaryIsConsistentOfClassOne }
{}

/// In every answer each generator is the word that its definition spells, under the images.
#[tactic(auto, using(crate::proofs::Generated::generated))]
pub fn answers_are_generated()
    ensures { AnswersAreGenerated }
{}
