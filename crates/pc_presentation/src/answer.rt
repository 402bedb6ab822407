//! Answers as values.

ghost use Rattle.std.specs.Prelude.{◌≡◌, ◌≤◌, ◌-◌, get_or, length, IfSome, IfNone, OnSome, IfOk, []};
ghost use Rattle.pq_base.specs.Limits.{max_names};
ghost use Rattle.pq_base.specs.Prime.{prime_value};
ghost use Rattle.pq_base.specs.LPresentation.{AreDistinct};
ghost use Rattle.pq_base.specs.Answer.{IsAnswer, class_of, definition_at};
ghost use Rattle.pq_base.specs.Largest.{IsGenerated};
ghost use Rattle.pc_presentation.specs.Syllable.{syllables_of};
ghost use Rattle.pc_presentation.specs.Definition.{definition_of};
ghost use Rattle.pc_presentation.specs.Parts.{words_of, answer_of, AreParts, trivial_answer};

use crate::builder::PcpBuilder;
use crate::copies::{empty_words, words_copied};
use crate::definition::Definition;
use crate::parts::are_parts;
use crate::pcp::Pcp;
use crate::syllable::Syllable;
use pq_base::{Name, NoMemory, Prime, names_copied};
use std::alloc::Global;
use std::marker::Model;

/// A presentation without tails, with the definitions of its generators and the images of given generators. It keeps the
/// conditions of an answer.
#[derive(Debug, Drop)]
pub struct Answer {
    pcp: Pcp,
    names: Vec<Name>,
    definitions: Vec<Definition>,
    images: Vec<Vec<Syllable>>,
}

impl Model for Answer {
    ghost use Rattle.pq_base.specs.Answer.{Answer as AnswerRecord};
    ghost use Rattle.pc_presentation.specs.Parts.{words_of, answer_of, AreParts};

    ghost Value = { AnswerRecord };

    ghost view = { λ a. answer_of a.pcp a.names.items a.definitions.items (words_of a.images.items) };

    ghost invariant = { λ a. AreParts a.pcp a.names.items a.definitions.items (words_of a.images.items) };
}

impl Answer {
    /// The answer of these parts, or `None` where they break a condition of an answer. Takes no memory.
    pub fn of(
        pcp: Pcp,
        names: Vec<Name>,
        definitions: Vec<Definition>,
        images: Vec<Vec<Syllable>>,
    ) -> Option<Answer>
        ensures some { IfSome result (λ a. a ≡ answer_of pcp names.items definitions.items (words_of images.items)) }
        ensures conditions { OnSome result (AreParts pcp names.items definitions.items (words_of images.items)) }
        ensures none { IfNone result (¬ AreParts pcp names.items definitions.items (words_of images.items)) }
    {
        if !are_parts(&pcp, &names, &definitions, &images) {
            return None;
        }
        Some(Answer {
            pcp,
            names,
            definitions,
            images,
        })
    }

    /// The answer without generators, of class 0, where each given generator has the empty word as its image.
    pub fn trivial(alloc: Global, prime: Prime, names: &[Name]) -> Result<Answer, NoMemory>
        requires some { 1 ≤ length names.now }
        requires limit { length names.now ≤ max_names }
        requires distinct { AreDistinct names.now }
        ensures { IfOk result (λ a. a ≡ trivial_answer (prime_value prime) names.now) }
    {
        Ok(Answer {
            pcp: PcpBuilder::new(alloc, prime, &[], 0)?.finish(),
            names: names_copied(alloc, names)?,
            definitions: Vec::new(alloc),
            images: empty_words(alloc, names.len())?,
        })
    }

    /// The presentation. It has no tails.
    pub fn pcp(&self) -> &Pcp
        ensures presentation { result.now.presentation ≡ self.now.presentation }
        ensures weights { result.now.weights ≡ self.now.weights }
        ensures no_tails { result.now.tails ≡ 0 }
        ensures answer { IsAnswer self.now }
        ensures generated { IsGenerated self.now }
    {
        &self.pcp
    }

    /// The names of the given generators.
    pub fn names(&self) -> &[Name]
        ensures { result.now ≡ self.now.names }
    {
        self.names.as_slice()
    }

    /// The definition of generator k, counted from 1.
    pub fn definition(&self, k: u16) -> Definition
        requires from_one { 1 ≤ k }
        requires in_range { k ≤ self.now.presentation.rank }
        ensures { definition_of result ≡ definition_at self.now (k - 1) }
    {
        self.definitions[k as usize - 1]
    }

    /// The image of given generator i, counted from 1, as the syllables of the exponents that aren't 0.
    pub fn image(&self, i: u16) -> &[Syllable]
        requires from_one { 1 ≤ i }
        requires in_range { i ≤ length self.now.names }
        ensures { result.now ≡ syllables_of 0 (get_or self.now.images (i - 1) []) }
    {
        self.images[i as usize - 1].as_slice()
    }

    /// The class: the last weight, or 0 where there are no generators.
    pub fn class(&self) -> u8
        ensures { result ≡ class_of self.now }
    {
        match self.pcp.weights().last() {
            Some(weight) => *weight,
            None => 0,
        }
    }

    /// An equal answer.
    pub fn duplicate(&self) -> Result<Answer, NoMemory>
        ensures { IfOk result (λ a. a ≡ self.now) }
    {
        let alloc = *self.names.allocator();
        Ok(Answer {
            pcp: self.pcp.duplicate()?,
            names: names_copied(alloc, self.names.as_slice())?,
            definitions: Vec::from_slice(alloc, self.definitions.as_slice())?,
            images: words_copied(alloc, self.images.as_slice())?,
        })
    }
}
