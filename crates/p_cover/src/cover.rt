//! Covers as values.

ghost use Rattle.std.specs.Prelude.{◌≡◌, ◌≤◌, ◌-◌, ◌↔◌, get_or, length, map, IfOk, IsTrue};
ghost use Rattle.pq_base.specs.Answer.Definition.{image};
ghost use Rattle.pc_presentation.specs.Relation.{IsRelation};
ghost use Rattle.pc_presentation.specs.Definition.{definition_of};
ghost use Rattle.p_cover.specs.Sources.{relation_source, place_in, IsPartOf};
ghost use Rattle.p_cover.specs.Covers.{CoverOf, IsCover, all_sources, cover_presentation};

use crate::given::presentation_with_tails;
use crate::image_tails::image_tails;
use crate::want::want_order;
use pc_presentation::{Answer, Definition, Pcp, Relation};
use pq_base::NoMemory;
use std::alloc::Global;
use std::marker::Model;

/// The presentation of an answer with tails, beside the answer. The tails are those of some relations and images that define
/// no generator, numbered in the want order.
#[derive(Drop)]
pub struct Cover {
    answer: Answer,
    pcp: Pcp,
    sources: Vec<Definition>,
    /// for each given generator the tail of its image
    image_tails: Vec<Option<u16>>,
}

impl Model for Cover {
    ghost use Rattle.std.specs.Prelude.{◌≡◌, map};
    ghost use Rattle.pc_presentation.specs.Definition.{definition_of};
    ghost use Rattle.p_cover.specs.Covers.{CoverOf, IsCover, cover_presentation};
    ghost use Rattle.p_cover.specs.ImageTails.{tails_of_images};

    ghost Value = { CoverOf };

    ghost view = { λ c. record { answer = c.answer; sources = map definition_of c.sources.items } };

    ghost invariant = { λ c. (c.pcp ≡ cover_presentation (record { answer = c.answer; sources = map definition_of c.sources.items }))
        × (c.image_tails.items ≡ tails_of_images c.answer (map definition_of c.sources.items))
        × IsCover (record { answer = c.answer; sources = map definition_of c.sources.items }) };
}

impl Cover {
    /// The presentation with tails.
    pub fn pcp(&self) -> &Pcp
        ensures presentation { result.now ≡ cover_presentation self.now }
        ensures cover { IsCover self.now }
    {
        &self.pcp
    }

    /// The answer that it covers.
    pub fn answer(&self) -> &Answer
        ensures { result.now ≡ self.now.answer }
    {
        &self.answer
    }

    /// How many tails there are.
    pub fn tails(&self) -> u16
        ensures { result ≡ length self.now.sources }
    {
        self.pcp.tails()
    }

    /// What a tail, counted from 1, comes from.
    pub fn source_of(&self, tail: u16) -> Definition
        requires from_one { 1 ≤ tail }
        requires in_range { tail ≤ length self.now.sources }
        ensures { definition_of result ≡ get_or self.now.sources (tail - 1) (image 0) }
    {
        self.sources[tail as usize - 1]
    }

    /// The tail of a relation or an image, counted from 1, if it carries one. Numbers out of range have none.
    pub fn tail_of(&self, t: Definition) -> Option<u16>
        ensures { result ≡ place_in self.now.sources (definition_of t) }
    {
        match t {
            Definition::Commutator(j, i) => self.relation_tail(Relation::Commutator(j, i)),
            Definition::Power(j) => self.relation_tail(Relation::Power(j)),
            Definition::Image(i) => self.image_tail(i),
        }
    }

    fn relation_tail(&self, r: Relation) -> Option<u16>
        ensures { result ≡ place_in self.now.sources (relation_source r) }
    {
        if is_relation(r, self.pcp.rank()) {
            self.pcp.tail(r)
        } else {
            None
        }
    }

    fn image_tail(&self, i: u16) -> Option<u16>
        ensures { result ≡ place_in self.now.sources (image i) }
    {
        if 1 <= i && i as usize <= self.image_tails.len() {
            self.image_tails[i as usize - 1]
        } else {
            None
        }
    }
}

/// Whether this is a relation of `rank` generators.
fn is_relation(r: Relation, rank: u16) -> bool
    ensures { IsTrue result ↔ IsRelation rank r }
{
    match r {
        Relation::Power(i) => 1 <= i && i <= rank,
        Relation::Commutator(j, i) => 1 <= i && i < j && j <= rank,
    }
}

/// The cover in which exactly the given relations and images carry tails, numbered in their order. They are entries of the
/// want order, in that order and each once.
pub fn cover_of(alloc: Global, answer: &Answer, sources: &[Definition]) -> Result<Cover, NoMemory>
    requires { IsPartOf (map definition_of sources.now) (all_sources answer.now) }
    ensures { IfOk result (λ c. c ≡ record { answer = answer.now; sources = map definition_of sources.now }) }
{
    cover_with(alloc, answer, Vec::from_slice(alloc, sources)?)
}

/// The cover in which every relation and image that defines no generator carries a tail.
pub fn full_cover(alloc: Global, answer: &Answer) -> Result<Cover, NoMemory>
    ensures { IfOk result (λ c. c ≡ record { answer = answer.now; sources = all_sources answer.now }) }
{
    cover_with(alloc, answer, want_order(alloc, answer)?)
}

/// The cover in which these carry tails.
fn cover_with(alloc: Global, answer: &Answer, sources: Vec<Definition>) -> Result<Cover, NoMemory>
    requires { IsPartOf (map definition_of sources.items) (all_sources answer.now) }
    ensures { IfOk result (λ c. c ≡ record { answer = answer.now; sources = map definition_of sources.items }) }
{
    let _rank = answer.pcp().rank();
    let pcp = presentation_with_tails(alloc, answer, &sources)?;
    let image_tails = image_tails(alloc, answer, &sources)?;
    Ok(Cover {
        answer: answer.duplicate()?,
        pcp,
        sources,
        image_tails,
    })
}
