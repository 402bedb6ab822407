//! Room for images that are carried along endomorphisms.

ghost use Rattle.std.specs.Prelude.{◌≡◌, All, length, IfOk};
ghost use Rattle.pc_presentation.specs.Tailed.{IsElement};
ghost use Rattle.p_cover.specs.Covers.{cover_presentation};
ghost use Rattle.epimorphism.specs.Rooms.{IsRoom, IsWork, AreAlike};

use p_cover::{Cover, Images};
use pc_presentation::{Elem, Pcp};
use pq_base::NoMemory;
use std::alloc::Global;
use std::marker::Model;

/// Images of the given generators with their inverses, which are written over.
#[derive(Debug, Drop)]
pub(crate) struct Room {
    pub(crate) elements: Vec<Elem>,
    pub(crate) inverses: Vec<Elem>,
}

impl Model for Room {
    ghost use Rattle.p_cover.specs.Images.{ImagesOf};

    ghost Value = { ImagesOf };

    ghost view = { λ r. record { elements = r.elements.items; inverses = r.inverses.items } };
}

/// Room for two lists of images of the given generators in a cover, with their inverses. Only `new` takes memory.
#[derive(Debug, Drop)]
pub struct Work {
    pub(crate) first: Room,
    pub(crate) second: Room,
}

impl Model for Work {
    ghost use Rattle.epimorphism.specs.Rooms.{Rooms};

    ghost Value = { Rooms };

    ghost view = { λ w. record { first = w.first; second = w.second } };
}

impl Work {
    /// Room for images in this cover.
    pub fn new(alloc: Global, cover: &Cover) -> Result<Work, NoMemory>
        ensures { IfOk result (λ w. IsWork cover.now w) }
    {
        Ok(Work {
            first: room_for(alloc, cover)?,
            second: room_for(alloc, cover)?,
        })
    }

    /// Puts images of the cover in the first place.
    pub(crate) fn begin(&mut self, images: &Images)
        requires elements { AreAlike images.now.elements self.old.first.elements }
        requires inverses { AreAlike images.now.inverses self.old.first.inverses }
        ensures first { self.new.first ≡ images.now }
        ensures second { self.new.second ≡ self.old.second }
    {
        copy_all(images.elements(), &mut self.first.elements);
        copy_all(images.inverses(), &mut self.first.inverses);
    }

    /// The images in the first place.
    pub(crate) fn elements(&self) -> &[Elem]
        ensures { result.now ≡ self.now.first.elements }
    {
        self.first.elements.as_slice()
    }

    /// Their inverses.
    pub(crate) fn inverses(&self) -> &[Elem]
        ensures { result.now ≡ self.now.first.inverses }
    {
        self.first.inverses.as_slice()
    }

    /// Exchanges the two lists of images.
    pub(crate) fn exchange(&mut self)
        ensures first { self.new.first ≡ self.old.second }
        ensures second { self.new.second ≡ self.old.first }
    {
        std::mem::swap(&mut self.first, &mut self.second);
    }
}

/// Room for the images of the given generators in a cover.
fn room_for(alloc: Global, cover: &Cover) -> Result<Room, NoMemory>
    ensures { IfOk result (λ r. IsRoom (cover_presentation cover.now) (length cover.now.answer.names) r) }
{
    let count = cover.answer().names().len();
    Ok(Room {
        elements: ones(alloc, cover.pcp(), count)?,
        inverses: ones(alloc, cover.pcp(), count)?,
    })
}

/// So many elements of zeros.
fn ones(alloc: Global, pcp: &Pcp, count: usize) -> Result<Vec<Elem>, NoMemory>
    ensures elements { IfOk result (λ v. All (IsElement pcp.now) v.items) }
    ensures count { IfOk result (λ v. length v.items ≡ count) }
{
    let mut elements = Vec::new(alloc);
    for _ in 0..count {
        elements.push(Elem::one(alloc, pcp)?)?;
    }
    Ok(elements)
}

/// Makes elements equal to others.
fn copy_all(from: &[Elem], to: &mut [Elem])
    requires { AreAlike from.now to.old }
    ensures { to.new ≡ from.now }
{
    for i in 0..from.len() {
        to[i].copy_from(&from[i]);
    }
}
