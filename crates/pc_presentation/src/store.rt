//! The words and the tails of all relations. The words lie in one list, one after the other, and are lent as slices.

ghost use Rattle.std.specs.Prelude.{◌≡◌, ◌<◌, List, get_or, length, replicate, slice_set, IfOk, OnOk, OnErr};
ghost use Rattle.pc_presentation.specs.Store.{Entry, blank};

use crate::syllable::Syllable;
use pq_base::NoMemory;
use std::alloc::Global;
use std::marker::Model;

/// Where the word of a relation lies, and which tail follows it.
#[derive(Clone, Copy, Debug)]
struct Place {
    start: usize,
    end: usize,
    tail: Option<u16>,
}

/// Words and tails of relations, by the numbers of the relations. Contracts see the list of these entries.
#[derive(Debug, Drop)]
pub(crate) struct Store {
    syllables: Vec<Syllable>,
    places: Vec<Place>,
}

impl Model for Store {
    ghost use Rattle.std.specs.Prelude.{List, length};
    ghost use Rattle.pc_presentation.specs.Store.{Entry, entries_of, AreWithin};

    ghost Value = { List Entry };

    ghost view = { λ s. entries_of s.syllables.items s.places.items };

    ghost invariant = { λ s. AreWithin (length s.syllables.items) s.places.items };
}

impl Store {
    /// So many empty words without tails.
    pub(crate) fn new(alloc: Global, count: usize) -> Result<Store, NoMemory>
        ensures { IfOk result (λ s. s ≡ replicate count blank) }
    {
        let nowhere = Place {
            start: 0,
            end: 0,
            tail: None,
        };
        Ok(Store {
            syllables: Vec::new(alloc),
            places: vec![in alloc; nowhere; count]?,
        })
    }

    /// The word of this number.
    pub(crate) fn word(&self, number: usize) -> &[Syllable]
        requires { number < length self.now }
        ensures { result.now ≡ (get_or self.now number blank).word }
    {
        let place = self.places[number];
        &self.syllables[place.start..place.end]
    }

    /// The tail of this number.
    pub(crate) fn tail(&self, number: usize) -> Option<u16>
        requires { number < length self.now }
        ensures { result ≡ (get_or self.now number blank).tail }
    {
        self.places[number].tail
    }

    /// Puts a word and a tail in place of those of this number.
    pub(crate) fn put(
        &mut self,
        number: usize,
        word: &[Syllable],
        tail: Option<u16>,
    ) -> Result<(), NoMemory>
        requires { number < length self.old }
        ensures ok { OnOk result (self.new ≡ slice_set self.old number (record { word = word.now; tail = tail })) }
        ensures err { OnErr result (self.new ≡ self.old) }
    {
        let start = self.syllables.len();
        self.syllables.extend_from_slice(word)?;
        self.places[number] = Place {
            start,
            end: self.syllables.len(),
            tail,
        };
        Ok(())
    }

    /// An equal store.
    pub(crate) fn duplicate(&self) -> Result<Store, NoMemory>
        ensures { IfOk result (λ s. s ≡ self.now) }
    {
        let alloc = *self.places.allocator();
        Ok(Store {
            syllables: Vec::from_slice(alloc, self.syllables.as_slice())?,
            places: Vec::from_slice(alloc, self.places.as_slice())?,
        })
    }
}
