//! The words of the command line, as a list of texts.

ghost use Rattle.std.specs.Prelude.{◌≡◌, ◌<◌, ◌↔◌, ℕ, List, [], ◌∷◌, ◌++◌, OnOk, OnErr, IsTrue, length, slice_index_or};

use pq_base::NoMemory;
use std::alloc::Global;
use std::marker::Model;

/// The words of a command, without the program's name.
#[derive(Drop)]
pub struct Words {
    alloc: Global,
    texts: Vec<String>,
}

impl Model for Words {
    ghost use Rattle.std.specs.Prelude.{ℕ, List, map, string_bytes};

    ghost Value = { List (List ℕ) };

    ghost view = { λ w. map (λ t. string_bytes t) w.texts.items };
}

impl Words {
    /// No words. Takes no memory.
    pub fn new(alloc: Global) -> Self
        ensures { result ≡ [] }
    {
        Words {
            alloc,
            texts: Vec::new(alloc),
        }
    }

    /// Puts a word at the end. After a refusal the words are as before.
    pub fn add(&mut self, word: &str) -> Result<(), NoMemory>
        ensures ok { OnOk result (self.new ≡ self.old ++ word.now ∷ []) }
        ensures err { OnErr result (self.new ≡ self.old) }
    {
        let text = match String::from_str(self.alloc, word) {
            Ok(text) => text,
            Err(_) => return Err(NoMemory),
        };
        match self.texts.push(text) {
            Ok(()) => Ok(()),
            Err(_) => Err(NoMemory),
        }
    }

    /// How many words there are.
    pub fn len(&self) -> usize
        ensures { result ≡ length self.now }
    {
        self.texts.len()
    }

    /// Whether there is no word.
    pub fn is_empty(&self) -> bool
        ensures { IsTrue result ↔ (self.now ≡ []) }
    {
        self.texts.is_empty()
    }

    /// The word at a place, counted from 0.
    pub fn at(&self, i: usize) -> &str
        requires { i < length self.now }
        ensures { result.now ≡ slice_index_or self.now i [] }
    {
        self.texts[i].as_str()
    }
}
