//! Numbers that are drawn one after the other, and the words of the letters that they give.

ghost use Rattle.std.specs.Prelude.{◌≡◌, ◌<◌, OnOk, IfOk, ℕ};
ghost use Rattle.samples.specs.Samples.{next_number, letter_of_number, number_after, drawn_word};

use crate::words::word_of;
use free_words::Word;
use pq_base::NoMemory;
use std::alloc::Global;
use std::marker::Model;

/// A sequence of numbers, each of which is drawn from the one before it.
#[derive(Debug, Drop)]
pub(crate) struct Draws {
    last: u32,
}

impl Model for Draws {
    ghost use Rattle.std.specs.Prelude.{ℕ, ◌<◌};

    ghost Value = { ℕ };

    ghost view = { λ d. d.last };

    ghost invariant = { λ d. d.last < 2147483648 };
}

/// How many letters a word has.
const LETTERS: u32 = 200;

impl Draws {
    /// The sequence that begins after a number.
    pub(crate) fn after(n: u32) -> Draws
        requires { n < 2147483648 }
        ensures { result ≡ n }
    {
        Draws { last: n }
    }

    /// Draws a number, and gives its letter.
    fn letter(&mut self) -> i32
        ensures number { self.new ≡ next_number self.old }
        ensures letter { result ≡ letter_of_number self.new }
    {
        self.last = ((u64::from(self.last) * 1_103_515_245 + 12_345) % (1 << 31)) as u32;
        match self.last / 65_536 % 4 {
            0 => 1,
            1 => -1,
            2 => 2,
            _ => -2,
        }
    }

    /// Draws the letters of a word.
    pub(crate) fn word(&mut self, alloc: Global) -> Result<Word, NoMemory>
        ensures word { IfOk result (λ w. w ≡ drawn_word 200 self.old) }
        ensures number { OnOk result (self.new ≡ number_after 200 self.old) }
    {
        let mut letters = Vec::new(alloc);
        for _ in 0..LETTERS {
            letters.push(self.letter())?;
        }
        word_of(alloc, &letters)
    }
}
