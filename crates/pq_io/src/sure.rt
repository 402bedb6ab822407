//! A source and a sink over memory that never fail.

ghost use Rattle.std.specs.Prelude.{◌≡◌, [], ◌++◌, length, take, drop, min, false, Ok, None, Some, IfOk};
ghost use Rattle.pq_io.specs.Sure.{SinkThatKeeps, after_gift, told};

use crate::{Failed, Sink, Source};
use pq_base::NoMemory;
use std::alloc::Global;
use std::marker::Model;

/// The bytes that are left of a text. Contracts see it as that list.
#[derive(Drop)]
pub struct SureSource {
    bytes: Vec<u8>,
    at: usize,
}

impl Model for SureSource {
    ghost use Rattle.std.specs.Prelude.{ℕ, List, length, drop, ◌≤◌};

    ghost Value = { List ℕ };

    ghost view = { λ s. drop s.at s.bytes.items };

    ghost invariant = { λ s. s.at ≤ length s.bytes.items };
}

impl SureSource {
    /// A source of these bytes.
    pub fn new(alloc: Global, bytes: &[u8]) -> Result<SureSource, NoMemory>
        ensures { IfOk result (λ source. source ≡ bytes.now) }
    {
        let bytes = bytes.to_vec(alloc)?;
        Ok(SureSource { bytes, at: 0 })
    }
}

impl Source for SureSource {
    ghost left = { λ s. Some s };

    ghost faults = { λ _. 0 };

    fn read(&mut self, buf: &mut [u8]) -> Result<usize, Failed>
        ensures result { result ≡ Ok (min (length buf.old) (length self.old)) }
        ensures buffer { IfOk result (λ n. buf.new ≡ take n self.old ++ drop n buf.old) }
        ensures left { IfOk result (λ n. self.new ≡ drop n self.old) }
    {
        let n = buf.len().min(self.bytes.len() - self.at);
        buf[..n].copy_from_slice(&self.bytes[self.at..self.at + n]);
        self.at += n;
        Ok(n)
    }
}

/// Takes whatever it is given. It keeps what has room, lets the rest go, and tells what it took as long as it kept all.
#[derive(Drop)]
pub struct SureSink {
    bytes: Vec<u8>,
    room: usize,
    over: bool,
}

impl Model for SureSink {
    ghost use Rattle.std.specs.Prelude.{ℕ, length, vec_capacity, ◌≤◌};
    ghost use Rattle.pq_io.specs.Sure.{SinkThatKeeps};

    ghost Value = { SinkThatKeeps };

    ghost view = { λ s. record { kept = s.bytes.items; room = s.room; over = s.over } };

    ghost invariant = { λ s. (length s.bytes.items ≤ s.room) × (s.room ≤ vec_capacity s.bytes) };
}

impl SureSink {
    /// A sink that keeps this many bytes, for which it takes the memory now.
    pub fn new(alloc: Global, room: usize) -> Result<SureSink, NoMemory>
        ensures { IfOk result (λ sink. sink ≡ record { kept = []; room = room; over = false }) }
    {
        let bytes = Vec::with_capacity(alloc, room)?;
        Ok(SureSink {
            bytes,
            room,
            over: false,
        })
    }

    /// The first bytes that it was given, as many as have room.
    pub fn taken(&self) -> &[u8]
        ensures { result.now ≡ self.now.kept }
    {
        &self.bytes
    }
}

impl Sink for SureSink {
    ghost taken = { λ s. told s.over s.kept };

    ghost faults = { λ _. 0 };

    #[tactic(auto, using(crate::proofs::Keeping::keeping))]
    fn write(&mut self, piece: &[u8]) -> Result<usize, Failed>
        ensures result { result ≡ Ok (length piece.now) }
        ensures after { self.new ≡ after_gift self.old piece.now }
    {
        let spare = self.room - self.bytes.len();
        let kept = &piece[..piece.len().min(spare)];
        self.bytes.extend_from_slice(kept).unwrap();
        self.over |= spare < piece.len();
        Ok(piece.len())
    }
}
