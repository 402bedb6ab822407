//! A source and a sink over memory, which handle their bytes in small steps and fail at chosen calls.

ghost use Rattle.std.specs.Prelude.{◌≡◌, ◌<◌, ◌↔◌, ◌⊎◌, ◌-◌, ◌^◌, ◌≤◌, [], ◌++◌, length, take, drop, min, Some, IsTrue, IsErr, IfOk, OnErr};
ghost use Rattle.std.specs.Prelude.{Contains};
ghost use Rattle.pq_io.specs.Faults.{one_more};
ghost use Rattle.pq_io.specs.Memory.{SourceInMemory, SinkInMemory, after_read, after_failed_read, after_write, after_failed_write};

use crate::{Failed, Sink, Source};
use pq_base::NoMemory;
use std::alloc::Global;
use std::marker::Model;

/// A text that is given in small steps. Each call of `read` has a number, the first 1, and fails where its number is
/// one of those chosen; every other call gives as many bytes as the step, the buffer and what is left allow.
#[derive(Drop)]
pub struct MemorySource {
    bytes: Vec<u8>,
    at: usize,
    step: usize,
    fails: Vec<u32>,
    calls: u64,
    faults: u64,
}

impl Model for MemorySource {
    ghost use Rattle.std.specs.Prelude.{length, drop, ◌≤◌, ◌<◌};
    ghost use Rattle.pq_io.specs.Memory.{SourceInMemory};

    ghost Value = { SourceInMemory };

    ghost view = { λ s. record {
      left = drop s.at s.bytes.items;
      step = s.step;
      fails = s.fails.items;
      calls = s.calls;
      faults = s.faults;
    } };

    ghost invariant = { λ s. (s.at ≤ length s.bytes.items) × (0 < s.step) × (s.faults ≤ s.calls) };
}

impl MemorySource {
    /// A source of these bytes, at most `step` in a call. The calls whose numbers are in `fails` fail.
    pub fn new(
        alloc: Global,
        bytes: &[u8],
        step: usize,
        fails: &[u32],
    ) -> Result<MemorySource, NoMemory>
        requires { 0 < step }
        ensures { IfOk result (λ source. source ≡ record {
          left = bytes.now;
          step = step;
          fails = fails.now;
          calls = 0;
          faults = 0;
        }) }
    {
        Ok(MemorySource {
            bytes: bytes.to_vec(alloc)?,
            at: 0,
            step,
            fails: fails.to_vec(alloc)?,
            calls: 0,
            faults: 0,
        })
    }
}

impl Source for MemorySource {
    ghost left = { λ s. Some s.left };

    ghost faults = { λ s. s.faults };

    fn read(&mut self, buf: &mut [u8]) -> Result<usize, Failed>
        ensures fails { IsErr result ↔ Contains self.old.fails (one_more self.old.calls) }
        ensures after_err { OnErr result (self.new ≡ after_failed_read self.old) }
        ensures buffer_err { OnErr result (buf.new ≡ buf.old) }

        ensures given { IfOk result (λ n. n ≡ min (min self.old.step (length buf.old)) (length self.old.left)) }
        ensures after { IfOk result (λ n. self.new ≡ after_read self.old n) }
        ensures buffer { IfOk result (λ n. buf.new ≡ take n self.old.left ++ drop n buf.old) }

        ensures end { IfOk result (λ n. n ≡ 0 → 0 < length buf.new → self.old.left ≡ []) }
    {
        self.calls = self.calls.saturating_add(1);
        if is_among(&self.fails, self.calls) {
            self.faults += 1;
            return Err(Failed);
        }
        let n = self.step.min(buf.len()).min(self.bytes.len() - self.at);
        buf[..n].copy_from_slice(&self.bytes[self.at..self.at + n]);
        self.at += n;
        Ok(n)
    }
}

/// A place for some bytes, which takes them in small steps. Each call of `write` has a number, the first 1, and fails
/// where its number is one of those chosen, and where there is something to take and no room. Every other call takes
/// as many bytes as the step, the piece and the room allow.
#[derive(Drop)]
pub struct MemorySink {
    bytes: Vec<u8>,
    room: usize,
    step: usize,
    fails: Vec<u32>,
    calls: u64,
    faults: u64,
}

impl Model for MemorySink {
    ghost use Rattle.std.specs.Prelude.{length, vec_capacity, ◌≤◌, ◌<◌};
    ghost use Rattle.pq_io.specs.Memory.{SinkInMemory};

    ghost Value = { SinkInMemory };

    ghost view = { λ s. record {
      taken = s.bytes.items;
      room = s.room;
      step = s.step;
      fails = s.fails.items;
      calls = s.calls;
      faults = s.faults;
    } };

    ghost invariant = { λ s. (length s.bytes.items ≤ s.room) × (s.room ≤ vec_capacity s.bytes) × (0 < s.step) };
}

impl MemorySink {
    /// A sink with room for so many bytes, for which it takes the memory now. It takes at most `step` in a call. The
    /// calls whose numbers are in `fails` fail.
    pub fn new(
        alloc: Global,
        room: usize,
        step: usize,
        fails: &[u32],
    ) -> Result<MemorySink, NoMemory>
        requires { 0 < step }
        ensures { IfOk result (λ sink. sink ≡ record {
          taken = [];
          room = room;
          step = step;
          fails = fails.now;
          calls = 0;
          faults = 0;
        }) }
    {
        Ok(MemorySink {
            bytes: Vec::with_capacity(alloc, room)?,
            room,
            step,
            fails: fails.to_vec(alloc)?,
            calls: 0,
            faults: 0,
        })
    }

    /// The bytes that it has taken.
    pub fn taken(&self) -> &[u8]
        ensures { result.now ≡ self.now.taken }
    {
        &self.bytes
    }
}

impl Sink for MemorySink {
    ghost taken = { λ s. Some s.taken };

    ghost faults = { λ s. s.faults };

    fn write(&mut self, piece: &[u8]) -> Result<usize, Failed>
        ensures fails { IsErr result ↔ (Contains self.old.fails (one_more self.old.calls)
            ⊎ ((0 < length piece.now) × (self.old.room ≡ length self.old.taken))) }
        ensures after_err { OnErr result (self.new ≡ after_failed_write self.old) }

        ensures given { IfOk result (λ n. n ≡ min (min self.old.step (length piece.now))
            (self.old.room - length self.old.taken)) }
        ensures after { IfOk result (λ n. self.new ≡ after_write self.old (take n piece.now)) }

        ensures progress { IfOk result (λ n. 0 < length piece.now → 0 < n) }
        ensures count { self.old.faults ≤ self.new.faults }
    {
        self.calls = self.calls.saturating_add(1);
        let spare = self.room - self.bytes.len();
        if is_among(&self.fails, self.calls) || (!piece.is_empty() && spare == 0) {
            self.faults = self.faults.saturating_add(1);
            return Err(Failed);
        }
        let n = self.step.min(piece.len()).min(spare);
        self.bytes.extend_from_slice(&piece[..n]).unwrap();
        Ok(n)
    }
}

// Whether a call is one of those that fail.
fn is_among(fails: &[u32], number: u64) -> bool
    ensures among { IsTrue result ↔ Contains fails.now number }
    ensures small { IsTrue result → number < 2 ^ 32 }
{
    u32::try_from(number).is_ok_and(|number| fails.contains(&number))
}
