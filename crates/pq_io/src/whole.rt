//! Reading to the end under a limit, and writing the whole.

ghost use Rattle.std.specs.Prelude.{◌≡◌, ◌⊎◌, ◌+◌, ◌<◌, ◌≤◌, ℕ, Some, [], length, drop, vec_len, IfOk, OnOk, OnErr, IfSome, IsErrOf};
ghost use Rattle.std.specs.Prelude.{IsNone};
ghost use Rattle.pq_io.specs.Faults.{Rose};
ghost use Rattle.pq_io.specs.Writing.{Gains, GainsProperPrefix};

use crate::{Failed, Sink, Source};
use std::alloc::{AllocError, Global};
use thiserror::Error;

/// Why an input was not read to its end.
#[derive(Clone, Copy, Debug, PartialEq, Eq, Error)]
pub enum InputRefusal {
    /// A read failed.
    #[error("a read failed")]
    Failed,
    /// There are more bytes than the limit.
    #[error("too many bytes")]
    TooLong,
    /// Nothing could be allocated.
    #[error("no memory")]
    NoMemory,
}

impl From<Failed> for InputRefusal {
    ghost use Rattle.pq_io.specs.declared.whole.InputRefusal.{InputRefusal};

    ghost from_gives = { λ _ e. e ≡ InputRefusal.Failed };

    fn from(_: Failed) -> Self {
        InputRefusal::Failed
    }
}

impl From<AllocError> for InputRefusal {
    ghost use Rattle.pq_io.specs.declared.whole.InputRefusal.{InputRefusal};

    ghost from_gives = { λ _ e. e ≡ InputRefusal.NoMemory };

    fn from(_: AllocError) -> Self {
        InputRefusal::NoMemory
    }
}

// How many bytes a read asks for at most.
const PIECE: usize = 4096;

/// All bytes of a source. Reading ends where the source does, and also at a read that fails, where memory is wanting,
/// and once one byte more than the limit was read.
/// No read that failed is passed over: unless that is the refusal, the source has counted no fault.
pub fn read_up_to<S: Source>(
    alloc: Global,
    source: &mut S,
    limit: usize,
) -> Result<Vec<u8>, InputRefusal>
    ensures limit { IfOk result (λ bytes. vec_len bytes ≤ limit) }
    ensures whole { IfOk result (λ bytes. IfSome (S.left source.old)
        (λ told. (bytes.items ≡ told) × (S.left source.new ≡ Some []))) }
    ensures failed { IsErrOf result InputRefusal.Failed → Rose (S.faults source.old) (S.faults source.new) }
    ensures too_long { IsErrOf result InputRefusal.TooLong → IfSome (S.left source.old) (λ told. limit < length told) }
    ensures steady { (S.faults source.new ≡ S.faults source.old) ⊎ IsErrOf result InputRefusal.Failed }
    ensures count { S.faults source.old ≤ S.faults source.new }
    ensures left { IfSome (S.left source.old)
        (λ told. (n : ℕ) × (n ≤ limit + 1) × (S.left source.new ≡ Some (drop n told))) }
{
    let mut buffer = [0; PIECE];
    let mut bytes = Vec::new(alloc);
    while bytes.len() <= limit {
        let wanted = (limit - bytes.len()).saturating_add(1).min(PIECE);
        let n = source.read(&mut buffer[..wanted])?;
        if n == 0 {
            return Ok(bytes);
        }
        bytes.extend_from_slice(&buffer[..n])?;
    }
    Err(InputRefusal::TooLong)
}

/// Offers all the bytes to a sink, and then all that it hasn't taken yet, until it has taken all or fails. No write
/// that failed is passed over.
pub fn write_whole<K: Sink>(sink: &mut K, bytes: &[u8]) -> Result<(), Failed>
    ensures ok { OnOk result (Gains (K.taken sink.old) (K.taken sink.new) bytes.now) }
    ensures err { OnErr result (GainsProperPrefix (K.taken sink.old) (K.taken sink.new) bytes.now) }
    ensures cause { OnErr result (Rose (K.faults sink.old) (K.faults sink.new)) }
    ensures steady { OnOk result (K.faults sink.new ≡ K.faults sink.old) }
    ensures count { K.faults sink.old ≤ K.faults sink.new }
    ensures silent { IsNone (K.taken sink.old) → IsNone (K.taken sink.new) }
{
    let mut rest = bytes;
    while !rest.is_empty() {
        let n = sink.write(rest)?;
        rest = &rest[n..];
    }
    Ok(())
}
