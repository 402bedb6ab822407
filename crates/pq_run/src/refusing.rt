//! The end of a command that is refused: its line is written, as far as the sink takes it.

ghost use Rattle.std.specs.Prelude.{◌≡◌, ◌≤◌, IfOk, OnErr, IsNone};
ghost use Rattle.pq_run.specs.Refusals.{refusal_line};
ghost use Rattle.pq_run.specs.Streams.{writing_of};
ghost use Rattle.pq_run.specs.Ends.{TakesLine, EndsBy};
ghost use Rattle.pq_run.specs.declared.refusal.Refusal.TheVariants.{NoMemory as WantOfMemory};

use crate::refusal::Refusal;
use crate::refusal_lines::{
    certificate_line, failing_part_line, fault_line, too_large_line, too_long_line,
};
use pq_base::{NoMemory, Status};
use pq_io::{Sink, write_whole};
use std::alloc::Global;

/// Writes the line of a refusal, and gives its status, also where the sink fails. Only the lines of a fault, of a rank that is
/// too large and of a part that fails need memory; where it is wanting, that is told in their place.
pub(crate) fn refuse<K: Sink>(alloc: Global, sink: &mut K, refusal: Refusal) -> Status
    ensures ends { EndsBy refusal (writing_of K.taken K.faults sink.old sink.new) result }
    ensures count { K.faults sink.old ≤ K.faults sink.new }
    ensures silent { IsNone (K.taken sink.old) → IsNone (K.taken sink.new) }
{
    match refusal {
        Refusal::Words => refuse_by(sink, b"refused: words\n", Status::BadWords),
        Refusal::ReadFault => refuse_by(sink, b"refused: read fault\n", Status::ReadFault),
        Refusal::InputTooLong(input) => {
            refuse_by(sink, too_long_line(input), Status::InputTooLong)
        }
        Refusal::Text(fault) => refuse_in_memory(sink, fault_line(alloc, fault), Status::BadText),
        Refusal::TooLarge { run, class, rank } => {
            let line = too_large_line(alloc, run, class, rank);
            refuse_in_memory(sink, line, Status::TooLarge)
        }
        Refusal::CertificateLine(number) => {
            refuse_in_memory(sink, certificate_line(alloc, number), Status::CertRefused)
        }
        Refusal::CertificatePart { run, class, part } => {
            let line = failing_part_line(alloc, run, class, part);
            refuse_in_memory(sink, line, Status::CertRefused)
        }
        Refusal::NoMemory => refuse_by(sink, b"refused: no memory\n", Status::NoMemory),
    }
}

/// Writes a line that took memory, or the one that says that it was wanting.
fn refuse_in_memory<K: Sink>(
    sink: &mut K,
    line: Result<Vec<u8>, NoMemory>,
    status: Status,
) -> Status
    ensures told { IfOk line
        (λ text. (result ≡ status) × TakesLine (writing_of K.taken K.faults sink.old sink.new) text.items) }
    ensures wanting { OnErr line
        ((result ≡ Status.NoMemory) × TakesLine (writing_of K.taken K.faults sink.old sink.new) (refusal_line WantOfMemory)) }
    ensures count { K.faults sink.old ≤ K.faults sink.new }
    ensures silent { IsNone (K.taken sink.old) → IsNone (K.taken sink.new) }
{
    match line {
        Ok(text) => refuse_by(sink, &text, status),
        Err(NoMemory) => refuse_by(sink, b"refused: no memory\n", Status::NoMemory),
    }
}

/// Writes a line, and gives the status, also where the sink fails.
fn refuse_by<K: Sink>(sink: &mut K, line: &[u8], status: Status) -> Status
    ensures status { result ≡ status }
    ensures line { TakesLine (writing_of K.taken K.faults sink.old sink.new) line.now }
    ensures count { K.faults sink.old ≤ K.faults sink.new }
    ensures silent { IsNone (K.taken sink.old) → IsNone (K.taken sink.new) }
{
    let _ = write_whole(sink, line);
    status
}
