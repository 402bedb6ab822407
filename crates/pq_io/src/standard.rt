//! The standard library's readers and writers as a source and a sink. They are the edge of what is proved: which bytes
//! the system gives and takes, no clause says.

ghost use Rattle.std.specs.Prelude.{◌≡◌, ◌<◌, ◌≤◌, length, None, IfOk, OnOk, OnErr};
ghost use Rattle.std.specs.Io.KnownBytes.{ReadConsumes, WriteAppends};
ghost use Rattle.pq_io.specs.Faults.{one_more};

use crate::{Failed, Sink, Source};
use std::io::{Read, Write};

/// A reader as a source. Each error of the reader is a fault, also an interrupted read.
#[derive(Drop)]
pub struct StdSource<R: Read> {
    reader: R,
    faults: u64,
}

impl<R: Read> StdSource<R> {
    ghost use Rattle.pq_io.specs.Standard.{reader_of, source_faults};

    /// A source over this reader, which has never failed. Takes no memory.
    pub fn of(reader: R) -> StdSource<R>
        ensures reader { reader_of result ≡ reader }
        ensures faults { source_faults result ≡ 0 }
    {
        StdSource { reader, faults: 0 }
    }
}

impl<R: Read> Source for StdSource<R> {
    ghost use Rattle.pq_io.specs.Standard.{reader_of, source_faults};

    ghost left = { λ _. None };

    ghost faults = { source_faults };

    fn read(&mut self, buf: &mut [u8]) -> Result<usize, Failed>
        ensures bound { IfOk result (λ n. n ≤ length buf.new) }
        ensures bytes { ReadConsumes (R.remaining (reader_of self.old)) (R.remaining (reader_of self.new)) result buf.new }
        ensures count { source_faults self.old ≤ source_faults self.new }
        ensures ok { OnOk result (source_faults self.new ≡ source_faults self.old) }
        ensures err { OnErr result (source_faults self.new ≡ one_more (source_faults self.old)) }
    {
        match self.reader.read(buf) {
            Ok(n) => Ok(n),
            Err(_) => {
                self.faults = self.faults.saturating_add(1);
                Err(Failed)
            }
        }
    }
}

/// A writer as a sink. Each error of the writer is a fault, and so is a write that takes nothing of a piece that isn't
/// empty. Nothing is flushed, so the writer must keep no buffer.
#[derive(Drop)]
pub struct StdSink<W: Write> {
    writer: W,
    faults: u64,
}

impl<W: Write> StdSink<W> {
    ghost use Rattle.pq_io.specs.Standard.{writer_of, sink_faults};

    /// A sink over this writer, which has never failed. Takes no memory.
    pub fn of(writer: W) -> StdSink<W>
        ensures writer { writer_of result ≡ writer }
        ensures faults { sink_faults result ≡ 0 }
    {
        StdSink { writer, faults: 0 }
    }
}

impl<W: Write> Sink for StdSink<W> {
    ghost use Rattle.pq_io.specs.Standard.{writer_of, sink_faults};

    ghost taken = { λ _. None };

    ghost faults = { sink_faults };

    fn write(&mut self, piece: &[u8]) -> Result<usize, Failed>
        ensures bound { IfOk result (λ n. n ≤ length piece.now) }
        ensures bytes { WriteAppends (W.contents (writer_of self.old)) (W.contents (writer_of self.new)) result piece.now }
        ensures progress { IfOk result (λ n. 0 < length piece.now → 0 < n) }
        ensures count { sink_faults self.old ≤ sink_faults self.new }
        ensures ok { OnOk result (sink_faults self.new ≡ sink_faults self.old) }
        ensures err { OnErr result (sink_faults self.new ≡ one_more (sink_faults self.old)) }
    {
        match self.writer.write(piece) {
            Ok(n) if n > 0 || piece.is_empty() => Ok(n),
            _ => {
                self.faults = self.faults.saturating_add(1);
                Err(Failed)
            }
        }
    }
}
