//! Sources and sinks. A source gives the text of the case and is set by `source`, and a sink by `sink`, as `Devices` says.
//! `reads N..` reads into buffers of these sizes, one after the other, and `writes TEXT..` writes these texts, of
//! which `nothing` is the empty one. `up_to LIMIT`
//! reads the whole under a limit, and `whole TEXT` writes the whole. Behind `sure` the same are over a source that never
//! fails, and over a sink with the room of the case that never fails. `std_up_to LIMIT` and `std_whole TEXT` are over a
//! reader and a writer of the standard library, and `broken` over such ones that don't work.

use crate::broken::Broken;
use anyhow::{Result, bail};
use case_lists::text::{Text, numbers, show, unescaped};
use case_lists::{Cases, Devices};
use pq_io::{
    InputRefusal, Sink, Source, StdSink, StdSource, SureSink, SureSource, read_up_to, write_whole,
};
use std::alloc::Global;
use std::io::Cursor;

#[derive(Drop)]
pub(crate) struct StreamCases {
    alloc: Global,
    text: Text,
    devices: Devices,
}

impl Cases for StreamCases {
    fn new(alloc: Global) -> StreamCases {
        StreamCases {
            alloc,
            text: Text::new(alloc),
            devices: Devices::new(alloc),
        }
    }

    fn act(&mut self, verb: &str, rest: &str, out: &mut String) -> Result<()> {
        if self.text.add(verb, rest)? {
            return Ok(());
        }
        match verb {
            "source" | "sink" => {
                self.devices.set(verb, rest)?;
                Ok(())
            }
            "reads" | "up_to" => self.read_by_memory(verb, rest, out),
            "writes" | "whole" => self.write_by_memory(verb, rest, out),
            "sure" => self.surely(rest, out),
            _ => by_standard(self.alloc, self.text.bytes(), verb, rest, out),
        }
    }
}

impl StreamCases {
    fn read_by_memory(&self, verb: &str, rest: &str, out: &mut String) -> Result<()> {
        let mut source = self.devices.source(self.text.bytes())?;
        read_from(self.alloc, &mut source, verb, rest, out)
    }

    fn write_by_memory(&self, verb: &str, rest: &str, out: &mut String) -> Result<()> {
        let mut sink = self.devices.sink()?;
        write_to(self.alloc, &mut sink, verb, rest, out)?;
        show(out, sink.taken())
    }

    fn surely(&self, rest: &str, out: &mut String) -> Result<()> {
        let (verb, rest) = rest.split_once(' ').unwrap_or((rest, ""));
        if verb == "reads" || verb == "up_to" {
            let mut source = SureSource::new(self.alloc, self.text.bytes())?;
            return read_from(self.alloc, &mut source, verb, rest, out);
        }
        let mut sink = SureSink::new(self.alloc, self.devices.room())?;
        write_to(self.alloc, &mut sink, verb, rest, out)?;
        show(out, sink.taken())
    }
}

fn read_from<S: Source>(
    alloc: Global,
    source: &mut S,
    verb: &str,
    rest: &str,
    out: &mut String,
) -> Result<()> {
    if verb == "up_to" {
        return show_input(read_up_to(alloc, source, rest.parse::<usize>()?), out);
    }
    for size in &numbers::<u8>(alloc, rest)? {
        show_one_read(source, *size as usize, out)?;
    }
    Ok(())
}

fn show_one_read<S: Source>(source: &mut S, size: usize, out: &mut String) -> Result<()> {
    let mut buffer = [0; 256];
    match source.read(&mut buffer[..size.min(256)]) {
        Ok(n) => {
            writeln!(out, "    {n} bytes")?;
            show(out, &buffer[..n])
        }
        Err(_) => {
            writeln!(out, "    failed")?;
            Ok(())
        }
    }
}

fn show_input(input: Result<Vec<u8>, InputRefusal>, out: &mut String) -> Result<()> {
    match input {
        Ok(bytes) => {
            let length = bytes.len();
            writeln!(out, "    {length} bytes read")?;
            show(out, &bytes)?;
        }
        Err(refusal) => writeln!(out, "    {refusal}")?,
    }
    Ok(())
}

fn write_to<K: Sink>(
    alloc: Global,
    sink: &mut K,
    verb: &str,
    rest: &str,
    out: &mut String,
) -> Result<()> {
    if verb == "whole" {
        return match write_whole(sink, &unescaped(alloc, rest)?) {
            Ok(()) => show_line("    all written", out),
            Err(_) => show_line("    failed", out),
        };
    }
    for piece in rest.split_whitespace() {
        let piece = if piece == "nothing" { "" } else { piece };
        show_one_write(sink, &unescaped(alloc, piece)?, out)?;
    }
    Ok(())
}

fn show_one_write<K: Sink>(sink: &mut K, piece: &[u8], out: &mut String) -> Result<()> {
    match sink.write(piece) {
        Ok(n) => writeln!(out, "    {n} taken")?,
        Err(_) => writeln!(out, "    failed")?,
    }
    Ok(())
}

fn show_line(line: &str, out: &mut String) -> Result<()> {
    writeln!(out, "{line}")?;
    Ok(())
}

fn by_standard(alloc: Global, text: &[u8], verb: &str, rest: &str, out: &mut String) -> Result<()> {
    match verb {
        "std_up_to" => {
            let mut source = StdSource::of(Cursor::new(text));
            read_from(alloc, &mut source, "up_to", rest, out)
        }
        "std_whole" => {
            let mut held = Vec::new(alloc);
            write_to(alloc, &mut StdSink::of(&mut held), "whole", rest, out)?;
            show(out, &held)
        }
        "broken" => {
            let takes_nothing = false;
            read_from(
                alloc,
                &mut StdSource::of(Broken { takes_nothing }),
                "reads",
                "4",
                out,
            )?;
            write_to(
                alloc,
                &mut StdSink::of(Broken { takes_nothing }),
                "whole",
                "abc",
                out,
            )?;
            write_to(
                alloc,
                &mut StdSink::of(Broken {
                    takes_nothing: true,
                }),
                "whole",
                "abc",
                out,
            )
        }
        _ => bail!("no such verb"),
    }
}
