//! Sources and sinks over memory, as a case sets them up.

use crate::text::numbers;
use anyhow::{Result, bail};
use pq_io::{MemorySink, MemorySource};
use std::alloc::Global;

/// How a source gives its bytes and a sink takes them.
#[derive(Drop)]
pub struct Devices {
    alloc: Global,
    source_step: usize,
    source_fails: Vec<u32>,
    room: usize,
    sink_step: usize,
    sink_fails: Vec<u32>,
}

impl Devices {
    /// Devices that never fail, in steps of 1,000 bytes, and with room for 2,000.
    pub fn new(alloc: Global) -> Devices {
        Devices {
            alloc,
            source_step: 1000,
            source_fails: Vec::new(alloc),
            room: 2000,
            sink_step: 1000,
            sink_fails: Vec::new(alloc),
        }
    }

    /// Takes what a line says, and says whether it is such a line: `source STEP CALL..` gives the source its step and the
    /// numbers of the calls that fail, and `sink ROOM STEP CALL..` the same to the sink.
    pub fn set(&mut self, verb: &str, rest: &str) -> Result<bool> {
        let values = numbers::<u32>(self.alloc, rest)?;
        match (verb, values.as_slice()) {
            ("source", [step, fails @ ..]) => {
                self.source_step = *step as usize;
                self.source_fails = Vec::from_slice(self.alloc, fails)?;
            }
            ("sink", [room, step, fails @ ..]) => {
                self.room = *room as usize;
                self.sink_step = *step as usize;
                self.sink_fails = Vec::from_slice(self.alloc, fails)?;
            }
            _ => return Ok(false),
        }
        Ok(true)
    }

    /// A source of these bytes.
    pub fn source(&self, bytes: &[u8]) -> Result<MemorySource> {
        if self.source_step == 0 {
            bail!("a step of 0");
        }
        let source = MemorySource::new(self.alloc, bytes, self.source_step, &self.source_fails)?;
        Ok(source)
    }

    /// How many bytes the sink has room for.
    pub fn room(&self) -> usize {
        self.room
    }

    /// An empty sink.
    pub fn sink(&self) -> Result<MemorySink> {
        if self.sink_step == 0 {
            bail!("a step of 0");
        }
        let sink = MemorySink::new(self.alloc, self.room, self.sink_step, &self.sink_fails)?;
        Ok(sink)
    }
}
