//! A reader and a writer that don't work.

use std::io;
use std::io::{Read, Write};

/// Fails at each call, or takes nothing of what it is given.
#[derive(Drop)]
pub(crate) struct Broken {
    pub(crate) takes_nothing: bool,
}

impl Read for Broken {
    fn read(&mut self, _buf: &mut [u8]) -> io::Result<usize> {
        Err(io::Error::from(io::ErrorKind::Other))
    }
}

impl Write for Broken {
    fn write(&mut self, _buf: &[u8]) -> io::Result<usize> {
        if self.takes_nothing {
            return Ok(0);
        }
        Err(io::Error::from(io::ErrorKind::Other))
    }

    fn flush(&mut self) -> io::Result<()> {
        Ok(())
    }
}
