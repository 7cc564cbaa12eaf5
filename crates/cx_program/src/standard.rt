//! Standard input and output as a source and a sink. Contracts see none of their bytes: what they do is trusted.

ghost use Rattle.std.specs.Prelude.{◌≡◌, None};

use cx_base::{Failed, Sink, Source};
use std::io::{Read, Write};

/// A reader as a source. Each of its errors is a fault.
#[derive(Drop)]
pub struct StdSource<R: Read + Drop> {
    pub reader: R,
    /// How many of its reads failed.
    pub faults: u64,
    /// How often it was read. The count stands still at 2^64 - 1.
    pub reads: u64,
}

impl<R: Read + Drop> StdSource<R> {
    /// A source that was not read yet.
    pub fn new(reader: R) -> Self
        ensures { result ≡ record { reader = reader; faults = 0; reads = 0 } }
    {
        StdSource {
            reader,
            faults: 0,
            reads: 0,
        }
    }
}

impl<R: Read + Drop> Source for StdSource<R> {
    ghost left = { λ _. None };

    ghost faults = { λ s. s.faults };

    ghost reads = { λ s. s.reads };

    fn read(&mut self, into: &mut [u8]) -> Result<usize, Failed> {
        self.reads = self.reads.saturating_add(1);
        match self.reader.read(into) {
            Ok(n) => Ok(n),
            Err(_) => {
                self.faults = self.faults.saturating_add(1);
                Err(Failed)
            }
        }
    }
}

/// A writer as a sink. Each of its errors is a fault, and each write that takes no byte is a fault.
#[derive(Drop)]
pub struct StdSink<W: Write + Drop> {
    pub writer: W,
    /// How many of its writes failed.
    pub faults: u64,
}

impl<W: Write + Drop> StdSink<W> {
    /// A sink that has not failed yet.
    pub fn new(writer: W) -> Self
        ensures { result ≡ record { writer = writer; faults = 0 } }
    {
        StdSink { writer, faults: 0 }
    }
}

impl<W: Write + Drop> Sink for StdSink<W> {
    ghost written = { λ _. None };

    ghost faults = { λ s. s.faults };

    fn write(&mut self, piece: &[u8]) -> Result<usize, Failed> {
        match self.writer.write(piece) {
            Ok(n) if n > 0 => Ok(n),
            _ => {
                self.faults = self.faults.saturating_add(1);
                Err(Failed)
            }
        }
    }
}
