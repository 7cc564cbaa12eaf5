//! A source and a sink in memory.

ghost use Rattle.std.specs.Prelude.{◌≡◌, ◌↔◌, ◌<◌, ◌≤◌, length, vec_capacity, IsOk, IsErr, Some};
ghost use Rattle.cx_base.specs.Outside.{IsSourceRead, IsWritten};

use crate::outside::{Failed, Sink, Source};
use std::marker::Model;

/// A source over bytes in memory, which never fails. Contracts see the bytes that it has left.
#[derive(Drop)]
pub struct SureSource {
    bytes: Vec<u8>,
    at: usize,
}

impl Model for SureSource {
    ghost use Rattle.std.specs.Prelude.{◌≤◌, List, ℕ, drop, vec_len};

    ghost Value = { List ℕ };

    ghost view = { λ s. drop s.at s.bytes.items };

    ghost invariant = { λ s. s.at ≤ vec_len s.bytes };
}

impl SureSource {
    /// A source that gives these bytes from their first on.
    pub fn new(bytes: Vec<u8>) -> Self
        ensures { result ≡ bytes.items }
    {
        SureSource { bytes, at: 0 }
    }
}

impl Source for SureSource {
    ghost use Rattle.std.specs.Prelude.{Some};

    ghost left = { λ s. Some s };

    ghost faults = { λ _. 0 };

    ghost reads = { λ _. 0 };

    fn read(&mut self, into: &mut [u8]) -> Result<usize, Failed>
        requires { 0 < length into.old }
        ensures read { IsSourceRead (length into.old) result into.new (Some self.old) (Some self.new) 0 0 0 0 }
        // It never fails.
        ensures sure { IsOk result }
    {
        let n = into.len().min(self.bytes.len() - self.at);
        into[..n].copy_from_slice(&self.bytes[self.at..self.at + n]);
        self.at += n;
        Ok(n)
    }
}

/// A sink that appends to a vector up to the room reserved in it, and takes no memory. Past that room each call
/// fails.
#[derive(Drop)]
pub struct SureSink {
    bytes: Vec<u8>,
    room: usize,
    faults: u64,
}

impl Model for SureSink {
    ghost use Rattle.std.specs.Prelude.{◌≤◌, vec_len, vec_capacity};
    ghost use Rattle.cx_base.specs.Outside.{Holding};

    ghost Value = { Holding };

    ghost view = { λ s. record { written = s.bytes.items; room = s.room; faults = s.faults } };

    ghost invariant = { λ s. (vec_len s.bytes ≤ s.room) × (s.room ≤ vec_capacity s.bytes) };
}

impl SureSink {
    /// A sink with the room that the vector has reserved, behind what it holds already.
    pub fn new(room: Vec<u8>) -> Self
        ensures written { result.written ≡ room.items }
        ensures room { result.room ≡ vec_capacity room }
    {
        let reserved = room.capacity();
        SureSink {
            bytes: room,
            room: reserved,
            faults: 0,
        }
    }

    /// The bytes that the vector held at first and those written since.
    pub fn written(&self) -> &[u8]
        ensures { result.now ≡ self.now.written }
    {
        &self.bytes
    }
}

impl Sink for SureSink {
    ghost use Rattle.std.specs.Prelude.{Some};

    ghost written = { λ s. Some s.written };

    ghost faults = { λ s. s.faults };

    fn write(&mut self, piece: &[u8]) -> Result<usize, Failed>
        requires { 0 < length piece.now }
        ensures written { IsWritten piece.now result (Some self.old.written) (Some self.new.written) self.old.faults self.new.faults }
        // It fails exactly where no room is left, and the room stays.
        ensures sure { IsErr result ↔ (self.old.room ≤ length self.old.written) }
        ensures room { self.new.room ≡ self.old.room }
    {
        let n = piece.len().min(self.room - self.bytes.len());
        if n == 0 || self.bytes.extend_from_slice(&piece[..n]).is_err() {
            self.faults = self.faults.saturating_add(1);
            return Err(Failed);
        }
        Ok(n)
    }
}
