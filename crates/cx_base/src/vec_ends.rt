//! A source and a sink in memory with a limit on the bytes of one call, which fail at chosen calls.

ghost use Rattle.std.specs.Prelude.{◌≡◌, ◌↔◌, ◌⊎◌, ◌<◌, ◌≤◌, length, vec_capacity, Contains, IfOk, IsErr, IsTrue, Some};
ghost use Rattle.cx_base.specs.Outside.{IsSourceRead, IsWritten, CountsCall, next_call};

use crate::outside::{Failed, Sink, Source};
use std::marker::Model;

/// The calls of a source or a sink: how many were made, and which of them fail. The counts stay at 2^64 - 1 once there.
#[derive(Drop)]
struct Calls {
    fails: Vec<u64>,
    made: u64,
    faults: u64,
}

impl Calls {
    /// Before the first call.
    fn new(fails: Vec<u64>) -> Self
        ensures fails { result.fails ≡ fails }
        ensures made { result.made ≡ 0 }
        ensures faults { result.faults ≡ 0 }
    {
        Calls {
            fails,
            made: 0,
            faults: 0,
        }
    }

    /// Counts a call, and answers whether it is one that fails.
    fn begin(&mut self) -> bool
        ensures fails { self.new.fails ≡ self.old.fails }
        ensures made { self.new.made ≡ next_call self.old.made }
        ensures faults { self.new.faults ≡ self.old.faults }
        ensures chosen { IsTrue result ↔ Contains self.old.fails.items (next_call self.old.made) }
    {
        self.made = self.made.saturating_add(1);
        self.fails.contains(&self.made)
    }

    /// Counts a failure.
    fn fail(&mut self) -> Failed
        ensures fails { self.new.fails ≡ self.old.fails }
        ensures made { self.new.made ≡ self.old.made }
        ensures faults { self.new.faults ≡ next_call self.old.faults }
    {
        self.faults = self.faults.saturating_add(1);
        Failed
    }
}

/// A source over bytes in memory that gives a limited number of bytes a call and fails at the calls chosen, counted from 1. Contracts
/// see the bytes that it has left, and its calls.
#[derive(Drop)]
pub struct VecSource {
    bytes: Vec<u8>,
    at: usize,
    chunk: usize,
    calls: Calls,
}

impl Model for VecSource {
    ghost use Rattle.std.specs.Prelude.{◌≤◌, drop, vec_len};
    ghost use Rattle.cx_base.specs.Outside.{ByteStream};

    ghost Value = { ByteStream };

    ghost view = { λ s. record { bytes = drop s.at s.bytes.items; chunk = s.chunk; fails = s.calls.fails.items; calls = s.calls.made; faults = s.calls.faults } };

    ghost invariant = { λ s. (1 ≤ s.chunk) × (s.at ≤ vec_len s.bytes) };
}

impl VecSource {
    /// A source that gives at most `chunk` bytes a call. Exactly the calls whose numbers stand in `fails` fail.
    pub fn new(bytes: Vec<u8>, chunk: usize, fails: Vec<u64>) -> Self
        requires { 1 ≤ chunk }
        ensures { result ≡ record { bytes = bytes.items; chunk = chunk; fails = fails.items; calls = 0; faults = 0 } }
    {
        VecSource {
            bytes,
            at: 0,
            chunk,
            calls: Calls::new(fails),
        }
    }
}

impl Source for VecSource {
    ghost use Rattle.std.specs.Prelude.{Some};

    ghost left = { λ s. Some s.bytes };

    ghost faults = { λ s. s.faults };

    ghost reads = { λ s. s.calls };

    fn read(&mut self, into: &mut [u8]) -> Result<usize, Failed>
        requires { 0 < length into.old }
        ensures read { IsSourceRead (length into.old) result into.new (Some self.old.bytes) (Some self.new.bytes) self.old.faults self.new.faults self.old.calls self.new.calls }
        // It gives at most `chunk` bytes, and fails exactly at the calls chosen.
        ensures chunk { IfOk result (λ n. n ≤ self.old.chunk) }
        ensures chosen { IsErr result ↔ Contains self.old.fails (next_call self.old.calls) }
        ensures kept { CountsCall self.old self.new }
    {
        if self.calls.begin() {
            return Err(self.calls.fail());
        }
        let n = into.len().min(self.chunk).min(self.bytes.len() - self.at);
        into[..n].copy_from_slice(&self.bytes[self.at..self.at + n]);
        self.at += n;
        Ok(n)
    }
}

/// A sink that appends a limited number of bytes a call to a vector, up to the room reserved in it, and takes no memory. It fails at
/// the calls chosen, counted from 1, and past that room.
#[derive(Drop)]
pub struct VecSink {
    bytes: Vec<u8>,
    room: usize,
    chunk: usize,
    calls: Calls,
}

impl Model for VecSink {
    ghost use Rattle.std.specs.Prelude.{◌≤◌, vec_len, vec_capacity};
    ghost use Rattle.cx_base.specs.Outside.{Filling};

    ghost Value = { Filling };

    ghost view = { λ s. record { stream = record { bytes = s.bytes.items; chunk = s.chunk; fails = s.calls.fails.items; calls = s.calls.made; faults = s.calls.faults }; room = s.room } };

    ghost invariant = { λ s. (1 ≤ s.chunk) × (vec_len s.bytes ≤ s.room) × (s.room ≤ vec_capacity s.bytes) };
}

impl VecSink {
    /// A sink with the room that the vector has reserved, behind what it holds already, which takes at most `chunk` bytes a call.
    /// The calls whose numbers stand in `fails` fail.
    pub fn new(room: Vec<u8>, chunk: usize, fails: Vec<u64>) -> Self
        requires { 1 ≤ chunk }
        ensures { result ≡ record { stream = record { bytes = room.items; chunk = chunk; fails = fails.items; calls = 0; faults = 0 }; room = vec_capacity room } }
    {
        let reserved = room.capacity();
        VecSink {
            bytes: room,
            room: reserved,
            chunk,
            calls: Calls::new(fails),
        }
    }

    /// The bytes that the vector held at first and those written since.
    pub fn written(&self) -> &[u8]
        ensures { result.now ≡ self.now.stream.bytes }
    {
        &self.bytes
    }
}

impl Sink for VecSink {
    ghost use Rattle.std.specs.Prelude.{Some};

    ghost written = { λ s. Some s.stream.bytes };

    ghost faults = { λ s. s.stream.faults };

    fn write(&mut self, piece: &[u8]) -> Result<usize, Failed>
        requires { 0 < length piece.now }
        ensures written { IsWritten piece.now result (Some self.old.stream.bytes) (Some self.new.stream.bytes) self.old.stream.faults self.new.stream.faults }
        // It takes at most `chunk` bytes, and fails exactly at the calls chosen and where no room is left.
        ensures chunk { IfOk result (λ n. n ≤ self.old.stream.chunk) }
        ensures chosen { IsErr result ↔ (Contains self.old.stream.fails (next_call self.old.stream.calls) ⊎ (self.old.room ≤ length self.old.stream.bytes)) }
        ensures kept { CountsCall self.old.stream self.new.stream }
        ensures room { self.new.room ≡ self.old.room }
    {
        if self.calls.begin() {
            return Err(self.calls.fail());
        }
        let n = piece
            .len()
            .min(self.chunk)
            .min(self.room - self.bytes.len());
        if n == 0 || self.bytes.extend_from_slice(&piece[..n]).is_err() {
            return Err(self.calls.fail());
        }
        Ok(n)
    }
}
