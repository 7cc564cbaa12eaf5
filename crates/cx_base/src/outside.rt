//! Where bytes come from and go to, and the gate that each command passes.

ghost use Rattle.std.specs.Prelude.{◌<◌, length, List, ℕ, Option};
ghost use Rattle.cx_base.specs.Outside.{IsSourceRead, IsWritten};

/// A call that a source or a sink refused.
#[derive(Clone, Copy, Debug, PartialEq, Eq)]
pub struct Failed;

/// Where bytes come from.
pub trait Source {
    /// The bytes that it has left, where it tells them.
    ghost left: { Self → Option (List ℕ) };

    /// How often it has failed. The count stands still at 2^64 - 1.
    ghost faults: { Self → ℕ };

    /// How often it was read, as far as it counts its reads.
    ghost reads: { Self → ℕ };

    /// Reads bytes to the front of `into`, at most as many as it holds, and answers how many. 0 is the end of
    /// the input. After `Failed` no byte was taken. What `into` holds behind the bytes read is open.
    fn read(&mut self, into: &mut [u8]) -> Result<usize, Failed>
        requires { 0 < length into.old }
        ensures { IsSourceRead (length into.old) result into.new (left self.old) (left self.new) (faults self.old) (faults self.new) (reads self.old) (reads self.new) };
}

/// Where bytes go to.
pub trait Sink {
    /// The bytes written so far, where it tells them.
    ghost written: { Self → Option (List ℕ) };

    /// How often it has failed. The count stands still at 2^64 - 1.
    ghost faults: { Self → ℕ };

    /// Appends bytes from the front of `piece`, at least one of them, and answers how many. After `Failed`
    /// nothing was appended. A sink that can take nothing fails.
    fn write(&mut self, piece: &[u8]) -> Result<usize, Failed>
        requires { 0 < length piece.now }
        ensures { IsWritten piece.now result (written self.old) (written self.new) (faults self.old) (faults self.new) };
}

/// What each worker passes before a command (`after` false) and after it (`after` true). It answers nothing.
pub trait Gate {
    fn pass(&self, client: u32, command: u64, after: bool);
}

/// The gate that is always open.
#[derive(Clone, Copy, Debug)]
pub struct OpenGate;

impl Gate for OpenGate {
    fn pass(&self, _client: u32, _command: u64, _after: bool) {}
}
