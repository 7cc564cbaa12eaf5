//! What a client may ask of the queue, and how it is answered.

ghost use Rattle.std.specs.Prelude.{◌≡◌};

use cx_base::Bytes;

/// A request. A text has 1 to 56 bytes, each 0x21 to 0x7E.
#[derive(Drop)]
pub enum FifoOp {
    /// Puts a text behind the last.
    Push { text: Bytes },
    /// Takes the text at the front.
    Pop,
    /// Asks for the text at the front.
    Peek,
    /// Asks for the number of texts.
    Len,
}

impl FifoOp {
    ghost use Rattle.fifo_object.specs.Queue.{only_reads};

    /// Whether the operation leaves every queue as it is.
    pub fn only_reads(&self) -> bool
        ensures { result ≡ only_reads self.now }
    {
        matches!(self, FifoOp::Peek | FifoOp::Len)
    }
}

/// What an operation is answered.
#[derive(Drop)]
pub enum FifoReply {
    /// The text is the last now.
    Pushed,
    /// There is no place for a text more. Nothing has changed.
    Full,
    /// The text at the front.
    Item(Bytes),
    /// There is no text.
    Empty,
    /// The number of texts.
    Length(u64),
}
