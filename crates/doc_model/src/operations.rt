//! What a client may ask of the store, and how it is answered.

ghost use Rattle.std.specs.Prelude.{◌≡◌};

use cx_base::Bytes;
use std::marker::Model;

/// A request. A key has 1 to 64 bytes, each 0x21 to 0x7E, and a document 1 to 1,024 bytes, each 0x20 or more.
#[derive(Drop)]
pub enum Op {
    /// Sets the document of a key.
    Put {
        key: Bytes,
        doc: Bytes,
    },
    /// Removes a key.
    Del {
        key: Bytes,
    },
    /// Adds to the number that is the document of a key. A missing key counts as 0.
    Add {
        key: Bytes,
        amount: i64,
    },
    /// Asks for the document of a key.
    Get {
        key: Bytes,
    },
    /// Asks for the least key above this one. It may be empty, and then any key is above it.
    Next {
        above: Bytes,
    },
    /// Asks for the number of pairs.
    Count,
    /// Sets the document of a key whose revision is this one. A missing key counts as one of revision 0.
    PutIf {
        key: Bytes,
        revision: u64,
        doc: Bytes,
    },
    /// Asks for the revision of a key.
    Rev {
        key: Bytes,
    },
}

impl Op {
    ghost use Rattle.doc_model.specs.Meaning.{only_reads};

    /// Whether the operation leaves every store as it is.
    pub fn only_reads(&self) -> bool
        ensures { result ≡ only_reads self.now }
    {
        matches!(
            self,
            Op::Get { .. } | Op::Next { .. } | Op::Count | Op::Rev { .. }
        )
    }
}

/// What an operation is answered.
#[derive(Drop)]
pub enum Reply {
    /// The key was not there, and is now.
    New,
    /// The key was there, and has the new document.
    Replaced,
    /// The key was there, and is no more.
    Deleted,
    /// The key, or any key above, is not there.
    Absent,
    /// The document.
    Doc(Bytes),
    /// The number after an addition.
    Sum(i64),
    /// The document is not the text of a 64-bit integer. Nothing has changed.
    NotNumber,
    /// The sum is no 64-bit integer. Nothing has changed.
    Overflow,
    /// The store would need more lines than there are. Nothing has changed.
    NoRoom,
    /// The least key above.
    Key(Bytes),
    /// The number of pairs.
    Number(u64),
    /// The document was set, and has this revision.
    Set(u64),
    /// The key has this revision and not the one that was asked for, and 0 where it is missing. Nothing has changed.
    Stale(u64),
    /// The revision of the key.
    Revision(u64),
}

/// A key and its document, and the revision that its last write gave it.
#[derive(Drop)]
pub struct Pair {
    pub key: Bytes,
    pub doc: Bytes,
    pub revision: u64,
}

impl Model for Pair {
    ghost use Rattle.std.specs.Prelude.{List, ℕ};

    ghost Value = { (List ℕ × List ℕ) × ℕ };

    ghost view = { λ p. ((p.key, p.doc), p.revision) };
}
