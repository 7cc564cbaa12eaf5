//! What words can ask for.

ghost use Rattle.std.specs.Prelude.{◌≤◌, ℕ, [], ◌∷◌, codes, IfSome, IfNone};
ghost use Rattle.doc_text.specs.Generated.{IsLoad};
ghost use Rattle.cx_program.specs.Words.{IsLoadOf, IsPoolOf};

use doc_model::number_of;

/// The most clients of a load.
const MAX_CLIENTS: u64 = 8;

/// The most commands of each client.
const MAX_OPS: u64 = 10_000;

/// The most callers that the clients of a pool share.
const MAX_SEATS: u64 = 8;

/// A load: the number from which its count of commands begins, its clients, and the commands of each.
#[derive(Drop)]
pub(crate) struct Load {
    pub(crate) from: u64,
    pub(crate) clients: u32,
    pub(crate) ops: u64,
    ghost within: { IsLoad from clients ops },
}

impl Load {
    /// The load whose numbers three words write, in decimal without sign and without leading zeros. None exactly where they write
    /// no numbers within its limits.
    pub(crate) fn read(from: &str, clients: &str, ops: &str) -> Option<Load>
        ensures some { IfSome result (λ load. IsLoadOf load.from load.clients load.ops (codes "load" ∷ from.now ∷ clients.now ∷ ops.now ∷ [])) }
        ensures none { IfNone result ((a b c : ℕ) → IsLoadOf a b c (codes "load" ∷ from.now ∷ clients.now ∷ ops.now ∷ []) → ⊥) }
    {
        let from = number_of(from.as_bytes())?;
        let clients = number_of(clients.as_bytes())?;
        let ops = number_of(ops.as_bytes())?;
        if clients == 0 || clients > MAX_CLIENTS || ops > MAX_OPS {
            return None;
        }
        Some(Load {
            from,
            clients: clients as u32,
            ops,
        })
    }
}

/// The callers of a service that the clients of a pool share.
#[derive(Drop)]
pub(crate) struct Seats {
    pub(crate) count: u32,
    ghost within: { (1 ≤ count) × (count ≤ 8) },
}

impl Seats {
    /// The number that a word writes, in decimal without sign and without leading zeros. None exactly where it writes no number of
    /// 1 to 8.
    pub(crate) fn read(word: &str) -> Option<Seats>
        ensures some { IfSome result (λ seats. IsPoolOf seats.count (codes "pool" ∷ word.now ∷ [])) }
        ensures none { IfNone result ((n : ℕ) → IsPoolOf n (codes "pool" ∷ word.now ∷ []) → ⊥) }
    {
        let count = number_of(word.as_bytes())?;
        if count == 0 || count > MAX_SEATS {
            return None;
        }
        Some(Seats {
            count: count as u32,
        })
    }
}

/// A command that words ask for.
#[derive(Drop)]
pub(crate) enum AskedCommand {
    /// `run`: a script is run, and its report is written.
    Run,
    /// `image`: a script is run, and the image that the last crash left is written.
    Image,
    /// `recover`: what is recovered from an image is written.
    Recover,
    /// `fifo`: a script of a queue is run, and its report is written.
    Fifo,
    /// `trace`: the verdict on a recorded trace is written: whether it is a run.
    Trace,
    /// `load` with three numbers: a script is made and run, and four lines on it are written.
    Load(Load),
    /// `pool` with a number: a script is run whose clients share this many callers, and its report is written.
    Pool(Seats),
}
