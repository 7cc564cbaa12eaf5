//! A replica that was brought up and flushed has to become the one that all read, and that a crash leaves, while others publish theirs and a crash
//! may come in between.
//!
//! As in CX (Correia, Ramalhete, Felber, PPoPP 2020) one compare-and-swap on the published root does the first, and a caller that finds a place
//! there that is not below its own releases its right. The second is a raise of the durable root, which alone acknowledges; only then is the
//! replica of the root before released, so that each root which a crash may leave names a whole replica. The durable root is this project's own
//! choice.
//!
//! - A replica that the caller has downgraded is put into CUR, by an exchange that turns again where it was lost to a smaller place. `Passed`
//!   comes exactly where a code found in CUR has a place not below the replica's; then the right was released. With `Halt` the right stands,
//!   and nothing was won. Beside the root nothing of the caller is changed: `publish` (`published`: `WinsCur`, `PassedBy`, `HaltsPublishing`;
//!   `leaves`: `KeepsRest`). At most one refusal is met (its `most`), and the steps are at most as many as the code seen rose, and one
//!   (`steps`), since each exchange that is lost found a later code.
//! - Callers are answered by `make_durable` alone (`made`), and a win is retired once DUR was raised by its code: `retire` (`raised`,
//!   `made`).
#![tactic(auto)]

mod publication;

pub use publication::{Published, make_durable, publish, retire};
