//! How many tries a call makes.

ghost use Rattle.std.specs.Prelude.{◌≤◌};

/// A number of tries, or of attempts: at least one.
#[derive(Clone, Copy, Debug, Drop)]
pub struct Tries {
    pub count: u64,
    pub ghost some: { 1 ≤ count },
}
