//! How many callers a table has.

ghost use Rattle.std.specs.Prelude.{◌≤◌};

/// A number of callers that there may be: 1 to 8.
#[derive(Clone, Copy, Debug, Drop)]
pub struct Callers {
    pub number: u32,
    pub ghost some: { 1 ≤ number },
    pub ghost few: { number ≤ 8 },
}
