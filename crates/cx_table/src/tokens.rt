//! Tokens of rights on replicas. Only a step call hands one out, and it cannot be copied. A caller that was halted lets its
//! tokens go.

ghost use Rattle.std.specs.Prelude.{◌≡◌};

use std::marker::{Model, PhantomData};

/// A right of a kind on a replica. Contracts see the replica, and whose it is.
#[derive(Debug, Drop)]
pub struct Token<K> {
    pub(crate) replica: u32,
    pub(crate) caller: u32,
    pub(crate) kind: PhantomData<K>,
}

impl<K> Model for Token<K> {
    ghost use Rattle.cx_table.specs.Right.{Right};

    ghost Value = { Right };

    ghost view = { λ e. record { replica = e.replica; caller = e.caller } };
}

impl<K> Token<K> {
    /// The token of a right that a step began.
    pub(crate) fn of(replica: u32, caller: u32) -> Token<K>
        ensures { result ≡ record { replica = replica; caller = caller } }
    {
        Token {
            replica,
            caller,
            kind: PhantomData,
        }
    }

    /// The replica.
    pub fn replica(&self) -> u32
        ensures { result ≡ self.now.replica }
    {
        self.replica
    }

    /// The caller, from 0.
    pub fn caller(&self) -> u32
        ensures { result ≡ self.now.caller }
    {
        self.caller
    }
}

/// The right to load and to store, which one caller has alone.
#[derive(Debug, Drop)]
pub struct Alone;

/// The right to load, which several callers have together.
#[derive(Debug, Drop)]
pub struct Together;

/// The mark of a caller that came while another had the replica alone.
#[derive(Debug, Drop)]
pub struct Passing;

/// The right to load of a caller that had the replica alone.
#[derive(Debug, Drop)]
pub struct Lowered;

/// The exclusive right on a replica.
pub type Exclusive = Token<Alone>;

/// A shared right on a replica.
pub type SharedHold = Token<Together>;

/// A passer's mark on a replica, which another holds exclusively.
pub type Passer = Token<Passing>;

/// A shared right on a replica that was held exclusively.
pub type Downgraded = Token<Lowered>;

/// A root code that won and is not retired: a right on the replica of the code before it. Contracts see both codes, and
/// whose it is.
#[derive(Debug, Drop)]
pub struct Won {
    pub(crate) code: u64,
    pub(crate) before: u64,
    pub(crate) caller: u32,
}

impl Model for Won {
    ghost use Rattle.cx_table.specs.Right.{WonRight};

    ghost Value = { WonRight };

    ghost view = { λ e. record { code = e.code; before = e.before; caller = e.caller } };
}

impl Won {
    /// The code that won.
    pub fn code(&self) -> u64
        ensures { result ≡ self.now.code }
    {
        self.code
    }

    /// The code before it.
    pub fn old(&self) -> u64
        ensures { result ≡ self.now.before }
    {
        self.before
    }

    /// The caller, from 0.
    pub fn caller(&self) -> u32
        ensures { result ≡ self.now.caller }
    {
        self.caller
    }
}

/// A right that one step takes back.
#[derive(Debug, Drop)]
pub enum SharedRight {
    Hold(SharedHold),
    Passer(Passer),
    Downgraded(Downgraded),
}
