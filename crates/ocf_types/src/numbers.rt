//! Moments, call ids, run numbers and lengths of time.
ghost use Rattle.std.specs.Prelude.{◌≡◌, ◌≤◌, ◌↔◌, min, IsSome, IfSome};
ghost use Rattle.ocf_types.specs.Numbers.{IsMoment, IsDrawn, IsMillis};

use crate::limits::NUM_MAX;
use std::default::MadeWith;
use std::marker::Model;

/// A moment in whole milliseconds, from 0 to [`NUM_MAX`]. The program counts them since 1970.
#[derive(Clone, Copy, PartialEq, Eq, PartialOrd)]
pub struct Moment {
    number: u64,
}

impl Model for Moment {
    ghost use Rattle.std.specs.Prelude.{ℕ};
    ghost use Rattle.ocf_types.specs.Numbers.{IsMoment};

    ghost Value = { ℕ };

    ghost view = { λ n. n.number };

    ghost invariant = { λ n. IsMoment n.number };

    ghost inverse = { λ n. record { number = n } };
}

impl Moment {
    /// The moment of this number of milliseconds: `None` exactly when it is above [`NUM_MAX`].
    pub fn new(number: u64) -> Option<Moment>
        ensures value { IfSome result (λ n. n ≡ number) }
        ensures lawful { IsSome result ↔ IsMoment number }
    {
        if number > NUM_MAX {
            return None;
        }
        Some(Moment { number })
    }

    /// The moment of this number of milliseconds, cut at [`NUM_MAX`].
    pub fn cut(number: u64) -> Moment
        ensures { result ≡ min number NUM_MAX }
    {
        Moment {
            number: number.min(NUM_MAX),
        }
    }

    /// The number of milliseconds.
    pub fn get(self) -> u64
        ensures value { result ≡ self }
        ensures lawful { IsMoment result }
    {
        self.number
    }
}

/// A call id, from 1 to [`NUM_MAX`]: given when an operation is accepted. All runs of a recurring monitor carry its
/// call id.
#[derive(Clone, Copy, PartialEq, Eq, PartialOrd)]
pub struct CallId {
    number: u64,
}

impl Model for CallId {
    ghost use Rattle.std.specs.Prelude.{ℕ};
    ghost use Rattle.ocf_types.specs.Numbers.{IsDrawn};

    ghost Value = { ℕ };

    ghost view = { λ n. n.number };

    ghost invariant = { λ n. IsDrawn n.number };

    ghost inverse = { λ n. record { number = n } };
}

impl CallId {
    /// The call id of this number: `None` exactly when the number is 0 or above [`NUM_MAX`].
    pub fn new(number: u64) -> Option<CallId>
        ensures value { IfSome result (λ n. n ≡ number) }
        ensures lawful { IsSome result ↔ IsDrawn number }
    {
        if number == 0 || number > NUM_MAX {
            return None;
        }
        Some(CallId { number })
    }

    /// The number.
    pub fn get(self) -> u64
        ensures value { result ≡ self }
        ensures lawful { IsDrawn result }
    {
        self.number
    }
}

/// Fills the unused entries of a list of fixed capacity, which contracts do not see.
impl MadeWith<()> for CallId {
    fn made_with(_: ()) -> CallId {
        CallId { number: 1 }
    }
}

/// A run number, from 1 to [`NUM_MAX`]: given when an action begins.
#[derive(Clone, Copy, PartialEq, Eq)]
pub struct RunId {
    number: u64,
}

impl Model for RunId {
    ghost use Rattle.std.specs.Prelude.{ℕ};
    ghost use Rattle.ocf_types.specs.Numbers.{IsDrawn};

    ghost Value = { ℕ };

    ghost view = { λ n. n.number };

    ghost invariant = { λ n. IsDrawn n.number };

    ghost inverse = { λ n. record { number = n } };
}

impl RunId {
    /// The run number of this number: `None` exactly when the number is 0 or above [`NUM_MAX`].
    pub fn new(number: u64) -> Option<RunId>
        ensures value { IfSome result (λ n. n ≡ number) }
        ensures lawful { IsSome result ↔ IsDrawn number }
    {
        if number == 0 || number > NUM_MAX {
            return None;
        }
        Some(RunId { number })
    }

    /// The number.
    pub fn get(self) -> u64
        ensures value { result ≡ self }
        ensures lawful { IsDrawn result }
    {
        self.number
    }
}

/// An interval or a timeout: at least one millisecond.
#[derive(Clone, Copy, PartialEq, Eq)]
pub struct Millis {
    number: u32,
}

impl Model for Millis {
    ghost use Rattle.std.specs.Prelude.{ℕ, ◌≤◌};

    ghost Value = { ℕ };

    ghost view = { λ n. n.number };

    ghost invariant = { λ n. 1 ≤ n.number };

    ghost inverse = { λ n. record { number = n } };
}

impl Millis {
    /// The length of this many milliseconds: `None` exactly when it is 0.
    pub fn new(number: u32) -> Option<Millis>
        ensures value { IfSome result (λ n. n ≡ number) }
        ensures lawful { IsSome result ↔ (1 ≤ number) }
    {
        if number == 0 {
            return None;
        }
        Some(Millis { number })
    }

    /// The number of milliseconds.
    pub fn get(self) -> u32
        ensures value { result ≡ self }
        ensures lawful { IsMillis result }
    {
        self.number
    }
}
