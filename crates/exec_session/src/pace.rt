//! How fast a session tidies.
ghost use Rattle.std.specs.Prelude.{◌≤◌};

// The least time of a piece that is assumed, in milliseconds.
const FASTEST: u64 = 1;

// The greatest, in milliseconds.
const SLOWEST: u64 = 1_000;

/// How long a piece of a tidy takes: measured in the last tidy, or assumed before the first.
#[derive(Drop)]
pub struct Pace {
    // in milliseconds
    each: u64,
}

impl Pace {
    /// No tidy was made yet: the fastest is assumed, since all pieces share one sync.
    pub fn new() -> Pace {
        Pace { each: FASTEST }
    }

    /// The time of a piece, in milliseconds.
    pub fn each(&self) -> u64
        ensures least { 1 ≤ result }
        ensures most { result ≤ 1000 }
    {
        self.each.clamp(FASTEST, SLOWEST)
    }

    /// Records that a tidy of this many pieces took this many milliseconds.
    pub fn took(&mut self, millis: u64, pieces: u64) {
        self.each = millis / pieces.max(1);
    }
}
