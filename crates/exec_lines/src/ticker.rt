//! The clock of a session, as those see it who read it and pause by it.
ghost use Rattle.std.specs.Prelude.{◌≡◌, ◌++◌, [], ◌∷◌, List};
ghost use Rattle.ocf_types.specs.Numbers.{IsMoment};
ghost use Rattle.exec_lines.specs.Tickers.{TickerEvent};
ghost use Rattle.exec_lines.specs.Tickers.TickerEvent.{Shown, Rested};

/// A clock that can be read and paused by. It logs what it was asked.
pub trait Ticker {
    ghost asked: { Self → List TickerEvent };

    /// A reading, in milliseconds since 1970.
    fn now(&mut self) -> u64
        ensures moment { IsMoment result }
        ensures asked { asked self.new ≡ asked self.old ++ Shown result ∷ [] };

    /// Pauses for this many microseconds.
    fn rest(&mut self, micros: u64)
        ensures asked { asked self.new ≡ asked self.old ++ Rested micros ∷ [] };

    /// The time since an arbitrary start, in microseconds, to measure with; 0 where it cannot be read. It is not logged.
    fn micros(&self) -> u64;
}
