//! The wait after a turn of a session in `serve`.
ghost use Rattle.std.specs.Prelude.{◌≡◌, ◌≤◌, ◌<◌, ◌*◌, [], false, OnOk, true};
ghost use Rattle.session_machine.specs.May.{MayWait};
ghost use Rattle.session_machine.specs.Session.{lines_in};
ghost use Rattle.exec_session.specs.Held.{held_lines};
ghost use Rattle.exec_session.specs.Standing.{Continues, KnowsTurn, SameRest};
ghost use Rattle.exec_session.specs.Waits.{HasWaited, MayWaitNow, OnlyShows, WaitsOn};

use crate::session::Session;
use session_machine::{Edge, Failed};

// The longest wait while nothing is queued or running, in milliseconds.
const LONGEST_WAIT: u32 = 1_000;

// How long to poll the input, in milliseconds, in a wait of this many microseconds.
fn poll_millis(micros: u64) -> u32
    ensures part { result * 1000 ≤ micros }
    ensures some { 1000 ≤ micros → 0 < result }
{
    (micros / 1_000).min(u64::from(LONGEST_WAIT)) as u32
}

impl<E: Edge + Drop> Session<E> {
    // How long to wait for input after a turn, in microseconds: 0 if an action ended or began in it; while nothing is queued or
    // running, until the next monitor is due, and a second at most; else, and if a monitor is due already, a short pause.
    fn wait_micros(&mut self) -> u64
        requires may { MayWaitNow self.old.trace.state }
        requires knows { KnowsTurn self.old }
        ensures rest { SameRest self.old self.new }
        ensures shown { OnlyShows self.old.trace self.new.trace }
        ensures may { MayWait self.new.trace.state result }
        ensures some { self.old.pause.is_stirred ≡ false → 0 < result }
    {
        let micros = self.pause.length(self.edge.micros(), self.executor.idle());
        if micros == 0 || !self.executor.idle() {
            return micros;
        }
        let now = self.edge.now();
        match self.executor.first_due() {
            Some(due) if due <= now => micros,
            Some(due) => 1_000 * (due - now).min(u64::from(LONGEST_WAIT)),
            None => 1_000 * u64::from(LONGEST_WAIT),
        }
    }

    // Waits until a line is there, an action may have ended, or a monitor is due.
    fn wait_for_line(&mut self)
        requires may { MayWaitNow self.old.trace.state }
        requires free { lines_in self.old.trace.state ≡ [] }
        requires knows { KnowsTurn self.old }
        ensures rest { SameRest self.old self.new }
        ensures waited { HasWaited self.old.trace self.new.trace }
        ensures woken { self.new.trace.state.own.woken ≡ true }
    {
        let micros = self.wait_micros();
        if micros < 1_000 {
            self.rest(micros);
        } else {
            self.edge.poll(poll_millis(micros));
        }
    }

    // Pauses in a wait; does nothing for 0.
    fn rest(&mut self, micros: u64)
        requires may { MayWait self.old.trace.state micros }
        ensures rest { SameRest self.old self.new }
        ensures waited { HasWaited self.old.trace self.new.trace }
        ensures woken { 0 < micros → self.new.trace.state.own.woken ≡ true }
    {
        if micros > 0 {
            self.edge.rest(micros);
        }
    }

    /// Waits until a line is there, an action may have ended, or a monitor is due, a second at most. While a line is held, it does
    /// not poll for lines, and pauses only as long as between two turns of a watch. Fails if nobody reads the output any more.
    pub fn wait(&mut self) -> Result<(), Failed>
        requires may { MayWaitNow self.old.trace.state }
        requires knows { KnowsTurn self.old }
        requires in_hand { lines_in self.old.trace.state ≡ held_lines self.old.pending.held }
        ensures continues { Continues self.old.trace self.new.trace result }
        ensures waits { OnOk result (WaitsOn self.old self.new) }
    {
        let holds = self.pending.held.is_some();
        self.pause.holds(holds);
        if holds {
            let micros = self.pause.length(self.edge.micros(), self.executor.idle());
            self.rest(micros);
        } else {
            self.wait_for_line();
        }
        if self.edge.has_reader() {
            Ok(())
        } else {
            Err(Failed)
        }
    }
}
