//! Tidies that a session makes by itself.
ghost use Rattle.std.specs.Prelude.{◌≡◌, ◌≤◌, ◌+◌, ◌/◌, ◌^◌, true};
ghost use Rattle.store_model.specs.Calls.{tail_after};
ghost use Rattle.executor.specs.TidyCalls.{TidiesWhile};
ghost use Rattle.session_machine.specs.Room.{MakesRoom, is_at_leisure, is_monitor_due, is_tidy_due};

use crate::pace::Pace;
use child_model::Children;
use executor::On;
use ocf_model::TidyEnd;
use ocf_types::{EVENT_LIMIT, PART_LIMIT, RESERVE};
use session_machine::{Edge, Rules};
use store_model::Store;

// The least gain of a tidy, in bytes: a quarter of a part. One that gains less waits until the tail has grown by that much.
const WORTHWHILE: u64 = 2_097_152;

// The second mark: past it a tidy is made even if something waits for it. At the mark a part still has its reserve and space for seventy
// of the longest events, more than a group commit and a turn need.
const SECOND_MARK: u64 = PART_LIMIT - RESERVE - 70 * EVENT_LIMIT as u64;

// The size of a piece of a tidy, in bytes.
const PIECE: u64 = 4_096;

// The microseconds in a millisecond.
const MILLI: u64 = 1_000;

// At least as many pieces as a tidy would write, and at most one more.
fn pieces<S: Store + Drop, C: Children + Drop>(executor: &On<S, C>) -> u64
    ensures value { result ≡ tail_after executor.now.state / 4096 + 1 }
    ensures few { result ≤ 2 ^ 52 }
{
    executor.tidied_tail() / PIECE + 1
}

// Whether a monitor is due within this many milliseconds from this time, or was due before.
fn is_monitor_due<S: Store + Drop, C: Children + Drop>(
    executor: &On<S, C>,
    now: u64,
    lasts: u64,
) -> bool
    ensures { result ≡ is_monitor_due executor.now now lasts }
{
    match executor.first_due() {
        Some(due) => due.saturating_sub(now) <= lasts,
        None => false,
    }
}

// Whether nothing would have to wait for a tidy of this many milliseconds from this time on.
fn is_at_leisure<S: Store + Drop, C: Children + Drop>(
    executor: &On<S, C>,
    now: u64,
    lasts: u64,
) -> bool
    ensures { result ≡ is_at_leisure executor.now now lasts }
{
    executor.idle() && !is_monitor_due(executor, now, lasts)
}

// Whether the tail is past the first mark, or past the second one if that is lower, and a tidy is worthwhile, and either nothing would
// wait for it or the tail is past the second mark.
fn is_tidy_due<S: Store + Drop, C: Children + Drop>(
    rules: Rules,
    executor: &On<S, C>,
    now: u64,
    pace: u64,
) -> bool
    requires pace { pace ≤ 1000 }
    ensures { result ≡ is_tidy_due S.view rules.entry executor.now now pace }
{
    let tail = executor.tail();
    if rules.tidy_at == 0 || tail <= rules.tidy_at.min(SECOND_MARK) {
        return false;
    }
    if tail.saturating_sub(executor.tidied_tail()) < WORTHWHILE {
        return false;
    }
    SECOND_MARK < tail || is_at_leisure(executor, now, pace * pieces(executor))
}

// Tidies the store, and records how long a piece of that took.
fn tidy_timed<E: Edge + Drop>(
    edge: &E,
    pace: &mut Pace,
    executor: &mut On<E::Store, E::Children>,
) -> TidyEnd
    ensures tidies { TidiesWhile executor.old.is_open E.Store.view executor.old executor.new result }
{
    let pieces = pieces(executor);
    let begun = edge.micros();
    let end = executor.tidy_at_once();
    pace.took(edge.micros().saturating_sub(begun) / MILLI, pieces);
    end
}

/// Tidies the store if that is due at this time. Whether the executor is open then: a fault of the device closes it.
pub fn make_room<E: Edge + Drop>(
    edge: &E,
    pace: &mut Pace,
    executor: &mut On<E::Store, E::Children>,
    now: u64,
) -> bool
    requires open { executor.old.is_open ≡ true }
    ensures makes { MakesRoom E.Store.view
        (E.trace edge.now).state.rules now executor.old executor.new }
    ensures value { result ≡ executor.new.is_open }
{
    if !is_tidy_due(edge.rules(), executor, now, pace.each()) {
        return true;
    }
    tidy_timed(edge, pace, executor);
    executor.is_open()
}
