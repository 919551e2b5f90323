//! The limits of a session that no option sets.
ghost use Rattle.std.specs.Prelude.{◌≡◌};

use ocf_types::RESOURCES_LIMIT;

/// Capacity of the agents' book of answers: three for each resource that can be registered, as a turn needs.
pub const BOOK_ROOM: usize = 3 * RESOURCES_LIMIT;

/// The most turns of a drain.
pub const MOST_TURNS: u64 = 100_000_000;
