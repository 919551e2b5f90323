//! Limits of names, numbers, lists, the journal and the lines.

/// The greatest moment, call id and run number. A counter that reaches it is spent.
pub const NUM_MAX: u64 = 9_007_199_254_740_991;

/// The greatest length of a resource id, a provider, an agent's type and a parameter's name, in bytes.
pub const NAME_LIMIT: usize = 64;

/// The greatest length of a parameter's value, in bytes.
pub const VALUE_LIMIT: usize = 1_024;

/// The greatest number of parameters of a resource.
pub const PARAMS_LIMIT: usize = 64;

/// The timeout of an operation that names none, in milliseconds.
pub const DEFAULT_TIMEOUT: u32 = 20_000;

/// The greatest number of registered resources.
pub const RESOURCES_LIMIT: usize = 256;

/// The greatest number of queued actions of one resource.
pub const QUEUE_LIMIT: usize = 32;

/// The greatest number of recurring monitors of one resource.
pub const RECURRING_LIMIT: usize = 8;

/// The number of results that are kept of one resource: the last ones.
pub const ENDED_KEPT: usize = 64;

/// The greatest length of an operation's key, in bytes.
pub const KEY_LIMIT: usize = 88;

/// The greatest length of an event's encoding, and of a resource's encoded parameters, in bytes.
pub const EVENT_LIMIT: usize = 16_384;

/// The greatest length of a slot's body, in bytes.
pub const BODY_LIMIT: usize = 32_768;

/// The greatest length of a part, in bytes.
pub const PART_LIMIT: u64 = 8_388_608;

/// The space that stays free in a part after each slot except those of results and boots, in bytes.
pub const RESERVE: u64 = 32_768;

/// The length of a head without the gate before it, in bytes: magic, version, epoch, and the length of the snapshot.
pub const BARE_HEAD: usize = 17;

/// The length of a part's first gate and head, in bytes: the offset of its snapshot.
pub const HEAD_LEN: u64 = 18;

/// The length of a slot without its body, in bytes: a gate, and the length of the body. The latter and the next gate together
/// also have this length.
pub const SLOT_FRAME: u64 = 5;

/// The length of an event's encoding without its fields, in bytes: a kind and a moment. A boot has no fields.
pub const EVENT_FRAME: usize = 9;

/// The length of an accepted action's encoding, in bytes: its call, its action, its check and its timeout.
pub const OPERATION_LEN: usize = 15;

/// The length of a recurring monitor's encoding, in bytes: its call, its interval, its timeout and its check.
pub const MONITOR_LEN: usize = 18;

/// The length of a running action's encoding, in bytes: a flag, its call, its run, its action, its check, its timeout, its
/// interval, and the moment at which it began.
pub const RUNNING_LEN: usize = 36;

/// The length of a result's encoding, in bytes: its call, its run, its action, its interval, two moments, and its outcome.
pub const ENDED_LEN: usize = 39;

/// The length of a state's encoding without its resources, in bytes: the next numbers, the clock and a count.
pub const BARE_STATE: usize = 26;

/// The length of a part of a new journal, in bytes: the first gate, the head, the empty state and a gate.
pub const CREATED_LEN: u64 = 45;

/// The greatest length of a command line without its newline, in bytes.
pub const LINE_LIMIT: usize = 131_072;

/// The greatest length of an agent's metadata, in bytes.
pub const METADATA_LIMIT: usize = 65_536;

/// The longest wait at an opening for agent processes that a killed executor left, in milliseconds: a day.
pub const ORPHANS_LIMIT: u64 = 86_400_000;
