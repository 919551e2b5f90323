//! Refusals.
ghost use Rattle.std.specs.Prelude.{◌≡◌};
ghost use Rattle.ocf_model.specs.Refusals.{refusal_row};

/// Why a command or a question was refused. Replies carry the word and the number.
#[derive(Clone, Copy, PartialEq, Eq)]
pub enum Refusal {
    /// The line is not a JSON object with a text `op` and the keys that it needs.
    Syntax,
    /// There is no such `op`.
    UnknownOp,
    /// A resource id, provider, type or parameter's name is not allowed.
    BadName,
    /// A value lies outside its range.
    BadValue,
    /// No resource of this id is registered.
    UnknownResource,
    /// A resource of this id is registered already.
    Exists,
    /// The resource has a recurring monitor of this interval already; the word and the number are those of [`Refusal::Exists`].
    Recurs,
    /// An action of the resource is queued or running.
    Busy,
    /// [`QUEUE_LIMIT`](ocf_types::QUEUE_LIMIT) actions of the resource are queued already.
    QueueFull,
    /// The resource has [`RECURRING_LIMIT`](ocf_types::RECURRING_LIMIT) recurring monitors already.
    RecurringFull,
    /// The resource has no recurring monitor of this interval.
    NoSuchRecurring,
    /// No action of this call is queued.
    NotQueued,
    /// [`RESOURCES_LIMIT`](ocf_types::RESOURCES_LIMIT) resources are registered already.
    TooManyResources,
    /// The parameters are too large to be recorded.
    TooLarge,
    /// All call ids are used up.
    CallsSpent,
    /// The journal is full; a tidy frees space.
    JournalFull,
    /// Out of memory.
    Memory,
    /// The journal's device failed; the journal has to be opened again.
    Disk,
    /// The executor is closed; the journal has to be opened again.
    Closed,
}

impl Refusal {
    /// The number and the word.
    fn row(self) -> (u8, &'static str)
        ensures number { result.0 ≡ (refusal_row self).0 }
        ensures word { result.1.now ≡ (refusal_row self).1 }
    {
        match self {
            Refusal::Syntax => (1, "syntax"),
            Refusal::UnknownOp => (2, "unknown-op"),
            Refusal::BadName => (3, "bad-name"),
            Refusal::BadValue => (4, "bad-value"),
            Refusal::UnknownResource => (5, "unknown-resource"),
            Refusal::Exists | Refusal::Recurs => (6, "exists"),
            Refusal::Busy => (7, "busy"),
            Refusal::QueueFull => (8, "queue-full"),
            Refusal::RecurringFull => (9, "recurring-full"),
            Refusal::NoSuchRecurring => (10, "no-such-recurring"),
            Refusal::NotQueued => (18, "not-queued"),
            Refusal::TooManyResources => (11, "too-many-resources"),
            Refusal::TooLarge => (12, "too-large"),
            Refusal::CallsSpent => (13, "calls-spent"),
            Refusal::JournalFull => (14, "journal-full"),
            Refusal::Memory => (15, "memory"),
            Refusal::Disk => (16, "disk"),
            Refusal::Closed => (17, "closed"),
        }
    }

    /// The number that a reply gives, from 1 to 18.
    pub fn number(self) -> u8
        ensures { result ≡ (refusal_row self).0 }
    {
        self.row().0
    }

    /// The word that a reply gives.
    pub fn word(self) -> &'static str
        ensures { result.now ≡ (refusal_row self).1 }
    {
        self.row().1
    }
}
