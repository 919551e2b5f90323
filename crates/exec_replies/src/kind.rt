//! The kinds of the lines of a `serve` session.
ghost use Rattle.std.specs.Prelude.{◌≡◌};
ghost use Rattle.exec_replies.specs.LineKinds.{kind_word};

/// The kind of a line of a `serve` session, which its key `kind` names.
#[derive(Clone, Copy)]
pub enum LineKind {
    /// The reply to a line.
    Reply,
    /// A result of a turn.
    Notice,
    /// The session is ready.
    Ready,
    /// A result that the opening recorded, of an action that was interrupted or dropped.
    Report,
    /// A turn that the session made by itself did not end as done.
    Trouble,
}

impl LineKind {
    /// Its word.
    pub fn word(self) -> &'static str
        ensures { result.now ≡ kind_word self }
    {
        match self {
            LineKind::Reply => "reply",
            LineKind::Notice => "notice",
            LineKind::Ready => "ready",
            LineKind::Report => "report",
            LineKind::Trouble => "trouble",
        }
    }
}
