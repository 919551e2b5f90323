//! The rules of a session.
use exec_replies::NoticeForm;

/// The mode of a session.
#[derive(Clone, Copy)]
pub enum Mode {
    /// Answers lines; turns are made only in drains and watches.
    Run,
    /// Also makes turns by itself: one after at most 64 reads, and others while no line is there.
    Serve,
}

/// The rules of a session.
#[derive(Clone, Copy)]
pub struct Rules<'a> {
    pub mode: Mode,
    /// The form of notices.
    pub form: NoticeForm<'a>,
    /// The most turns of a drain, which makes at least one.
    pub most_turns: u64,
    /// An offset in bytes; 0 for never. Once the journal's tail, the offset of the next record in the current part, is past it
    /// or the part is nearly full, a session tidies by itself if that frees at least a quarter of a part, and either nothing
    /// would have to wait for it or the part is nearly full.
    pub tidy_at: u64,
}
