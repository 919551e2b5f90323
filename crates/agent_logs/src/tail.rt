//! The tail of a log, and the offset of its last reason.
ghost use Rattle.std.specs.Prelude.{◌≡◌, ◌<◌, ◌≤◌, ◌+◌, length, IfSome, IsTrue};
ghost use Rattle.agent_logs.specs.Reasons.{begins_line, is_reason_at, last_offset, reason_word};

/// The prefix of a line with a reason.
pub(crate) const WORD: &str = "ocf-exit-reason:";

/// The tail of an agent's log.
#[derive(Clone, Copy)]
pub struct Tail<'a> {
    /// The bytes of the tail.
    pub bytes: &'a [u8],
    /// Whether these are all bytes of the log.
    pub is_whole: bool,
}

impl Tail<'_> {
    // Whether a line begins at an offset.
    fn begins_line(&self, at: usize) -> bool
        requires { at < length self.now.bytes.now }
        ensures { result ≡ begins_line self.now at }
    {
        if at == 0 {
            self.is_whole
        } else {
            self.bytes[at - 1] == b'\n'
        }
    }

    // Whether a line with a reason begins at an offset.
    fn is_reason_at(&self, at: usize) -> bool
        requires { at < length self.now.bytes.now }
        ensures is { result ≡ is_reason_at self.now at }
        ensures bound { IsTrue result → at + length reason_word ≤ length self.now.bytes.now }
    {
        self.begins_line(at) && self.bytes[at..].starts_with(WORD.as_bytes())
    }

    /// The greatest offset at which a line with a reason begins.
    pub(crate) fn last_offset(&self) -> Option<usize>
        ensures last { result ≡ last_offset self.now }
        ensures within { IfSome result
            (λ at. at + length reason_word ≤ length self.now.bytes.now) }
    {
        let mut last = None;
        for at in 0..self.bytes.len() {
            if self.is_reason_at(at) {
                last = Some(at);
            }
        }
        last
    }
}
