//! How a line is written, and with which tag.
use crate::notice::NoticeForm;

/// How a line is written: in this form, with this tag, and a notice with this reason. A line of a `run` session has neither.
#[derive(Clone, Copy)]
pub struct Tagged<'a> {
    pub form: NoticeForm<'a>,
    /// The tag of the line that is answered, or of the command whose result is reported.
    pub tag: Option<&'a str>,
    /// Why the action failed, in the words of its agent, if they are known.
    pub reason: Option<&'a str>,
}
