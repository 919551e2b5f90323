//! What each line of a `serve` session has besides its answer: its kind, and the tag of the line that is answered.
ghost use Rattle.std.specs.Prelude.{◌≡◌, ◌++◌, OnOk};
ghost use Rattle.exec_replies.specs.Service.{lent};
ghost use Rattle.exec_replies.specs.Tags.{kind_in, tag_in, written_tag};
ghost use Rattle.exec_replies.specs.Tokens.{kind_member, tag_member};

use crate::kind::LineKind;
use crate::line_tokens::LineTokens;
use crate::notice::NoticeForm;
use crate::tagged::Tagged;
use growth::Refused;

/// The kind and the tag that a line is written with.
#[derive(Clone, Copy)]
pub struct Marks<'a> {
    pub kind: Option<LineKind>,
    pub tag: Option<&'a str>,
}

/// The marks of a line of this kind.
pub fn marks_of<'a>(tagged: Tagged<'a>, kind: LineKind) -> Marks<'a>
    ensures kind { result.kind ≡ kind_in tagged.entry.form kind }
    ensures tag { lent result.tag ≡ tag_in tagged.entry.form (written_tag tagged.entry) }
{
    match tagged.form {
        NoticeForm::Short => Marks {
            kind: None,
            tag: None,
        },
        NoticeForm::Timed(_) => Marks {
            kind: Some(kind),
            tag: tagged.tag,
        },
    }
}

impl<'a> Marks<'a> {
    /// Writes the member `kind`, if the line has one.
    pub fn put_kind(self, line: &mut LineTokens) -> Result<(), Refused>
        ensures ok { OnOk result (line.new ≡ line.old ++ kind_member self.entry.kind) }
    {
        match self.kind {
            Some(kind) => line.text("kind", kind.word()),
            None => Ok(()),
        }
    }

    /// Writes the member `tag`, if the line has one.
    pub fn put_tag(self, line: &mut LineTokens) -> Result<(), Refused>
        ensures ok { OnOk result (line.new ≡ line.old ++ tag_member (lent self.entry.tag)) }
    {
        match self.tag {
            Some(tag) => line.text("tag", tag),
            None => Ok(()),
        }
    }
}
