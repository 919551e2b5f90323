//! Refusals: their words, numbers and messages.
ghost use Rattle.std.specs.Prelude.{◌≡◌, ◌++◌, OnOk};
ghost use Rattle.exec_commands.specs.Messages.{message_of};
ghost use Rattle.exec_replies.specs.Errors.{error_tokens, message_tokens};
ghost use Rattle.exec_replies.specs.Replies.{refusal_data, refused_data};
ghost use Rattle.exec_replies.specs.Service.{lent};
ghost use Rattle.exec_replies.specs.Tags.{marked_tokens};

use crate::line_tokens::LineTokens;
use crate::marks::Marks;
use exec_commands::{About, LineRefusal, about_key};
use growth::Refused;
use ocf_model::Refusal;

/// Writes a refusal of a `run` session: its word and its number.
#[tactic(auto, using(crate::proofs::WholeLemmas::refusal_whole), unfolding(crate::specs::Tokens::text_member, crate::specs::Tokens::number_member, crate::specs::Tokens::flag_member))]
pub fn put_refusal(line: &mut LineTokens, marks: Marks, why: Refusal) -> Result<(), Refused>
    ensures ok { OnOk result (line.new ≡ line.old ++ marked_tokens marks.entry (refusal_data why)) }
{
    line.begin_object()?;
    line.text("error", why.word())?;
    marks.put_kind(line)?;
    line.number("number", u64::from(why.number()))?;
    marks.put_tag(line)?;
    line.end_object()
}

// The word of a refusal, and the key that it is about, if any.
fn put_error(line: &mut LineTokens, why: Refusal, key: Option<&str>) -> Result<(), Refused>
    ensures ok { OnOk result (line.new ≡ line.old ++ error_tokens why (lent key.entry)) }
{
    line.begin_object()?;
    line.text("error", why.word())?;
    match key {
        Some(key) => line.text("key", key),
        None => Ok(()),
    }
}

// Its message and its number, with the marks of the line.
fn put_message(
    line: &mut LineTokens,
    marks: Marks,
    why: Refusal,
    about: &About,
) -> Result<(), Refused>
    ensures ok { OnOk result (line.new ≡ line.old ++ message_tokens marks.entry why (message_of why about.now)) }
{
    marks.put_kind(line)?;
    line.message(why, about)?;
    line.number("number", u64::from(why.number()))?;
    marks.put_tag(line)?;
    line.end_object()
}

/// Writes a refusal with the key of the line that it is about, if any, and a message.
pub fn put_refused(
    line: &mut LineTokens,
    marks: Marks,
    refusal: &LineRefusal,
) -> Result<(), Refused>
    ensures ok { OnOk result (line.new ≡ line.old ++ marked_tokens marks.entry (refused_data refusal.now)) }
{
    put_error(line, refusal.why, about_key(refusal.why, &refusal.about))?;
    put_message(line, marks, refusal.why, &refusal.about)
}
