//! Which messages say that a line was not done or that an action failed.
ghost use Rattle.std.specs.Prelude.{◌≡◌};
ghost use Rattle.std.specs.List.{list_any};
ghost use Rattle.ocf_types.specs.Expected.{is_failure};
ghost use Rattle.exec_client.specs.MessageView.{message_view};
ghost use Rattle.exec_client.specs.SentItem.{sent_in};
ghost use Rattle.exec_client.specs.Failures.{is_refused, is_undone, tell_failure};

use crate::message::Message;
use exec_replies::{DrainEnd, LineReply};
use ocf_codes::is_failure;
use ocf_model::{Reply, TidyEnd};
use ocf_types::Notice;

fn is_refused(reply: &Reply) -> bool
    ensures { result ≡ is_refused reply.now }
{
    matches!(reply, Reply::Refused(_))
}

fn any_refused(replies: &[Reply]) -> bool
    ensures { result ≡ list_any is_refused replies.now }
{
    replies.iter().any(|reply| is_refused(reply))
}

fn any_failure(notices: &[Notice]) -> bool
    ensures { result ≡ list_any is_failure notices.now }
{
    notices.iter().any(|notice| is_failure(notice))
}

// Whether the line of this reply was refused, or not done.
fn is_undone(reply: &LineReply) -> bool
    ensures { result ≡ is_undone reply.now }
{
    match reply {
        LineReply::Request(reply) => is_refused(reply),
        LineReply::Drain(end) => !matches!(end, DrainEnd::Idle | DrainEnd::Limit),
        LineReply::Tidy(end) => !matches!(end, TidyEnd::Done),
        LineReply::Meta(metadata) => metadata.is_err(),
        LineReply::Refused(_) | LineReply::Version | LineReply::Status(_) => true,
        LineReply::Trouble(_) | LineReply::Left | LineReply::Ready(_) => false,
    }
}

/// Whether a message says that a line was not done, or that an action failed.
#[tactic(auto, using(crate::proofs::FailureLemmas::tell_replies, crate::proofs::FailureLemmas::tell_turn, crate::proofs::FailureLemmas::tell_report))]
pub fn tells_failure(what: &Message) -> bool
    ensures { result ≡ tell_failure (sent_in (message_view what.now)) }
{
    match what {
        Message::Reply(reply) | Message::News(reply) => is_undone(reply),
        Message::Replies(replies) => any_refused(replies),
        Message::Notices(turn) => any_failure(turn.notices),
        Message::Report(notices) => any_failure(notices),
    }
}
