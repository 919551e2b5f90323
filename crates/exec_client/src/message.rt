//! Messages: what a client is sent by one call.
ghost use Rattle.std.specs.Prelude.{◌≡◌};
ghost use Rattle.exec_client.specs.MessageView.{Turn, message_view};
ghost use Rattle.exec_client.specs.declared.message.Message.TheVariants.{Notices};

use child_model::{Children, Entry};
use exec_replies::LineReply;
use executor::On;
use ocf_model::Reply;
use ocf_types::Notice;
use store_model::Store;

/// The notices of a turn, and what the agent processes had answered by its end. The signal that ended a run is found there, since the
/// journal does not record it.
#[derive(Clone, Copy)]
pub struct TurnNotices<'a> {
    pub notices: &'a [Notice],
    pub book: &'a [Entry],
}

impl<'a> TurnNotices<'a> {
    /// The notices of the executor's last turn.
    pub fn of_executor<S: Store + Drop, C: Children + Drop>(
        executor: &'a On<S, C>,
    ) -> TurnNotices<'a>
        ensures items { message_view (Notices result) ≡ Turn executor.now.children.book executor.now.reported }
    {
        TurnNotices {
            notices: executor.notices(),
            book: executor.book(),
        }
    }
}

/// A message: what a client is sent by one call.
#[derive(Clone, Copy)]
pub enum Message<'a> {
    /// The reply to a line.
    Reply(&'a LineReply),
    /// The replies to commands that arrived together.
    Replies(&'a [Reply]),
    /// The notices of a turn.
    Notices(TurnNotices<'a>),
    /// A line that answers no line: how a turn of its own ended, or that the session is ready.
    News(&'a LineReply),
    /// The report of the opening, or a part of it.
    Report(&'a [Notice]),
}
