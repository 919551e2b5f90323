//! What was sent, for contracts alone.
ghost use Rattle.std.specs.Prelude.{◌≡◌, List, [], ◌++◌};
ghost use Rattle.std.specs.Borrow.{ftrue};
ghost use Rattle.std.specs.Coded.{codes};
ghost use Rattle.serde_json.specs.contracts.value.Value as json_value;
ghost use Rattle.exec_client.specs.SentItem.{SentItem};

use crate::message::Message;
use std::marker::Model;

/// What was sent, in order.
///
/// It takes no memory when the program runs. So `new` and `with` do nothing then, and are proved by hand.
#[derive(Drop)]
pub struct SentLog {
    pub ghost items: { List SentItem } by { Prim.hlevel (codes, json_value.the_row.coded) },
}

impl Model for SentLog {
    ghost also_owns = { λ _. ftrue };
}

impl SentLog {
    ghost use Rattle.exec_client.specs.MessageView.{message_view};
    ghost use Rattle.exec_client.specs.SentItem.{sent_in};

    /// Nothing was sent.
    pub fn new() -> SentLog
        ensures { result.items ≡ [] }
    {
        SentLog {}
    }

    // The same messages and then this one.
    fn with(&self, what: &Message) -> SentLog
        ensures { result.items ≡ self.now.items ++ sent_in (message_view what.now) }
    {
        SentLog {}
    }

    /// This message is sent next.
    pub fn note(&mut self, what: &Message)
        ensures { self.new.items ≡ self.old.items ++ sent_in (message_view what.now) }
    {
        *self = self.with(what);
    }
}
