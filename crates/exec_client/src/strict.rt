//! A client that passes messages to another client, and notes whether one of them says that a line was not done or an action failed.
ghost use Rattle.std.specs.Prelude.{◌≡◌, []};
ghost use Rattle.exec_client.specs.Failures.{tell_failure};

use crate::client::Client;
use crate::failures::tells_failure;
use crate::message::Message;
use child_model::Children;
use exec_commands::Tag;
use exec_lines::IoFault;
use exec_replies::NoticeForm;
use executor::On;
use growth::Refused;
use resource_status::RunReason;
use std::marker::{Model, PhantomData};
use store_model::Store;

/// A client that passes each message to another client, and notes whether one of them said that a line was not done or that an action
/// failed.
#[derive(Drop)]
pub struct Strict<S: Store + Drop, C: Children + Drop, T: Client<S, C>> {
    client: T,
    has_failed: bool,
    of: PhantomData<(S, C)>,
}

impl<S: Store + Drop, C: Children + Drop, T: Client<S, C>> Model for Strict<S, C, T> {
    ghost use Rattle.std.specs.Prelude.{◌≡◌};
    ghost use Rattle.std.specs.Coded.{codes};
    ghost use Rattle.serde_json.specs.contracts.value.Value as json_value;
    ghost use Rattle.exec_client.specs.ClientView.{ClientView};
    ghost use Rattle.exec_client.specs.Failures.{tell_failure};

    ghost Value = { ClientView S };

    ghost coded = { Prim.hlevel (codes, json_value.the_row.coded) };

    ghost view = { λ s. T.client_view s.client };

    ghost invariant = { λ s. s.has_failed ≡ tell_failure (T.client_view s.client).reported };
}

impl<S: Store + Drop, C: Children + Drop, T: Client<S, C>> Strict<S, C, T> {
    /// A client over another one, which was sent nothing yet.
    pub fn new(client: T) -> Strict<S, C, T>
        requires fresh { (T.client_view client).reported ≡ [] }
        ensures { result ≡ T.client_view client }
    {
        Strict {
            client,
            has_failed: false,
            of: PhantomData,
        }
    }

    /// Whether one of the messages so far said that a line was not done or that an action failed.
    pub fn has_failed(&self) -> bool
        ensures { result ≡ tell_failure self.now.reported }
    {
        self.has_failed
    }
}

impl<S: Store + Drop, C: Children + Drop, T: Client<S, C>> Client<S, C> for Strict<S, C, T> {
    ghost client_view = { λ s. s };

    fn send(
        &mut self,
        executor: &On<S, C>,
        form: NoticeForm,
        what: &Message,
    ) -> Result<(), IoFault> {
        self.has_failed = self.has_failed || tells_failure(what);
        self.client.send(executor, form, what)
    }

    fn note_tag(&mut self, tag: Option<Tag>) -> Result<(), Refused> {
        self.client.note_tag(tag)
    }

    fn failure_reasons(&self, executor: &On<S, C>) -> Vec<RunReason> {
        self.client.failure_reasons(executor)
    }

    fn has_reader(&mut self) -> bool {
        self.client.has_reader()
    }
}
