//! The event of a command, or its refusal.
ghost use Rattle.std.specs.Prelude.{◌≡◌, length, nat_lt, Ok, Err, if◌then◌else◌};
ghost use Rattle.ocf_types.specs.Encoding.{encoded_event};
ghost use Rattle.ocf_model.specs.Answer.{event_of};
ghost use Rattle.ocf_types.specs.declared.command.CommandOf.TheVariants as command;

use crate::state::State;
use growth::Grows;
use ocf_model::Refusal;
use ocf_types::{
    CallId, Change, Check, Command, CommandOf, EVENT_LIMIT, Event, EventOf, Millis, NUM_MAX, Op,
    Params, QUEUE_LIMIT, Recur, Registration, RscId, Step, Task,
};

/// The event, unless it is too large to be recorded.
fn unless_too_large<A: Grows>(event: Event<A>) -> Result<Event<A>, Refusal>
    ensures { result ≡ (if nat_lt EVENT_LIMIT (length (encoded_event event))
        then Err Refusal.TooLarge else Ok event) }
{
    if event.encoded_len() > EVENT_LIMIT {
        return Err(Refusal::TooLarge);
    }
    Ok(event)
}

impl<A: Grows> State<A> {
    /// The event that the command asks for at that moment, in milliseconds since 1970, or the first refusal that it
    /// meets. It takes no memory: parameters are moved into the event.
    pub fn check(&self, now: u64, command: Command<A>) -> Result<Event<A>, Refusal>
        ensures { result ≡ event_of self.now.state now command }
    {
        match command {
            CommandOf::Register(registration) => self.check_register(now, registration),
            CommandOf::Unregister(id) => self.check_unregister(now, id),
            CommandOf::SetParams { id, params } => self.check_params(now, id, params),
            CommandOf::Exec { id, task, timeout } => self.check_exec(now, id, task, timeout),
            CommandOf::Recur {
                id,
                interval,
                timeout,
                check,
            } => self.check_recur(now, id, interval, timeout, check),
            CommandOf::Cancel { id, interval } => self.check_cancel(now, id, interval),
            CommandOf::Forget(id) => self.check_forget(now, id),
            CommandOf::Withdraw { id, call } => self.check_withdraw(now, id, call),
        }
    }

    fn check_register(
        &self,
        now: u64,
        registration: Registration<Params<A>>,
    ) -> Result<Event<A>, Refusal>
        ensures { result ≡ event_of self.now.state now (command.Register registration) }
    {
        if self.registry.contains(&registration.id) {
            return Err(Refusal::Exists);
        }
        if self.registry.is_full() {
            return Err(Refusal::TooManyResources);
        }
        let at = self.moment(now);
        let change = Change::Register(registration);
        unless_too_large(EventOf { at, change })
    }

    fn check_unregister(&self, now: u64, id: RscId) -> Result<Event<A>, Refusal>
        ensures { result ≡ event_of self.now.state now (command.Unregister id) }
    {
        let Some(resource) = self.registry.get(&id) else {
            return Err(Refusal::UnknownResource);
        };
        if resource.ops.is_busy() {
            return Err(Refusal::Busy);
        }
        let at = self.moment(now);
        let change = Change::Unregister(id);
        Ok(EventOf { at, change })
    }

    fn check_params(&self, now: u64, id: RscId, params: Params<A>) -> Result<Event<A>, Refusal>
        ensures { result ≡ event_of self.now.state now (command.SetParams id params) }
    {
        if !self.registry.contains(&id) {
            return Err(Refusal::UnknownResource);
        }
        let at = self.moment(now);
        let change = Change::Step(id, Step::SetParams(params));
        unless_too_large(EventOf { at, change })
    }

    fn check_exec(
        &self,
        now: u64,
        id: RscId,
        task: Task,
        timeout: Millis,
    ) -> Result<Event<A>, Refusal>
        ensures { result ≡ event_of self.now.state now (command.Exec id task timeout) }
    {
        let Some(resource) = self.registry.get(&id) else {
            return Err(Refusal::UnknownResource);
        };
        if resource.ops.queue_len() >= QUEUE_LIMIT {
            return Err(Refusal::QueueFull);
        }
        if self.next_call.get() == NUM_MAX {
            return Err(Refusal::CallsSpent);
        }
        let at = self.moment(now);
        let call = self.next_call;
        let op = Op {
            call,
            task,
            timeout,
        };
        let change = Change::Step(id, Step::Exec(op));
        Ok(EventOf { at, change })
    }

    fn check_recur(
        &self,
        now: u64,
        id: RscId,
        interval: Millis,
        timeout: Millis,
        check: Check,
    ) -> Result<Event<A>, Refusal>
        ensures { result ≡ event_of self.now.state now (command.Recur id interval timeout check) }
    {
        let Some(resource) = self.registry.get(&id) else {
            return Err(Refusal::UnknownResource);
        };
        if resource.has_interval(interval) {
            return Err(Refusal::Recurs);
        }
        if resource.is_full() {
            return Err(Refusal::RecurringFull);
        }
        if self.next_call.get() == NUM_MAX {
            return Err(Refusal::CallsSpent);
        }
        let at = self.moment(now);
        let call = self.next_call;
        let recur = Recur {
            call,
            interval,
            timeout,
            check,
        };
        let change = Change::Step(id, Step::Recur(recur));
        Ok(EventOf { at, change })
    }

    fn check_cancel(&self, now: u64, id: RscId, interval: Millis) -> Result<Event<A>, Refusal>
        ensures { result ≡ event_of self.now.state now (command.Cancel id interval) }
    {
        let Some(resource) = self.registry.get(&id) else {
            return Err(Refusal::UnknownResource);
        };
        if !resource.has_interval(interval) {
            return Err(Refusal::NoSuchRecurring);
        }
        let at = self.moment(now);
        let change = Change::Step(id, Step::Cancel(interval));
        Ok(EventOf { at, change })
    }

    fn check_forget(&self, now: u64, id: RscId) -> Result<Event<A>, Refusal>
        ensures { result ≡ event_of self.now.state now (command.Forget id) }
    {
        if !self.registry.contains(&id) {
            return Err(Refusal::UnknownResource);
        }
        let at = self.moment(now);
        let change = Change::Step(id, Step::Forget);
        Ok(EventOf { at, change })
    }

    fn check_withdraw(&self, now: u64, id: RscId, call: CallId) -> Result<Event<A>, Refusal>
        ensures { result ≡ event_of self.now.state now (command.Withdraw id call) }
    {
        let Some(resource) = self.registry.get(&id) else {
            return Err(Refusal::UnknownResource);
        };
        if resource.ops.queued_of(call).is_none() {
            return Err(Refusal::NotQueued);
        }
        let at = self.moment(now);
        let change = Change::Step(id, Step::Withdraw(call));
        Ok(EventOf { at, change })
    }
}
