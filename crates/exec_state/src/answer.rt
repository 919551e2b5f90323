//! Replies to questions.
ghost use Rattle.std.specs.Prelude.{IsTrue, ◌≡◌, map, IfOk};
ghost use Rattle.ocf_model.specs.Answer.{info_of, reply_to};
ghost use Rattle.recurring.specs.Monitors.{recurs};
ghost use Rattle.exec_state.specs.Seen.{seen};
ghost use Rattle.exec_state.specs.Answers.{IsReplyOrMemory};

use crate::registered::Registered;
use crate::state::State;
use arrayvec::ArrayVec;
use growth::{Grows, Refused, push};
use ocf_model::{Info, InfoOf, Items, Refusal, Reply, ReplyOf};
use ocf_types::{CallId, Ended, QUEUE_LIMIT, Question, RECURRING_LIMIT, Recur, RscId};
use op_history::Ops;
use recurring::Recurrings;

/// The results, oldest first.
#[tactic(auto, using(crate::proofs::Choices::take_more_some))]
fn results<A: Grows>(alloc: A, ops: &Ops<A>) -> Result<Vec<Ended, A>, Refused<A>>
    ensures results { IfOk result (λ v. v.items ≡ ops.now.ended) }
{
    let mut results = Vec::new(alloc);
    for at in 0..ops.ended_len() {
        push(&mut results, ops.ended_at(at))?;
    }
    Ok(results)
}

/// The call ids of the queued actions, in order.
#[tactic(auto, using(crate::proofs::Choices::map_more_some))]
fn queued<A: Grows>(ops: &Ops<A>) -> ArrayVec<CallId, { QUEUE_LIMIT }>
    ensures { result.items ≡ map (λ o. o.call) ops.now.queue }
{
    let mut calls = ArrayVec::new_in(());
    for at in 0..ops.queue_len() {
        calls.push(ops.queued_at(at).call);
    }
    calls
}

/// The recurring monitors, in order of acceptance.
fn recurring(monitors: &Recurrings) -> ArrayVec<Recur, { RECURRING_LIMIT }>
    ensures { result.items ≡ recurs monitors.now }
{
    let mut list = ArrayVec::new_in(());
    for at in 0..monitors.len() {
        list.push(monitors.monitor_at(at).recur);
    }
    list
}

impl<A: Grows> Registered<A> {
    /// The info of the resource: its agent, its parameters and its operations.
    fn info(&self, alloc: A, id: &RscId) -> Result<Info<A>, Refused<A>>
        ensures info { IfOk result (λ i. i ≡ info_of id.now (seen self.now)) }
    {
        Ok(InfoOf {
            id: id.copied(),
            provider: self.provider.copied(),
            agent: self.agent.copied(),
            params: self.params.copied(alloc)?,
            queued: queued(&self.ops),
            running: self.ops.running(),
            recurring: recurring(&self.monitors),
            failed: self.ops.failed(),
        })
    }
}

impl<A: Grows> State<A> {
    /// The reply to a question. An unknown resource is refused. A reply that is not a refusal may be replaced by one for lack of
    /// memory.
    pub fn answer(&self, alloc: A, question: &Question) -> Reply<A>
        ensures reply { IsReplyOrMemory (reply_to self.now.state question.now) result }
        ensures memory { result ≡ ReplyOf.Refused Refusal.Memory → IsTrue A.refuses }
    {
        match question {
            Question::List => match self.registry.ids(alloc) {
                Ok(ids) => ReplyOf::List(Items::new(ids)),
                Err(_) => ReplyOf::Refused(Refusal::Memory),
            },
            Question::Info(id) => match self.registry.get(id) {
                Some(resource) => match resource.info(alloc, id) {
                    Ok(info) => ReplyOf::Info(info),
                    Err(_) => ReplyOf::Refused(Refusal::Memory),
                },
                None => ReplyOf::Refused(Refusal::UnknownResource),
            },
            Question::History(id) => match self.registry.get(id) {
                Some(resource) => match results(alloc, &resource.ops) {
                    Ok(results) => ReplyOf::History(Items::new(results)),
                    Err(_) => ReplyOf::Refused(Refusal::Memory),
                },
                None => ReplyOf::Refused(Refusal::UnknownResource),
            },
        }
    }
}
