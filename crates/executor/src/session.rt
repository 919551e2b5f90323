//! Sessions: many inputs in one call.
ghost use Rattle.std.specs.Prelude.{◌≡◌, ◌++◌, IfErr, IsTrue, OnErr, OnOk, List};
ghost use Rattle.ocf_model.specs.Answer.{Reply};
ghost use Rattle.exec_ledger.specs.Pieces.{Effects};
ghost use Rattle.executor.specs.Sessions.{TakesInputs, TakesWhile};

use crate::On;
use child_model::Children;
use growth::Grows;
use ocf_model::{Reply, ReplyOf};
use ocf_types::{Params, RequestOf};
use std::alloc::Global;
use store_model::Store;

/// An input, at a moment in milliseconds since 1970. `P` is the type of parameters.
#[derive(Drop)]
pub enum InputOf<P> {
    /// A command or a question.
    Request { now: u64, request: RequestOf<P> },
    /// A turn.
    Turn { now: u64 },
}

/// An input whose parameters lie in memory of the allocator.
pub type Input<A = Global> = InputOf<Params<A>>;

impl<S: Store + Drop, C: Children + Drop, A: Grows> On<S, C, A> {
    // Takes one input.
    fn take(&mut self, input: Input<A>) -> Reply<A>
        ensures takes { (effects : Effects)
            × TakesWhile self.old.is_open S.view input self.old self.new result effects }
    {
        match input {
            InputOf::Request { now, request } => self.command(now, request),
            InputOf::Turn { now } => ReplyOf::Turn(self.turn(now)),
        }
    }

    /// Takes inputs one after the other, and appends one reply to each; the reply to a turn says how it ended. Afterwards
    /// `notices` has those of the last turn only.
    ///
    /// Where there is no memory for the replies nothing is done, and the inputs are handed back.
    pub fn session(
        &mut self,
        inputs: Vec<Input<A>, A>,
        replies: &mut Vec<Reply<A>, A>,
    ) -> Result<(), Vec<Input<A>, A>>
        // each input was taken, in order and none left out, with one reply to each
        ensures takes_inputs { OnOk result
            ((given : List Reply) × (replies.new.items ≡ replies.old.items ++ given)
            × TakesInputs S.view inputs.items self.old self.new given) }
        // without memory for the replies nothing was done
        ensures refused { IfErr result
            (λ back. (back ≡ inputs) × (self.new ≡ self.old)
            × (replies.new.items ≡ replies.old.items)) }
        ensures memory { OnErr result (IsTrue A.refuses) }
    {
        S::lemma_lawful();
        self.lemma_known();
        let Ok(()) = A::reserve_for(replies, inputs.as_slice()) else {
            return Err(inputs);
        };
        for input in inputs {
            let reply = self.take(input);
            replies.push_reserved(reply);
        }
        Ok(())
    }
}
