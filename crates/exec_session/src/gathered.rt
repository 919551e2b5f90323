//! Commands that wait to be answered together.
ghost use Rattle.std.specs.Prelude.{◌≡◌, ◌≤◌, ◌<◌, ◌==◌, [], ◌∷◌, ◌++◌, length, replicate, vec_len, vec_capacity, IfOk};
ghost use Rattle.ocf_model.specs.declared.refusal.Refusal.TheVariants.{Disk};
ghost use Rattle.ocf_model.specs.declared.reply.ReplyOf.TheVariants.{Refused};
ghost use Rattle.executor.specs.CommandBatches.{TakesCommands};
ghost use Rattle.session_machine.specs.Limits.{most_together};

use child_model::Children;
use executor::On;
use growth::with_capacity;
use ocf_model::{Refusal, Reply};
use ocf_types::Command;
use std::alloc::Global;
use store_model::Store;

// The most commands of a group commit.
const MOST: usize = 64;

/// Commands that were read and wait to be answered together. All their memory is reserved at the start.
#[derive(Drop)]
pub struct Gathered {
    commands: Vec<Command>,
    // The last replies.
    replies: Vec<Reply>,
    ghost few: { vec_len commands ≤ most_together },
    ghost commands_room: { most_together ≤ vec_capacity commands },
    ghost replies_room: { most_together ≤ vec_capacity replies },
}

impl Gathered {
    ghost use Rattle.exec_session.specs.Gathered.{replied, waiting};

    /// No command waits. Reserves all memory.
    pub fn new(alloc: Global) -> Result<Gathered, growth::Refused>
        ensures empty { IfOk result (λ gathered. waiting gathered ≡ []) }
    {
        let commands = with_capacity(alloc, MOST)?;
        let replies = with_capacity(alloc, MOST)?;
        Ok(Gathered { commands, replies })
    }

    /// Whether no command waits.
    pub fn is_empty(&self) -> bool
        ensures { result ≡ (length (waiting self.now) == 0) }
    {
        self.commands.is_empty()
    }

    /// Whether as many wait as a group commit may have.
    pub fn is_full(&self) -> bool
        ensures { result ≡ (length (waiting self.now) == most_together) }
    {
        self.commands.len() == MOST
    }

    /// Queues a command after the others.
    pub fn push(&mut self, command: Command)
        requires { length (waiting self.old) < most_together }
        ensures { waiting self.new ≡ waiting self.old ++ command ∷ [] }
    {
        self.commands.push_reserved(command);
    }

    /// The last replies.
    pub fn replies(&self) -> &[Reply]
        ensures { result.now ≡ replied self.now }
    {
        self.replies.as_slice()
    }

    /// Refuses each command for the disk.
    pub fn refuse_all(&mut self)
        ensures replies { replied self.new ≡ replicate (length (waiting self.old)) (Refused Disk) }
        ensures none { waiting self.new ≡ [] }
    {
        self.replies.clear();
        for _count in 0..self.commands.len() {
            self.replies.push_reserved(Reply::Refused(Refusal::Disk));
        }
        self.commands.clear();
    }

    /// Has an executor do what the commands ask, as one group commit, at this time in milliseconds since 1970.
    pub fn take_all<S: Store + Drop, C: Children + Drop>(
        &mut self,
        executor: &mut On<S, C>,
        now: u64,
    )
        ensures takes { TakesCommands S.view now (waiting self.old) executor.old executor.new
            (replied self.new) }
        ensures none { waiting self.new ≡ [] }
    {
        self.replies.clear();
        executor.commands(now, &mut self.commands, &mut self.replies);
    }
}
