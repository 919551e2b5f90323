//! The system's processes.
ghost use Rattle.std.specs.Prelude.{◌≡◌, ◌≤◌, Contains, IfOk, length, option_map};
ghost use Rattle.std.specs.Result.{result_ok};
ghost use Rattle.agent_system.specs.Commands.{leader_of};
ghost use Rattle.agent_system.specs.Histories.{IsHistory};
ghost use Rattle.agent_system.specs.May.{IsChildAt, IsOverAt, MayKeepAt, MaySignal, MaySpawn};
ghost use Rattle.agent_system.specs.SystemView.{SystemView, after_adopt, after_ask, after_give_up, after_keep, after_let_run, after_list, after_look, after_members, after_open, after_poll, after_reap, after_release, after_send, after_spawn, entries_of, process_in, started};
ghost use Rattle.agent_system.specs.declared.agent_process.AgentProcess.{AgentProcess};
ghost use Rattle.agent_system.specs.declared.signal.Signal.TheVariants.{Kill};
ghost use Rattle.agent_system.specs.declared.signal.Target.TheVariants as target;

use crate::agent_process::{AgentProcess, Whose};
use crate::leading::Leading;
use crate::signal::{Signal, Target};
use crate::waited::Waited;
use agents_file::{AgentEntry, Kept};
use ocf_env::{Invocation, Launch};
use proc_files::Process;
use std::alloc::{Allocator, Global};
use std::io::{self, Read};
use std::process::{ExitStatus, Stdio};
use store_model::Store;

/// How an agent's process is spawned: by which program, if by one, and where it writes.
#[derive(Drop)]
pub struct How<'a, B: Allocator = Global> {
    pub leading: &'a Leading<B>,
    pub output: Stdio,
    pub errors: Stdio,
}

/// The record of who runs, as it was when it was opened.
#[derive(Drop)]
pub struct OpenedRecord {
    /// The entries of this boot of the system.
    pub entries: Vec<Kept>,
    /// Whether something had the file's name that is no such file, and was replaced. The file of another boot is one.
    pub was_foreign: bool,
}

/// The system's processes, as those who start and end agents see them.
///
/// Its view has all that was asked, in order, and the answers. A call says how it changes the view, so code that is proved for all
/// systems asks for exactly what its contract says. What may be spawned, signalled and forgotten is a precondition. So a view is always
/// one that such calls reach from when nothing was asked (`lemma_history`), and the laws of histories hold of it (`laws`).
///
/// An agent's process is spawned (`spawn`, or `ask` for one that is no run's), let run, and polled. It lives until a poll shows its end, or
/// until it is given up. What was given up is listed by index, in the order in which that happened: it may be signalled, is reaped, and is
/// released when nothing of it is left. `give_up`, `adopt`, `keep` and `release` ask the system for nothing: they say what is meant by the
/// calls after them.
pub trait AgentSystem {
    /// The process of an agent that was spawned and not reaped.
    type Child: Drop;

    /// The standard output of such a process, if it is a pipe.
    type Output: Read + Waited + Drop;

    ghost view: { Self → SystemView };

    ghost process_of: { Self.Child → AgentProcess };

    /// Spawns the agent of a launch. With a launcher it waits until it is let run.
    fn spawn<S: Store, L: Allocator, B: Allocator>(
        &mut self,
        store: &S,
        launch: &Launch<L>,
        how: How<'_, B>,
    ) -> io::Result<Self::Child>
        requires may { MaySpawn (view self.old).sights (S.view store.now) launch.now }
        ensures spawned { view self.new
            ≡ after_spawn (view self.old) launch.now.invocation (leader_of how.entry.leading.now)
            (started process_of result) }
        ensures run { IfOk result (λ child. (process_of child).run ≡ launch.now.run) }
        ensures id { IfOk result (λ child. (process_of child).id ≡ launch.now.id) };

    /// Spawns an agent for something that is no run, as its metadata. It stands for this run and this resource.
    fn ask<L: Allocator, B: Allocator>(
        &mut self,
        whose: &Whose,
        invocation: &Invocation<L>,
        how: How<'_, B>,
    ) -> io::Result<Self::Child>
        ensures asked { view self.new
            ≡ after_ask (view self.old) invocation.now (leader_of how.entry.leading.now)
            (started process_of result) }
        ensures run { IfOk result (λ child. (process_of child).run ≡ whose.now.run) }
        ensures id { IfOk result (λ child. (process_of child).id ≡ whose.now.id) };

    /// Lets an agent's process run, if it waits for that. It fails if the process has ended.
    fn let_run(&mut self, child: &mut Self::Child) -> io::Result<()>
        requires lives { Contains (view self.old).sights.live (process_of child.old) }
        ensures same { process_of child.new ≡ process_of child.old }
        ensures let_run { view self.new ≡ after_let_run (view self.old) (process_of child.old) result };

    /// Asks whether a live agent's process has ended, without waiting for that. POSIX, waitpid.
    fn poll(&mut self, child: &mut Self::Child) -> io::Result<Option<ExitStatus>>
        requires lives { Contains (view self.old).sights.live (process_of child.old) }
        ensures same { process_of child.new ≡ process_of child.old }
        ensures polled { view self.new ≡ after_poll (view self.old) (process_of child.old) result };

    /// The process of an agent.
    fn process(&self, child: &Self::Child) -> AgentProcess
        ensures value { result ≡ process_of child.now };

    /// Takes the standard output of an agent's process, if it is a pipe that was not taken before.
    fn take_output(&self, child: &mut Self::Child) -> Option<Self::Output>
        ensures same { process_of child.new ≡ process_of child.old };

    /// Gives a live agent up: from now on its end is wanted.
    fn give_up(&mut self, child: &Self::Child)
        requires lives { Contains (view self.old).sights.live (process_of child.now) }
        ensures given_up { view self.new ≡ after_give_up (view self.old) (process_of child.now) };

    /// Gives up an agent that an earlier process of the executor spawned, by an entry of the record of who runs.
    fn adopt(&mut self, entry: &AgentEntry)
        requires found { Contains (view self.old).found entry.now }
        ensures given_up { view self.new ≡ after_adopt (view self.old) entry.now };

    /// Asks whether an agent that was given up has ended, and reaps it then. POSIX, waitpid.
    fn reap(&mut self, at: usize, child: &mut Self::Child) -> io::Result<Option<ExitStatus>>
        requires its { IsChildAt (view self.old).sights at (process_of child.old) }
        ensures same { process_of child.new ≡ process_of child.old }
        ensures reaped { view self.new ≡ after_reap (view self.old) at result };

    /// Sends SIGKILL to an agent that was given up and was not reaped. POSIX, kill.
    fn kill(&mut self, at: usize, child: &mut Self::Child) -> io::Result<()>
        requires its { IsChildAt (view self.old).sights at (process_of child.old) }
        ensures same { process_of child.new ≡ process_of child.old }
        ensures sent { view self.new
            ≡ after_send (view self.old) Kill (target.Process (process_of child.old).pid) };

    /// These processes are known to belong to an agent that was given up.
    fn keep(&mut self, at: usize, found: &[Process])
        requires may { MayKeepAt (view self.old).sights at found.now }
        ensures kept { view self.new ≡ after_keep (view self.old) at found.now };

    /// An agent that was given up is over: nothing of it is left.
    fn release(&mut self, at: usize)
        requires over { IsOverAt (view self.old).sights at }
        ensures released { view self.new ≡ after_release (view self.old) at };

    /// This process, where it can be read.
    fn own(&self) -> Option<Process>
        ensures value { result ≡ (view self.now).sights.own };

    /// All processes that can be seen but this one and its ancestors. It fails where none is listed, and where memory is refused.
    fn list<A: Allocator + Copy>(&mut self, alloc: A) -> io::Result<Vec<Process, A>>
        ensures listed { view self.new
            ≡ after_list (view self.old) (option_map (λ table. table.items) (result_ok result)) };

    /// The process with this number, if there is one. It fails only where memory is refused.
    fn look(&mut self, pid: u32) -> io::Result<Option<Process>>
        ensures looked { view self.new ≡ after_look (view self.old) pid result };

    /// Reads the name of a process's command into the buffer, as much as fits, with a newline, and returns how many bytes it read: 0
    /// where the name cannot be read.
    fn name_of(&self, pid: u32, room: &mut [u8]) -> usize
        ensures room { length room.new ≡ length room.old }
        ensures within { result ≤ length room.old };

    /// Sends a signal. A target that is gone, or that is another user's, is no failure. POSIX, kill.
    fn send(&mut self, signal: Signal, target: Target) -> io::Result<()>
        requires may { MaySignal (view self.old).sights target }
        ensures sent { view self.new ≡ after_send (view self.old) signal target };

    /// Whether a process group has a member that can be signalled; a member that has ended and was not reaped counts. `None` where
    /// that could not be asked.
    fn has_members(&mut self, group: u32) -> Option<bool>
        ensures asked { view self.new ≡ after_members (view self.old) group result };

    /// Whether the file at this path may be run; otherwise the error that its execution meets, as `NotFound` or `PermissionDenied`.
    /// What its first line names is not looked at. POSIX, execve.
    fn check_program(&self, path: &str) -> io::Result<()>;

    /// The path of this program. It fails where `/proc` cannot be read.
    fn own_path<A: Allocator + Copy>(&self, alloc: A) -> io::Result<String<A>>;

    /// Opens the record of who runs in the journal's directory. Its calls below are about that one.
    fn open_record(&mut self, directory: &str) -> io::Result<OpenedRecord>
        ensures opened { view self.new
            ≡ after_open (view self.old) (option_map entries_of (result_ok result)) };

    /// Writes an entry into a free slot of the record and returns the slot; `None` if no slot is free. It is not synced.
    fn put_entry(&mut self, entry: &AgentEntry) -> io::Result<Option<usize>>
        ensures same { view self.new ≡ view self.old };

    /// Writes an entry into this slot of the record in place of the one there.
    fn rewrite_entry(&mut self, slot: usize, entry: &AgentEntry) -> io::Result<()>
        ensures same { view self.new ≡ view self.old };

    /// Frees a slot of the record. It is free even where the write fails.
    fn clear_entry(&mut self, slot: usize) -> io::Result<()>
        ensures same { view self.new ≡ view self.old };

    /// All that was asked so far was asked by these calls, each of which could be made, as a lemma. It does nothing.
    fn lemma_history(&self)
        ensures history { IsHistory (view self.now) };
}
