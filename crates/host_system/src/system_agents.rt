//! The system's processes, by the calls of this program's handle: the one place where calls about processes are made.
ghost use Rattle.std.specs.Prelude.{◌≡◌, IfOk};
ghost use Rattle.agent_system.specs.SystemView.{unasked};

use crate::killer::line_of;
use crate::programs;
use crate::system::System;
use agent_system::{
    AgentProcess, AgentSystem, How, OpenedRecord, Signal, SystemNote, Target, Whose, command_by,
    write_to,
};
use agents_file::{AgentEntry, AgentsFile, Found, Head, boot_id, monotonic_now};
use exec_lines::moment_now;
use ocf_env::{Invocation, Launch};
use proc_files::{ProcFiles, Process, has};
use std::alloc::{AllocError, Allocator};
use std::fmt::Display;
use std::io::{self, Eprint, ErrorKind, Write};
use std::marker::Model;
use std::process::{Child, ChildStdout, ExitStatus, SystemProcess};
use std::rt::Clock;
use std::time::Duration;
use store_model::Store;

/// An agent's process that this process spawned and did not reap.
#[derive(Drop)]
pub struct AgentChild {
    child: Child<SystemProcess>,
    process: AgentProcess,
}

/// The system's processes, as those who start and end agents see them.
#[derive(Drop)]
pub struct SystemAgents<'a> {
    system: &'a System<'a>,
    // This process, where it can be read.
    own: Option<Process>,
    // The record of who runs, where it was opened.
    record: Option<AgentsFile>,
    note: SystemNote,
}

impl<'a> Model for SystemAgents<'a> {
    ghost use Rattle.agent_system.specs.Histories.{Reaches};
    ghost use Rattle.agent_system.specs.SystemView.{SystemView, unasked};

    ghost Value = { SystemView };

    ghost view = { λ s. s.note.view };

    ghost invariant = { λ s. Reaches (unasked s.own) s.note.view };
}

// Lets a process run its agent that waits for a byte on its standard input, if it does. It fails if the process has ended.
fn open_gate(child: &mut Child<SystemProcess>) -> io::Result<()> {
    match child.stdin.take() {
        Some(mut gate) => gate.write_all(b"\n"),
        None => Ok(()),
    }
}

// A process and its ancestors in the table. It fails only where memory is refused.
fn with_ancestors<A: Allocator + Copy>(
    alloc: A,
    table: &[Process],
    process: Process,
) -> Result<Vec<Process, A>, AllocError> {
    let mut line = Vec::new(alloc);
    let mut last = process;
    for _ in 0..table.len() {
        line.push(last)?;
        match table.iter().find(|other| other.pid == last.parent) {
            Some(parent) => last = *parent,
            None => break,
        }
    }
    Ok(line)
}

// All processes but this one and its ancestors.
fn others<A: Allocator + Copy>(rt: &HostRuntime, alloc: A) -> io::Result<Vec<Process, A>> {
    let mut table = rt.processes(alloc)?;
    let line = with_ancestors(alloc, table.as_slice(), rt.own()?)?;
    table.retain(|process| !has(line.as_slice(), process));
    Ok(table)
}

// The record of who runs. It fails where none was opened.
fn kept(record: &mut Option<AgentsFile>) -> io::Result<&mut AgentsFile> {
    match record {
        Some(record) => Ok(record),
        None => Err(io::Error::from(ErrorKind::NotFound)),
    }
}

// Opens the record of who runs in a directory.
fn opened(rt: &HostRuntime, directory: &str) -> io::Result<Found> {
    let head = Head {
        boot: boot_id(rt)?,
        moment: moment_now(rt).get(),
        monotonic: monotonic_now(rt)?,
    };
    AgentsFile::open(rt, rt.alloc(), directory, head)
}

// Opens the record of who runs in a directory, in place of the one before.
fn opened_into(
    record: &mut Option<AgentsFile>,
    rt: &HostRuntime,
    directory: &str,
) -> io::Result<OpenedRecord> {
    let found = opened(rt, directory)?;
    *record = Some(found.file);
    Ok(OpenedRecord {
        entries: found.entries,
        was_foreign: found.was_foreign,
    })
}

impl<'a> SystemAgents<'a> {
    ghost use Rattle.host_system.specs.SystemAgents.{child_process};

    /// The system, of which nothing was asked yet.
    pub fn new(system: &'a System<'a>) -> SystemAgents<'a>
        ensures unasked { result ≡ unasked result.sights.own }
    {
        // TRUSTED: `/proc/self` is this process.
        let own = system.host().own().ok();
        SystemAgents {
            system,
            own,
            record: None,
            note: SystemNote::unasked(&own),
        }
    }

    // When a process started, if that is needed for the record of who runs and can be read. Without it a process is known by its number
    // until it is reaped, and what has the number after that is another one.
    fn start_of(&self, pid: u32) -> Option<u64> {
        if self.record.is_none() {
            return None;
        }
        match self.system.host().process_of(pid) {
            Ok(Some(process)) => Some(process.start),
            _ => None,
        }
    }

    // Spawns the agent of an invocation, by a leader, if there is one.
    fn spawned<L: Allocator, B: Allocator>(
        &self,
        whose: Whose,
        invocation: &Invocation<L>,
        how: How<'_, B>,
    ) -> io::Result<AgentChild>
        ensures run { IfOk result (λ child. (child_process child).run ≡ whose.run) }
        ensures id { IfOk result (λ child. (child_process child).id ≡ whose.id) }
    {
        let rt = self.system.host();
        let mut command = command_by(rt.alloc(), how.leading, invocation)?;
        write_to(&mut command, how.output, how.errors);
        let child = command.spawn(rt)?;
        let pid = child.id();
        let process = AgentProcess {
            run: whose.run,
            id: whose.id,
            pid,
            start: self.start_of(pid),
        };
        Ok(AgentChild { child, process })
    }
}

impl Eprint for SystemAgents<'_> {
    fn eprint<D: Display + Drop>(&self, value: D) -> io::Result<()> {
        self.system.eprint(value)
    }

    fn eprintln<D: Display + Drop>(&self, value: D) -> io::Result<()> {
        self.system.eprintln(value)
    }
}

impl Clock for SystemAgents<'_> {
    fn monotonic(&self) -> io::Result<Duration> {
        self.system.monotonic()
    }

    fn since_1970(&self) -> io::Result<Duration> {
        self.system.since_1970()
    }

    fn sleep(&self, duration: Duration) {
        self.system.sleep(duration);
    }
}

impl AgentSystem for SystemAgents<'_> {
    ghost use Rattle.host_system.specs.SystemAgents.{child_process};

    type Child = AgentChild;

    type Output = ChildStdout;

    ghost view = { λ s. s };

    ghost process_of = { child_process };

    fn spawn<S: Store, L: Allocator, B: Allocator>(
        &mut self,
        _store: &S,
        launch: &Launch<L>,
        how: How<'_, B>,
    ) -> io::Result<AgentChild> {
        let leading = how.leading;
        let whose = Whose {
            run: launch.run,
            id: launch.id.copied(),
        };
        let child = self.spawned(whose, &launch.invocation, how);
        // TRUSTED: the command of exactly this invocation, by this leader, was spawned once, or, if the answer is an error, not at all.
        self.note.follow(&(&launch.invocation, leading, &child));
        child
    }

    fn ask<L: Allocator, B: Allocator>(
        &mut self,
        whose: &Whose,
        invocation: &Invocation<L>,
        how: How<'_, B>,
    ) -> io::Result<AgentChild> {
        let leading = how.leading;
        let whose = Whose {
            run: whose.run,
            id: whose.id.copied(),
        };
        let child = self.spawned(whose, invocation, how);
        // TRUSTED: the command of exactly this invocation, by this leader, was spawned once, or, if the answer is an error, not at all.
        self.note.follow(&(invocation, leading, &child));
        child
    }

    fn let_run(&mut self, child: &mut AgentChild) -> io::Result<()> {
        let answer = open_gate(&mut child.child);
        // TRUSTED: the process runs its agent if it got the byte, and only then; what waits for none ran at its spawn.
        self.note.follow(&(&child.process, &answer));
        answer
    }

    fn poll(&mut self, child: &mut AgentChild) -> io::Result<Option<ExitStatus>> {
        let answer = child.child.try_wait();
        // TRUSTED: this is the system's answer about this child, which was not waited for.
        self.note.follow(&(&child.process, &answer));
        answer
    }

    fn process(&self, child: &AgentChild) -> AgentProcess {
        child.process.copied()
    }

    fn take_output(&self, child: &mut AgentChild) -> Option<ChildStdout> {
        child.child.stdout.take()
    }

    fn give_up(&mut self, child: &AgentChild) {
        // TRUSTED: the system is asked nothing; the child counts as given up from here on.
        self.note.follow(&child.process);
    }

    fn adopt(&mut self, entry: &AgentEntry) {
        // TRUSTED: the system is asked nothing; the process of this entry counts as given up from here on.
        self.note.follow(entry);
    }

    fn reap(&mut self, at: usize, child: &mut AgentChild) -> io::Result<Option<ExitStatus>> {
        let answer = child.child.try_wait();
        // TRUSTED: this is the system's answer about this child, which was not waited for; a child that has ended is reaped.
        self.note.follow(&(at, &answer));
        answer
    }

    fn kill(&mut self, _at: usize, child: &mut AgentChild) -> io::Result<()> {
        let answer = child.child.kill();
        // TRUSTED: SIGKILL was requested for this child, and for nothing else.
        self.note.follow(&child.process);
        answer
    }

    fn keep(&mut self, at: usize, found: &[Process]) {
        // TRUSTED: the system is asked nothing; these processes count as known from here on.
        self.note.follow(&(at, found));
    }

    fn release(&mut self, at: usize) {
        // TRUSTED: the system is asked nothing; what was given up counts as released from here on.
        self.note.follow(&at);
    }

    fn own(&self) -> Option<Process> {
        self.own
    }

    fn list<A: Allocator + Copy>(&mut self, alloc: A) -> io::Result<Vec<Process, A>> {
        let answer = others(self.system.host(), alloc);
        // TRUSTED: these are all that `/proc` shows, without this process and its ancestors.
        self.note.follow(&answer);
        answer
    }

    fn look(&mut self, pid: u32) -> io::Result<Option<Process>> {
        let answer = self.system.host().process_of(pid);
        // TRUSTED: this is what `/proc` shows of this number.
        self.note.follow(&(pid, &answer));
        answer
    }

    fn name_of(&self, pid: u32, room: &mut [u8]) -> usize {
        self.system.host().name_of(pid, room)
    }

    fn send(&mut self, signal: Signal, target: Target) -> io::Result<()> {
        let answer = self.system.ask(&line_of(signal.name(), target));
        // TRUSTED: the shell was asked to send this signal to this target, and nothing else.
        self.note.follow(&(signal, target));
        answer?;
        Ok(())
    }

    fn has_members(&mut self, group: u32) -> Option<bool> {
        let answer = self.system.ask(&line_of("0", Target::Group(group))).ok();
        // TRUSTED: the signal 0 is sent to no process, and says whether the group has a member that can be signalled.
        self.note.follow(&(group, &answer));
        answer
    }

    fn check_program(&self, path: &str) -> io::Result<()> {
        programs::check_program(self.system.host(), path)
    }

    fn own_path<A: Allocator + Copy>(&self, alloc: A) -> io::Result<String<A>> {
        programs::own_path(self.system.host(), alloc)
    }

    fn open_record(&mut self, directory: &str) -> io::Result<OpenedRecord> {
        let answer = opened_into(&mut self.record, self.system.host(), directory);
        // TRUSTED: these are the entries that the file `agents` of this directory has.
        self.note.follow(&answer);
        answer
    }

    fn put_entry(&mut self, entry: &AgentEntry) -> io::Result<Option<usize>> {
        kept(&mut self.record)?.put(entry)
    }

    fn rewrite_entry(&mut self, slot: usize, entry: &AgentEntry) -> io::Result<()> {
        kept(&mut self.record)?.rewrite(slot, entry)
    }

    fn clear_entry(&mut self, slot: usize) -> io::Result<()> {
        kept(&mut self.record)?.clear(slot)
    }

    fn lemma_history(&self) {
        let _note = &self.note;
    }
}
