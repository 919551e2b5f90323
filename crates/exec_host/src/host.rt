//! The system that the program runs on.
ghost use Rattle.std.specs.Prelude.{◌≡◌, ◌≤◌, ◌<◌, ◌||◌, ℕ, [], true, is_some, option_map, IfErr, IfOk, IsTrue, OnErr, OnOk, None, Some};
ghost use Rattle.exec_replies.specs.JournalIds.{id_digits};
ghost use Rattle.exec_faults.specs.Faults.{IsRunEnd};
ghost use Rattle.journal_files.specs.Ends.{IsDirectoryEnd, IsNotOpened};
ghost use Rattle.exec_host.specs.Asked.{AreFresh, Asked};
ghost use Rattle.exec_host.specs.Requests.{Request, AskIdentity, AskSite, MakeAgents, OpenFiles, OpenLog, OpenReader, OpenWriter, PrintText, RunOnce, ShowJournal, StartClock, WatchPaths, WriteLine};
ghost use Rattle.exec_host.specs.Places.{at_agents, at_check, at_close, at_files, at_identity, at_leave, at_line, at_log, at_moment, at_once, at_print, at_reader, at_source, at_ticker, at_view, at_watch, at_writer};
ghost use Rattle.exec_host.specs.Upkeeps.{upkeep_view};

use child_model::Children;
use clap::Error;
use disk_model::Disk;
use exec_client::Reasons;
use exec_faults::Fault;
use exec_lines::{Input, Output, Ticker};
use exec_options::{OnceOptions, Options};
use exec_replies::JournalId;
use file_disk::{FileError, ReportsError};
use growth::{GROWTH_LIMIT, Grows, Refused};
use ocf_env::Site;
use ocf_types::{Moment, Orphan};
use session_machine::Metadata;
use std::alloc::{AllocError, Global};
use std::io::{self, Write};

/// How a session looks after its agents, and after the processes of actions that the executor before it left.
#[derive(Clone, Copy)]
pub struct Upkeep<'a> {
    /// The directory in which it is recorded which agents run, so that a later executor finds them: that of the journal, if it has one.
    pub directory: Option<&'a str>,
    /// How long a resource waits at most for the processes of an interrupted action, in milliseconds, before they are killed.
    pub limit: u64,
    /// Whether these processes are left alone, so that no resource waits for them.
    pub leave: bool,
    /// Whether each agent runs in a session and process group of its own. POSIX, setsid.
    pub groups: bool,
}

/// The system that the program runs on, with a method for each thing that it gives.
///
/// A clause cannot say what a system does. So `asked` leaves open what it means to have asked for something, a relation for each method.
/// A program that is proved for all such relations has asked for exactly what its contract says, since nothing else gives such a fact.
/// And `may` leaves open what may be asked for: each method that opens, spawns, reads, writes or shows something requires that its request
/// is in this set. So a program that is proved for all such sets, and is given only the requests of its contract, makes no others.
///
/// Each request is made once at most, in the order of `Places`: `stage` is the place of the last one. So there is one writer, which comes
/// after the opening; the clock is read for the opening once the files and the agents are there; and whether the paths still lead to the
/// journal is asked after the session.
///
/// The files, the reader and the clock go back by a call, as the program leaves them. The writer stays in the client of the session, which
/// has no call that gives it back, so it is closed with the client.
pub trait Host {
    /// The files of a journal.
    type Files: Disk + ReportsError + Drop;

    /// Where agents write.
    type Log: Drop;

    /// Agents: they spawn and reap agent processes.
    type Agents: Children + Drop;

    /// The metadata of agents.
    type Source: Metadata;

    /// Standard input.
    type Reader: Input + Drop;

    /// Standard output.
    type Writer: Output + Drop;

    /// Standard error, for the lines of results.
    type Errors: Write + Drop;

    /// The reasons that agents give for failures.
    type Reasons: Reasons + Drop;

    /// The clock of a session. Only the host makes one.
    type Ticker: Ticker + Drop;

    /// The paths of a journal, as they are watched.
    type Watch: Drop;

    ghost asked: { Asked Self.Files Self.Log Self.Agents Self.Source Self.Reader Self.Writer Self.Ticker Self.Watch };

    ghost may: { Request Self.Log → Type 0 };

    ghost stage: { Self → ℕ };

    /// The allocator.
    fn alloc(&self) -> Global;

    /// The files of the journal in this directory, of any owner or not as the options say. The host reports why they were not opened.
    fn files(&mut self, options: Options, directory: &str) -> Result<Self::Files, Fault>
        requires may { may (OpenFiles options directory.now) }
        requires next { stage self.old < at_files }
        ensures stage { stage self.new ≡ at_files }
        ensures files { IfOk result (asked.files directory.now options.entry.any_owner) }
        ensures none { IfErr result (asked.no_files directory.now options.entry.any_owner) }
        ensures fault { IsNotOpened result };

    /// Closes the files, as they are.
    fn close_files(&mut self, files: Self::Files)
        requires next { stage self.old < at_close }
        ensures stage { stage self.new ≡ at_close }
        ensures closed { asked.closed files };

    /// Where agents write: in the files of a directory, if one is named, else in one file. The host reports why it was not opened.
    fn log(&mut self, log: Option<&str>, logs: Option<&str>) -> Result<Self::Log, Fault>
        requires may { may (OpenLog (option_map (λ s. s.now) log) (option_map (λ s. s.now) logs)) }
        requires next { stage self.old < at_log }
        ensures stage { stage self.new ≡ at_log }
        ensures log { IfOk result
            (asked.log (option_map (λ s. s.now) log.entry) (option_map (λ s. s.now) logs.entry)) }
        ensures none { OnErr result
            (asked.no_log (option_map (λ s. s.now) log.entry) (option_map (λ s. s.now) logs.entry)) }
        ensures fault { IfErr result
            (λ f. (f ≡ Fault.Log) × ((is_some log.entry || is_some logs.entry) ≡ true)) };

    /// Agents that are looked after like this and write there, with no agent process yet and a book of this many answers; and the
    /// processes that live on from interrupted actions, with their runs. Resources of such actions may be held.
    fn agents(
        &mut self,
        upkeep: Upkeep<'_>,
        log: Self::Log,
        book: usize,
    ) -> Result<(Self::Agents, Vec<Orphan>), AllocError>
        requires may { may (MakeAgents (upkeep_view upkeep) log book) }
        requires next { stage self.old < at_agents }
        ensures stage { stage self.new ≡ at_agents }
        ensures agents { IfOk result (λ r. asked.agents (upkeep_view upkeep.entry) log r.1.items r.0) }
        ensures fresh { IfOk result (λ r. AreFresh book (Self.Agents.view r.0)) }
        ensures memory { OnErr result (book ≤ GROWTH_LIMIT → IsTrue ⟦<Global as Grows>⟧.refuses) };

    /// The metadata of the agents of this site, each of which runs in a session and process group of its own, or not.
    fn source(&mut self, site: Site, groups: bool) -> Self::Source
        requires may { may (AskSite site groups) }
        requires next { stage self.old < at_source }
        ensures stage { stage self.new ≡ at_source }
        ensures asked { asked.source site groups result }
        ensures of { Self.Source.of result ≡ record { site = site; groups = groups } };

    /// Standard input.
    fn reader(&mut self) -> Result<Self::Reader, Refused>
        requires may { may OpenReader }
        requires next { stage self.old < at_reader }
        ensures stage { stage self.new ≡ at_reader }
        ensures reader { IfOk result asked.reader };

    /// Standard output. If a directory is named, it counts as read only while the journal of that directory is where it was.
    fn writer(&mut self, served: Option<&str>) -> Self::Writer
        requires may { may (OpenWriter (option_map (λ s. s.now) served)) }
        requires next { stage self.old < at_writer }
        ensures stage { stage self.new ≡ at_writer }
        ensures writer { asked.writer (option_map (λ s. s.now) served.entry) result };

    /// Leaves standard input and the clock of a session, as they are, and stops asking agents for metadata.
    fn leave(&mut self, reader: Self::Reader, ticker: Self::Ticker, source: Self::Source)
        requires next { stage self.old < at_leave }
        ensures stage { stage self.new ≡ at_leave }
        ensures left { asked.left reader ticker };

    /// Standard error, for the lines of results.
    fn errors(&self) -> Self::Errors;

    /// The reasons that agents wrote: to their logs in a directory, if one is named, else to the log of all, if one is named.
    fn reasons(&self, log: Option<&str>, logs: Option<&str>) -> Self::Reasons;

    /// Whether standard error goes to the system's journal.
    fn is_marked(&self) -> bool;

    /// The time of the system's clock, in milliseconds since 1970.
    fn moment(&mut self) -> u64
        requires next { stage self.old < at_moment }
        ensures stage { stage self.new ≡ at_moment }
        ensures moment { asked.moment result };

    /// The clock of a session over a journal whose last event has this moment, which begins now and was asked nothing. Where it is ahead of
    /// the system's clock because the journal is, the host records what it shows, with the agents that run in this directory, if one is
    /// named.
    fn ticker(&mut self, directory: Option<&str>, journal: Moment) -> Self::Ticker
        requires may { may (StartClock (option_map (λ s. s.now) directory) journal) }
        requires next { stage self.old < at_ticker }
        ensures stage { stage self.new ≡ at_ticker }
        ensures ticker { asked.ticker (option_map (λ s. s.now) directory.entry) journal result }
        ensures unasked { Self.Ticker.asked result ≡ [] };

    /// Whether SIGCHLD is ignored, so that the end of an agent process would not be seen.
    fn children_ignored(&self) -> bool
        ensures { asked.ignored result };

    /// Reports which signals are ignored.
    fn report_ignored(&self);

    /// The identity of the journal in this directory, which was just opened, if one is named and can have one. The host reports that a
    /// journal without one got one.
    fn identity(&mut self, directory: Option<&str>) -> Option<JournalId>
        requires may { may (AskIdentity (option_map (λ s. s.now) directory)) }
        requires next { stage self.old < at_identity }
        ensures stage { stage self.new ≡ at_identity }
        ensures identity { asked.identity (option_map (λ s. s.now) directory.entry) (option_map id_digits result) };

    /// The paths of the journal in this directory, if one is named, as they are now.
    fn watch(&mut self, served: Option<&str>) -> Self::Watch
        requires may { may (WatchPaths (option_map (λ s. s.now) served)) }
        requires next { stage self.old < at_watch }
        ensures stage { stage self.new ≡ at_watch }
        ensures watch { asked.watch (option_map (λ s. s.now) served.entry) result };

    /// Fails if one of these paths now leads to another file, or to none.
    fn check(&mut self, watch: &Self::Watch) -> Result<(), FileError>
        requires next { stage self.old < at_check }
        ensures stage { stage self.new ≡ at_check }
        ensures moved { OnErr result (asked.moved watch.now) }
        ensures stays { OnOk result (asked.stays watch.now) };

    /// Writes a line to standard output.
    fn write_line(&mut self, line: &[u8])
        requires may { may (WriteLine line.now) }
        requires next { stage self.old < at_line }
        ensures stage { stage self.new ≡ at_line }
        ensures line { asked.line line.now };

    /// Shows the journal in this directory, as the options say.
    fn show_files(&mut self, options: Options, directory: &str) -> Result<(), Fault>
        requires may { may (ShowJournal options (Some directory.now)) }
        requires next { stage self.old < at_view }
        ensures stage { stage self.new ≡ at_view }
        ensures shown { asked.shown options.entry (Some directory.now) result }
        ensures ends { IsDirectoryEnd result };

    /// Shows an empty journal in memory, as the options say.
    fn show_memory(&mut self, options: Options) -> Result<(), Fault>
        requires may { may (ShowJournal options None) }
        requires next { stage self.old < at_view }
        ensures stage { stage self.new ≡ at_view }
        ensures shown { asked.shown options.entry None result }
        ensures ends { IsRunEnd result };

    /// Runs one action by itself, and gives the exit status for its result.
    fn once(&mut self, options: &OnceOptions<'_>) -> u8
        requires may { may (RunOnce options.now) }
        requires next { stage self.old < at_once }
        ensures stage { stage self.new ≡ at_once }
        ensures once { asked.once options.now result };

    /// Prints a text of the command line: to standard output if it was asked for, else to standard error.
    fn print(&mut self, text: &Error) -> io::Result<()>
        requires may { may (PrintText text.now) }
        requires next { stage self.old < at_print }
        ensures stage { stage self.new ≡ at_print }
        ensures printed { asked.printed text.now };

    /// Writes a line to standard error, after the program's name.
    fn say(&self, line: &str);

    /// Reports that a text that was asked for could not be written, and why.
    fn report_unwritten(&self, error: io::Error);

    /// Reports that the journal's device failed, and its error.
    fn report_device(&self, options: Options, met: Option<FileError>);

    /// Reports why a session ended before its input did, where standard input or output failed.
    fn report_run(&self, ended: Result<(), Fault>);
}
