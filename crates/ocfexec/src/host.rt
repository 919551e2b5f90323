//! The system calls of the program. Nothing is decided here: each method makes the calls that it is named for, and its clause about
//! them is trusted.
ghost use Rattle.std.specs.Prelude.{◌≡◌, ⊤};

use crate::errors::Errors;
use crate::guarded::Guarded;
use crate::log::log_of;
use crate::metadata::SiteMetadata;
use crate::moment::record_moment;
use crate::once::once;
use crate::reasons::LogReasons;
use child_keeper::{self, Log, Processes};
use clap::Error;
use diagnostics::{
    FirstError, Noted, children_ignored, is_journal, report_ignored, report_run, report_shown,
};
use exec_faults::Fault;
use exec_host::{Host, Upkeep};
use exec_lines::{
    ClockTicker, LineInput, Patient, ReadAhead, SessionClock, moment_now, write_flushed,
};
use exec_options::{OnceOptions, Options};
use exec_replies::JournalId;
use file_disk::{FileDisk, FileError, JournalPaths, RamDisk};
use growth::Refused;
use host_system::{System, SystemAgents};
use journal_directory::{show_disk, show_files};
use journal_files::{
    FaultForm, disk_or_fault, not_emptied, open_files, report_device, settled_identity,
};
use ocf_env::Site;
use ocf_types::{Moment, Orphan};
use std::alloc::{AllocError, Global};
use std::io::{self, Eprint};
use std::rt::{Stdin, Stdout};

// How many bytes of the input are read at once.
const READ_SIZE: usize = 65_536;

/// The system of the program.
#[derive(Drop)]
pub struct SystemHost<'a> {
    system: &'a System<'a>,
    // The first error of standard input and of standard output.
    unread: &'a FirstError,
    unwritten: &'a FirstError,
    // The place of the last request.
    stage: u8,
}

impl<'a> SystemHost<'a> {
    /// The system, with standard streams that met no error yet. Nothing was asked for.
    pub fn new(
        system: &'a System<'a>,
        unread: &'a FirstError,
        unwritten: &'a FirstError,
    ) -> SystemHost<'a>
        ensures stage { result.stage ≡ 0 }
    {
        SystemHost {
            system,
            unread,
            unwritten,
            stage: 0,
        }
    }
}

// The paths of the journal in this directory as they are now: `None` where they are not found.
fn paths_of(rt: &HostRuntime, served: Option<&str>) -> Option<JournalPaths> {
    JournalPaths::find(rt, rt.alloc(), served?).ok()
}

impl<'a> Host for SystemHost<'a> {
    type Files = FileDisk<HostRuntime>;

    type Log = Log;

    type Agents = Processes<SystemAgents<'a>>;

    type Source = SiteMetadata<'a>;

    type Reader = LineInput<ReadAhead<Noted<'a, Stdin>>>;

    type Writer = Guarded<Patient<Noted<'a, Stdout>>>;

    type Errors = Errors<'a>;

    type Reasons = LogReasons;

    type Ticker = ClockTicker<SessionClock<'a, HostRuntime>>;

    type Watch = Option<JournalPaths>;

    // nothing is stated about the system's actions: that each method asks for exactly those of its name is trusted
    ghost asked = { record {
      files = λ directory any disk. ⊤;
      no_files = λ directory any fault. ⊤;
      closed = λ disk. ⊤;
      log = λ file directory log. ⊤;
      no_log = λ file directory. ⊤;
      agents = λ upkeep log left agents. ⊤;
      source = λ site groups source. ⊤;
      reader = λ reader. ⊤;
      writer = λ served writer. ⊤;
      left = λ reader ticker. ⊤;
      moment = λ now. ⊤;
      ticker = λ directory journal ticker. ⊤;
      ignored = λ is. ⊤;
      identity = λ directory found. ⊤;
      watch = λ served watch. ⊤;
      moved = λ watch. ⊤;
      stays = λ watch. ⊤;
      line = λ bytes. ⊤;
      shown = λ options location ended. ⊤;
      once = λ options status. ⊤;
      printed = λ text. ⊤;
    } };

    // the program may make every request that it is proved to make
    ghost may = { λ request. ⊤ };

    ghost stage = { λ host. host.stage };

    fn alloc(&self) -> Global {
        self.system.host().alloc()
    }

    // TRUSTED: the disk stands on the two files of this directory, or nothing was opened.
    #[tactic(auto, using(crate::proofs::HostLemmas::if_ok_any, crate::proofs::HostLemmas::if_err_any))]
    fn files(&mut self, options: Options, directory: &str) -> Result<FileDisk<HostRuntime>, Fault> {
        self.stage = 2;
        let opened = open_files(self.system.host(), options, directory);
        let disk = not_emptied(opened);
        disk_or_fault(self.system, FaultForm::of(options), directory, disk)
    }

    // TRUSTED: the files are closed, and nothing is written before that.
    fn close_files(&mut self, files: FileDisk<HostRuntime>) {
        self.stage = 14;
        let _closed = files;
    }

    // TRUSTED: agents write to the file, or to the directory of logs, that is named.
    #[tactic(auto, using(crate::proofs::HostLemmas::if_ok_any, crate::proofs::HostLemmas::on_err_any))]
    fn log(&mut self, log: Option<&str>, logs: Option<&str>) -> Result<Log, Fault> {
        self.stage = 1;
        log_of(self.system, log, logs)
    }

    // TRUSTED: agents are looked after as `upkeep` says and write to this log, and the processes that are returned live on.
    #[tactic(auto, using(crate::proofs::HostLemmas::if_ok_any))]
    fn agents(
        &mut self,
        upkeep: Upkeep<'_>,
        log: Log,
        book: usize,
    ) -> Result<(Processes<SystemAgents<'a>>, Vec<Orphan>), AllocError> {
        self.stage = 4;
        self.system.start_killer();
        let upkeep = child_keeper::Upkeep {
            directory: upkeep.directory,
            limit: upkeep.limit,
            leave: upkeep.leave,
            groups: upkeep.groups,
        };
        Processes::new(
            SystemAgents::new(self.system),
            self.alloc(),
            log,
            book,
            upkeep,
        )
    }

    // TRUSTED: metadata are asked of the agents of this site.
    fn source(&mut self, site: Site, groups: bool) -> SiteMetadata<'a> {
        self.stage = 8;
        SiteMetadata::new(self.system, site, groups)
    }

    // TRUSTED: the reader is standard input; a read without input fails once the other end of standard output is closed.
    fn reader(&mut self) -> Result<LineInput<ReadAhead<Noted<'a, Stdin>>>, Refused> {
        self.stage = 3;
        // (not the library's lock: that has a buffer of 8 KiB, which would be moved with the reader and never used)
        let input = self.unread.input(self.system.host().stdin());
        let input = input.with_replies(libc::STDOUT_FILENO);
        let ahead = ReadAhead::new(self.alloc(), READ_SIZE, input)?;
        Ok(LineInput::new(ahead))
    }

    // TRUSTED: the writer is standard output.
    fn writer(&mut self, served: Option<&str>) -> Guarded<Patient<Noted<'a, Stdout>>> {
        self.stage = 10;
        let rt = self.system.host();
        let output = self.unwritten.output(rt.stdout());
        Guarded::new(*rt, paths_of(rt, served), output)
    }

    // TRUSTED: after this call nothing is read from standard input, nobody sleeps, and no agent is asked for metadata.
    fn leave(
        &mut self,
        reader: LineInput<ReadAhead<Noted<'a, Stdin>>>,
        ticker: ClockTicker<SessionClock<'a, HostRuntime>>,
        source: SiteMetadata<'a>,
    ) {
        self.stage = 11;
        let (_reader, _ticker) = (reader, ticker);
        source.give_up();
    }

    // TRUSTED: the lines go to standard error.
    fn errors(&self) -> Errors<'a> {
        Errors::new(self.system)
    }

    // TRUSTED: the reasons are read from the logs that are named.
    fn reasons(&self, log: Option<&str>, logs: Option<&str>) -> LogReasons {
        let rt = self.system.host();
        LogReasons::new(*rt, log, logs)
    }

    fn is_marked(&self) -> bool {
        is_journal(self.system.host())
    }

    // TRUSTED: the clock begins with the system's time, or with the journal's last moment if that is later, and this directory records it.
    fn ticker(
        &mut self,
        directory: Option<&str>,
        journal: Moment,
    ) -> ClockTicker<SessionClock<'a, HostRuntime>> {
        self.stage = 7;
        let rt = self.system.host();
        let clock = SessionClock::new(rt, journal);
        if let Some(directory) = directory {
            // that the record cannot be written was reported when the agents were made
            let _ = record_moment(rt, directory, &clock);
        }
        ClockTicker::new(clock)
    }

    // TRUSTED: this is the system's time in milliseconds since 1970.
    fn moment(&mut self) -> u64 {
        self.stage = 6;
        moment_now(self.system.host()).get()
    }

    // TRUSTED: `/proc/self/status` says whether SIGCHLD is ignored.
    fn children_ignored(&self) -> bool {
        children_ignored(self.system.host())
    }

    fn report_ignored(&self) {
        report_ignored(self.system);
    }

    // TRUSTED: the identity is that of the journal in this directory.
    fn identity(&mut self, directory: Option<&str>) -> Option<JournalId> {
        self.stage = 9;
        settled_identity(self.system, directory?)
    }

    // TRUSTED: the paths are those of the files in this directory.
    fn watch(&mut self, served: Option<&str>) -> Option<JournalPaths> {
        self.stage = 5;
        paths_of(self.system.host(), served)
    }

    // TRUSTED: the answer is an error exactly if one of the paths leads to another file by now.
    #[tactic(auto, using(crate::proofs::HostLemmas::on_err_any))]
    fn check(&mut self, watch: &Option<JournalPaths>) -> Result<(), FileError> {
        self.stage = 12;
        match watch {
            Some(paths) => paths.check(self.system.host()),
            None => Ok(()),
        }
    }

    // TRUSTED: this line is written to standard output.
    fn write_line(&mut self, line: &[u8]) {
        self.stage = 13;
        let _ = write_flushed(&mut io::writer(self.system.host()), line);
    }

    // TRUSTED: what is printed is about the journal in this directory.
    fn show_files(&mut self, options: Options, directory: &str) -> Result<(), Fault> {
        self.stage = 15;
        show_files(self.system, options, directory)
    }

    // TRUSTED: what is printed is about an empty journal.
    fn show_memory(&mut self, options: Options) -> Result<(), Fault> {
        self.stage = 15;
        show_disk(self.system, options, RamDisk::new(self.alloc()))
    }

    // TRUSTED: the action that the options name is run once, and ended with this status.
    fn once(&mut self, options: &OnceOptions<'_>) -> u8 {
        self.stage = 16;
        once(self.system, options)
    }

    // TRUSTED: this text is printed.
    fn print(&mut self, text: &Error) -> io::Result<()> {
        self.stage = 17;
        text.print(self.system.host())
    }

    fn say(&self, line: &str) {
        let _ = self.system.eprintln(format_args!("ocfexec: {line}"));
    }

    fn report_unwritten(&self, error: io::Error) {
        report_shown(
            self.system,
            &FirstError::of(error),
            Err(Fault::InputOrOutput),
        );
    }

    fn report_device(&self, options: Options, met: Option<FileError>) {
        report_device(self.system, options, met);
    }

    fn report_run(&self, ended: Result<(), Fault>) {
        report_run(self.system, self.unread, self.unwritten, ended);
    }
}
