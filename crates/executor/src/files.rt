//! Opening an executor over a pair of files, and closing it.
ghost use Rattle.std.specs.Prelude.{◌≡◌, IfOk, IfErr, IsTrue};
ghost use Rattle.child_model.specs.Children.{Admits};
ghost use Rattle.executor.specs.Openings.{NotOpened, Opened, reported_fault};

use crate::opening::OpenError;
use crate::{Executor, On, Report};
use child_model::Children;
use disk_model::Disk;
use exec_journal::laws::{lemma_found_once, lemma_journal_holds};
use exec_journal::{Journal, JournalFault};
use growth::Grows;
use ocf_env::Site;

/// Why an executor was not opened, and the disk and the children.
#[derive(Drop)]
pub struct OpenFault<D: Drop, C: Drop> {
    pub why: OpenError,
    pub disk: D,
    pub children: C,
}

impl<D: Drop, C: Drop> OpenFault<D, C> {
    // This fault, with the disk and the children that are handed back.
    fn new(why: OpenError, disk: D, children: C) -> OpenFault<D, C>
        ensures made { result ≡ record { why = why; disk = disk; children = children } }
    {
        OpenFault {
            why,
            disk,
            children,
        }
    }
}

// Why the journal was not opened, as the executor reports it.
impl From<JournalFault> for OpenError {
    ghost from_gives = { λ fault why. why ≡ reported_fault fault };

    fn from(fault: JournalFault) -> OpenError {
        match fault {
            JournalFault::Disk => OpenError::Disk,
            JournalFault::Damaged(damage) => OpenError::Damaged(damage),
            JournalFault::Memory => OpenError::Memory,
        }
    }
}

impl<D: Disk + Drop, C: Children + Drop, A: Grows> On<Journal<D, A>, C, A> {
    /// Opens the executor of a journal, or of a fresh pair of parts, at a moment in milliseconds since 1970. It spawns agents as the
    /// site says. Agent processes that still live are given up, and their end is asked for.
    ///
    /// Where actions were queued or running a boot is recorded: running actions are interrupted, queued ones are dropped, and the
    /// report lists both. Each fault hands the disk and the children back; after a disk fault the disk has to be opened again
    /// before any other use. Children that were started for another journal are refused as foreign.
    pub fn open(
        alloc: A,
        disk: D,
        children: C,
        site: Site<A>,
        now: u64,
    ) -> Result<(Executor<D, C, A>, Report<A>), OpenFault<D, C>>
        // the children start agents at this site
        requires site { Admits (C.view children).site site }
        // the journal is settled at the executor's state, which is that found on the parts, after its boot; no agent process lives,
        // and the executor remembers this report
        ensures opened { IfOk result
            (λ r. Opened D.view disk (C.view children) now r.0 r.1.interrupted.items r.1.dropped.items) }
        ensures site { IfOk result (λ r. r.0.site ≡ site) }
        // a fault hands the disk and the children back; on the disk the same state is found again, or, only after a disk fault,
        // the state after its boot
        ensures failed { IfErr result
            (λ e. NotOpened D.view disk e.disk (C.view children) (C.view e.children) now e.why) }
        // lack of memory only where the allocator refuses growths
        ensures memory { IfErr result (λ e. e.why ≡ OpenError.Memory → IsTrue A.refuses) }
    {
        lemma_journal_holds();
        lemma_found_once();
        match Journal::open(alloc, disk) {
            Ok(held) => match On::on(alloc, held, children, site, now) {
                Ok(opened) => Ok(opened),
                Err(fault) => Err(OpenFault::new(
                    fault.why,
                    fault.store.into_disk(),
                    fault.children,
                )),
            },
            Err((fault, disk)) => Err(OpenFault::new(OpenError::from(fault), disk, children)),
        }
    }

    /// Gives the disk and the children back. It makes no device call, and kills nothing.
    pub fn close(self) -> (D, C)
        ensures disk { result.0 ≡ self.store.disk }
        ensures children { C.view result.1 ≡ self.children }
    {
        let (journal, children) = self.into_store();
        (journal.into_disk(), children)
    }
}
