//! The record of who runs, in the journal's directory.
ghost use Rattle.std.specs.Prelude.{◌≡◌};

use agent_system::{AgentSystem, name_text};
use agents_file::AgentEntry;
use ocf_types::Action;
use std::io::{self, Eprint, ErrorKind};

/// The record of who runs, if it is kept. The death of this process leaves it as it is. It need not survive that of the machine, so it
/// is not synced.
#[derive(Clone, Copy)]
pub struct Record {
    is_kept: bool,
}

// Reports that a write to the record failed.
fn report_failed<R: Eprint>(rt: &R, written: &io::Result<()>) {
    if let Err(error) = written {
        let _ = rt.eprintln(format_args!("ocfexec: file agents: {error}"));
    }
}

// Reports that an entry is not in the record.
fn report_unrecorded<R: Eprint>(rt: &R, entry: &AgentEntry, error: &io::Error) {
    let (run, id) = (entry.run.get(), name_text(entry.id.as_bytes()));
    let _ = rt.eprintln(format_args!(
        "ocfexec: run {run} of {id} is not recorded, so that no later executor will wait for it: {error}"
    ));
}

impl Record {
    /// The record that was opened, or none.
    pub fn new(is_kept: bool) -> Record {
        Record { is_kept }
    }

    /// Whether it is kept.
    pub fn is_kept(&self) -> bool {
        self.is_kept
    }

    // Writes an entry, and returns its slot: `None` if no record is kept.
    fn put<R: AgentSystem>(&self, rt: &mut R, entry: &AgentEntry) -> io::Result<Option<usize>>
        ensures same { R.view rt.new ≡ R.view rt.old }
    {
        if !self.is_kept {
            return Ok(None);
        }
        match rt.put_entry(entry)? {
            Some(slot) => Ok(Some(slot)),
            None => Err(io::Error::new(ErrorKind::StorageFull, "the file agents is full")),
        }
    }

    /// Writes an entry, and returns its slot: `None` if no record is kept. A stop has none either where its entry cannot be written, which
    /// is reported: it has to be possible at any time, and beside a later action it leaves nothing up.
    pub fn enter<R: AgentSystem + Eprint>(
        &self,
        rt: &mut R,
        entry: &AgentEntry,
    ) -> io::Result<Option<usize>>
        ensures same { R.view rt.new ≡ R.view rt.old }
    {
        match self.put(rt, entry) {
            Err(error) if entry.action == Action::Stop => {
                report_unrecorded(rt, entry, &error);
                Ok(None)
            }
            written => written,
        }
    }

    /// Writes an entry in place of another. A failure is reported.
    pub fn rewrite<R: AgentSystem + Eprint>(&self, rt: &mut R, slot: usize, entry: &AgentEntry)
        ensures same { R.view rt.new ≡ R.view rt.old }
    {
        if self.is_kept {
            let written = rt.rewrite_entry(slot, entry);
            report_failed(rt, &written);
        }
    }

    /// Frees the slot of an entry whose processes have ended, if it has one. A failure is reported, since the next executor would wait
    /// for what may have that number then.
    pub fn clear<R: AgentSystem + Eprint>(&self, rt: &mut R, slot: Option<usize>)
        ensures same { R.view rt.new ≡ R.view rt.old }
    {
        if let (true, Some(slot)) = (self.is_kept, slot) {
            let written = rt.clear_entry(slot);
            report_failed(rt, &written);
        }
    }
}
