//! The reason for the failure of one run, in a log of all resources. Its lines do not say which run wrote them, so a reason is that of a
//! run only if no other one had begun and not ended.
use crate::headings::{Begin, begin_in, end_in};
use growth::{Refused, push};
use std::alloc::Global;

// The prefix of a line with a reason.
const WORD: &str = "ocf-exit-reason:";

/// A log that is read line by line for the reason of a run.
#[derive(Drop)]
pub struct SharedLog<'a> {
    run: u64,
    // Whether the run has begun, and whether it has ended.
    has_begun: bool,
    has_ended: bool,
    // The other runs that have begun and not ended.
    others: Vec<Begin<'a>>,
    last: Option<&'a [u8]>,
}

impl<'a> SharedLog<'a> {
    /// No line was read yet.
    pub fn new(alloc: Global, run: u64) -> SharedLog<'a> {
        SharedLog {
            run,
            has_begun: false,
            has_ended: false,
            others: Vec::new(alloc),
            last: None,
        }
    }

    // A run begins. An earlier one of its resource is over then, also one whose end was not written since the executor was killed.
    fn begin(&mut self, begin: Begin<'a>) -> Result<(), Refused> {
        self.others
            .retain(|other| other.id != begin.id && other.run != begin.run);
        if begin.run == self.run {
            self.has_begun = true;
            self.has_ended = false;
            self.last = None;
            return Ok(());
        }
        push(&mut self.others, begin)
    }

    // A run has ended. If its begin was not read, it ran all the time before.
    fn end(&mut self, run: u64) {
        if run == self.run {
            self.has_ended = true;
            return;
        }
        let count = self.others.len();
        self.others.retain(|other| other.run != run);
        if self.others.len() == count && !self.has_ended {
            self.last = None;
        }
    }

    // Whether the run alone goes on.
    fn is_alone(&self) -> bool {
        self.has_begun && !self.has_ended && self.others.is_empty()
    }

    /// Reads the next line.
    pub fn read(&mut self, line: &'a [u8]) -> Result<(), Refused> {
        if let Some(begin) = begin_in(line) {
            return self.begin(begin);
        }
        if let Some(run) = end_in(line) {
            self.end(run);
        } else if self.is_alone() && line.starts_with(WORD.as_bytes()) {
            self.last = Some(line);
        }
        Ok(())
    }

    /// The last line with a reason of the run. The oldest run that has not ended by now may be the run of any line since its begin.
    pub fn last(&self, oldest: Option<u64>) -> Option<&'a [u8]> {
        let oldest = oldest.unwrap_or(self.run);
        if oldest < self.run && !self.others.iter().any(|other| other.run == oldest) {
            return None;
        }
        self.last
    }
}
