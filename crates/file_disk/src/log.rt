//! The counts of the device calls, and for contracts the record of them.
ghost use Rattle.std.specs.Prelude.{◌≡◌};
ghost use Rattle.file_disk.specs.Past.{clock_of, failures_of};

use crate::call::Call;
use crate::record::Record;
use disk_model::DiskFault;
use ocf_types::Part;

/// The number of device calls and of those that failed, and for contracts the record of them.
#[derive(Drop)]
pub struct Log {
    clock: u64,
    failures: u64,
    calls: Record,
    pub ghost clock_is: { clock ≡ clock_of calls.events },
    pub ghost failures_is: { failures ≡ failures_of calls.events },
}

impl Log {
    ghost use Rattle.std.specs.Prelude.{◌<◌, ◌↔◌, IsTrue};
    ghost use Rattle.disk_model.specs.Disk.{LAST};
    ghost use Rattle.file_disk.specs.Log.{log_view};
    ghost use Rattle.file_disk.specs.Record.{Begins, Found, IsDone, IsFault, Noted};

    /// A log of no calls, on a disk that holds these bytes.
    pub fn new(a: &[u8], b: &[u8]) -> Log
        ensures { Begins a.now b.now result.calls }
    {
        Log {
            clock: 0,
            failures: 0,
            calls: Record::new(a, b),
        }
    }

    /// Notes bytes that were found in a part, behind those that were found there before.
    pub fn find(&mut self, part: Part, bytes: &[u8])
        ensures { Found part bytes.now self.old.calls self.new.calls }
    {
        self.calls.find(&part, bytes);
    }

    pub fn clock(&self) -> u64
        ensures { result ≡ (log_view self.now).clock }
    {
        self.clock
    }

    pub fn failures(&self) -> u64
        ensures { result ≡ (log_view self.now).failures }
    {
        self.failures
    }

    /// Whether another call is made: no call failed so far, and one more can be counted.
    pub fn goes_on(&self) -> bool
        ensures { IsTrue result ↔ ((log_view self.now).clock < LAST)
            × ((log_view self.now).failures ≡ 0) }
    {
        self.clock < u64::MAX && self.failures == 0
    }

    /// Notes and counts a call that succeeded.
    #[tactic(auto, using(crate::specs::RecordLemmas::clock_noted, crate::specs::RecordLemmas::failures_done))]
    pub fn pass(&mut self, call: &Call, bytes: &[u8])
        requires unspent { (log_view self.old).clock < LAST }
        requires done { IsDone call.now }
        ensures { Noted call.now bytes.now self.old.calls self.new.calls }
    {
        self.calls.note(call, bytes);
        self.clock += 1;
    }

    /// Notes and counts a call that failed.
    #[tactic(auto, using(crate::specs::RecordLemmas::clock_noted, crate::specs::RecordLemmas::failures_fault))]
    pub fn fail(&mut self, call: &Call, bytes: &[u8]) -> DiskFault
        requires { IsFault call.now }
        ensures { Noted call.now bytes.now self.old.calls self.new.calls }
    {
        self.calls.note(call, bytes);
        self.clock = self.clock.saturating_add(1);
        self.failures = self.failures.saturating_add(1);
        DiskFault
    }
}
