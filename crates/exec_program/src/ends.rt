//! How a session ends.
ghost use Rattle.std.specs.Prelude.{◌≡◌, ◌<◌, true, Err, IfErr, IsErrOf};
ghost use Rattle.exec_faults.specs.Faults.{HasCause, IsRunEnd};
ghost use Rattle.exec_host.specs.Places.{at_check, at_close};
ghost use Rattle.exec_host.specs.Requests.{Allows, IsOfStreams};
ghost use Rattle.exec_program.specs.Runs.{EndsBy, judged};
ghost use Rattle.exec_host.specs.Services.{served_directory};
ghost use Rattle.exec_program.specs.Starts.{opening_fault};

use exec_faults::Fault;
use exec_host::{Host, served_directory};
use exec_options::Options;
use executor::OpenError;
use file_disk::ReportsError;
use growth::Grows;
use std::alloc::Global;

// The last line of a session in `serve` that its disk ends.
const DISK_LINE: &[u8] = b"{\"end\":\"disk\",\"kind\":\"trouble\"}\n";

/// The fault of an executor that was not opened.
pub fn opening_fault(why: OpenError) -> Fault
    ensures { result ≡ opening_fault why }
{
    match why {
        OpenError::Disk => Fault::Disk,
        OpenError::Damaged(damage) => Fault::Damaged(damage),
        OpenError::Memory => Fault::Memory,
        // agents are fresh at each opening, and never of another journal
        OpenError::Foreign => Fault::Disk,
        OpenError::Full => Fault::Full,
    }
}

/// Reports a fault of the device, of which the disk knows more than the fault holds, and returns the end unchanged.
pub fn report_failed_device<H: Host, D: ReportsError>(
    host: &H,
    options: Options,
    disk: &D,
    ended: Result<(), Fault>,
) -> Result<(), Fault>
    ensures { result ≡ ended }
{
    if let Err(Fault::Disk) = ended {
        host.report_device(options, disk.first_error());
    }
    ended
}

/// How a session counts that ended so, in which something failed or not: with `--strict` a failure is a fault.
pub fn judged(options: Options, failed: bool, ended: Result<(), Fault>) -> Result<(), Fault>
    ensures judged { result ≡ judged options.entry failed ended }
    ensures run { IsRunEnd ended → IsRunEnd result }
    ensures memory { IfErr ended (HasCause ⟦<Global as Grows>⟧.refuses)
        → IfErr result (HasCause ⟦<Global as Grows>⟧.refuses) }
{
    match ended {
        Ok(()) if options.strict && failed => Err(Fault::Failed),
        ended => ended,
    }
}

// Whether a session ended because its input or output failed.
fn is_broken_off(ended: Result<(), Fault>) -> bool
    ensures broken { result ≡ true → IsErrOf ended Fault.InputOrOutput }
    ensures other { ended ≡ Err Fault.InputOrOutput → result ≡ true }
{
    matches!(ended, Err(Fault::InputOrOutput))
}

/// How the program ends after a session over watched paths: if it broke off because they lead elsewhere, by its device, with the line of
/// such an end.
#[tactic(auto, using(crate::proofs::RequestLemmas::allows_line))]
pub fn ended_over<H: Host>(
    host: &mut H,
    options: Options,
    watch: &H::Watch,
    ended: Result<(), Fault>,
) -> Result<(), Fault>
    requires watched { H.asked.watch (served_directory options) watch.now }
    requires may { Allows H.may (IsOfStreams H.asked options) }
    requires next { H.stage host.old < at_check }
    ensures stage { H.stage host.new < at_close }
    ensures run { IsRunEnd ended → IsRunEnd result }
    ensures ends { EndsBy H.asked options.entry watch.now ended result }
    ensures memory { IfErr ended (HasCause ⟦<Global as Grows>⟧.refuses)
        → IfErr result (HasCause ⟦<Global as Grows>⟧.refuses) }
{
    let (true, Some(_)) = (is_broken_off(ended), served_directory(options)) else {
        return ended;
    };
    let Err(error) = host.check(watch) else {
        return ended;
    };
    host.write_line(DISK_LINE);
    host.report_device(options, Some(error));
    Err(Fault::Disk)
}
