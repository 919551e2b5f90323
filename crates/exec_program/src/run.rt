//! A session over a journal: its executor, its standard streams, and how it ends.
ghost use Rattle.std.specs.Prelude.{◌≡◌, ◌≤◌, ◌<◌, true, IfErr, IfOk, option_map};
ghost use Rattle.exec_faults.specs.Faults.{HasCause, IsRunEnd};
ghost use Rattle.exec_session.specs.Steps.{IsReportOf};
ghost use Rattle.exec_host.specs.Asked.{AreFresh, system_of};
ghost use Rattle.exec_host.specs.Limits.{book_room};
ghost use Rattle.exec_host.specs.Places.{at_agents, at_close, at_moment, at_reader};
ghost use Rattle.exec_host.specs.Requests.{Allows, IsOfRun, MakeAgents, OpenReader};
ghost use Rattle.exec_program.specs.Runs.{RunsOn, Serves};
ghost use Rattle.exec_host.specs.Services.{served_directory};
ghost use Rattle.exec_host.specs.Sites.{site_of};
ghost use Rattle.exec_host.specs.Upkeeps.{upkeep_of};

use crate::ends::{ended_over, judged, opening_fault, report_failed_device};
use disk_model::Disk;
use exec_faults::Fault;
use exec_host::{BOOK_ROOM, Host, LineParts, answer_lines, served_directory, site_of, upkeep_of};
use exec_options::Options;
use exec_session::LineRoom;
use executor::{Executor, Report};
use executor_laws::runs::{lemma_refusal_keeps_promise, lemma_run_keeps_promise};
use file_disk::ReportsError;
use growth::{Grows, Refused};
use ocf_env::Site;
use std::alloc::Global;

// The agents of a session, the site for its executor, and what its lines need.
fn prepared<H: Host>(
    host: &mut H,
    options: Options,
    log: H::Log,
) -> Result<(H::Agents, Site, LineParts<H::Reader>), Refused>
    requires may_read { H.may OpenReader }
    requires may_make { H.may (MakeAgents (upkeep_of options) log book_room) }
    requires next { H.stage host.old < at_reader }
    ensures stage { H.stage host.new ≤ at_agents }
    ensures agents { IfOk result
        (λ r. H.asked.agents (upkeep_of options.entry) log r.2.left.items r.0) }
    ensures fresh { IfOk result (λ r. AreFresh book_room (H.Agents.view r.0)) }
    ensures reader { IfOk result (λ r. H.asked.reader r.2.reader) }
    ensures sites { IfOk result (λ r. (r.1 ≡ site_of options.entry) × (r.2.site ≡ site_of options.entry)) }
{
    let alloc = host.alloc();
    let reader = host.reader()?;
    // the book is smaller than a growth may be, so it is memory that is lacking
    let (agents, left) = match host.agents(upkeep_of(options), log, BOOK_ROOM) {
        Ok(made) => made,
        Err(_) => return Err(Refused::known()),
    };
    let own = site_of(alloc, options)?;
    let site = site_of(alloc, options)?;
    let room = LineRoom::new(alloc)?;
    Ok((
        agents,
        own,
        LineParts {
            reader,
            site,
            room,
            left,
        },
    ))
}

// Answers the lines of standard input over an executor that was just opened. Gives back the disk, and how the program ends.
fn served<H: Host, D: Disk + ReportsError + Drop>(
    host: &mut H,
    options: Options,
    parts: LineParts<H::Reader>,
    watch: &H::Watch,
    opened: (Executor<D, H::Agents>, Report),
) -> (D, Result<(), Fault>)
    requires site { parts.site ≡ site_of options }
    requires open { opened.0.is_open ≡ true }
    requires opening_report { IsReportOf opened.0 opened.1 }
    requires watched { H.asked.watch (served_directory options) watch.now }
    requires may { Allows H.may (IsOfRun H.asked options) }
    requires next { H.stage host.old ≤ at_moment }
    ensures stage { H.stage host.new < at_close }
    ensures ends { IsRunEnd result.1 }
    ensures serves { Serves (system_of H.asked H.Files.view H.Agents.view H.Source.gives H.Reader.view H.Writer.contents
        H.Ticker.asked ⟦<Global as Grows>⟧.refuses)
        D.view options.entry parts watch.now opened.0 result.0 result.1 }
    ensures memory { IfErr result.1 (HasCause ⟦<Global as Grows>⟧.refuses) }
{
    let lines = answer_lines(host, options, parts, opened);
    let disk = lines.store.into_disk();
    let ended = report_failed_device(host, options, &disk, lines.ended);
    let ended = judged(options, lines.has_failed, ended);
    let ended = ended_over(host, options, watch, ended);
    host.report_run(ended);
    (disk, ended)
}

/// Opens the executor on this disk and answers the lines of standard input. Gives back the disk, and how the program ends.
#[tactic(auto, using(crate::proofs::RunLemmas::fresh_admits, crate::proofs::StartLemmas::same_ends))]
pub fn serve_agents<H: Host, D: Disk + ReportsError + Drop>(
    host: &mut H,
    options: Options,
    log: H::Log,
    disk: D,
) -> (D, Result<(), Fault>)
    requires log { H.asked.log (option_map (λ s. s.now) options.log) (option_map (λ s. s.now) options.logs) log }
    requires may { Allows H.may (IsOfRun H.asked options) }
    requires next { H.stage host.old < at_reader }
    ensures stage { H.stage host.new < at_close }
    ensures ends { IsRunEnd result.1 }
    ensures runs { RunsOn (system_of H.asked H.Files.view H.Agents.view H.Source.gives H.Reader.view H.Writer.contents
        H.Ticker.asked ⟦<Global as Grows>⟧.refuses)
        D.view options.entry log disk result.0 result.1 }
    ensures memory { IfErr result.1 (HasCause ⟦<Global as Grows>⟧.refuses) }
{
    let Ok((agents, own, parts)) = prepared(host, options, log) else {
        return (disk, Err(Fault::Memory));
    };
    let watch = host.watch(served_directory(options));
    let now = host.moment();
    lemma_run_keeps_promise::<D>();
    lemma_refusal_keeps_promise::<D>();
    match Executor::open(host.alloc(), disk, agents, own, now) {
        Ok(opened) => served(host, options, parts, &watch, opened),
        Err(fault) => {
            let ended = report_failed_device(
                host,
                options,
                &fault.disk,
                Err(opening_fault(fault.why)),
            );
            (fault.disk, ended)
        }
    }
}
