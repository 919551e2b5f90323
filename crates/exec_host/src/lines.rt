//! The lines of a session, over an executor that was just opened.
ghost use Rattle.std.specs.Prelude.{◌≡◌, ◌≤◌, ◌<◌, true, List, IfErr};
ghost use Rattle.exec_faults.specs.Faults.{HasCause, IsRunEnd};
ghost use Rattle.exec_client.specs.SentItem.{SentItem};
ghost use Rattle.exec_client.specs.Failures.{tell_failure};
ghost use Rattle.session_machine.specs.Behaviours.{opening};
ghost use Rattle.session_machine.specs.First.{IsNew};
ghost use Rattle.exec_session.specs.Steps.{IsReportOf};
ghost use Rattle.exec_host.specs.Asked.{system_of};
ghost use Rattle.exec_host.specs.Places.{at_check, at_moment, at_writer};
ghost use Rattle.exec_host.specs.Requests.{Allows, IsOfRun, OpenWriter};
ghost use Rattle.exec_host.specs.Lines.{RunsLines, RunsSession};
ghost use Rattle.exec_host.specs.Services.{served_directory};
ghost use Rattle.exec_host.specs.Sites.{site_of};

use crate::host::Host;
use crate::options::{Findings, events_of, rules_of, served_directory};
use crate::upkeep::directory_of;
use exec_client::{Client, Eventful, JsonClient, Strict};
use exec_faults::Fault;
use exec_options::Options;
use exec_session::{LineRoom, Run, run_lines};
use executor::{On, Report};
use growth::Grows;
use ocf_env::Site;
use ocf_types::Orphan;
use session_machine::{EdgeParts, Rules, SystemEdge};
use std::alloc::Global;
use store_model::Store;

/// What the lines of a session need besides its executor.
#[derive(Drop)]
pub struct LineParts<R: Drop> {
    /// Standard input.
    pub reader: R,
    /// The site of the agents that are asked for their metadata.
    pub site: Site,
    /// The buffer for lines.
    pub room: LineRoom,
    /// The processes that live on from interrupted actions.
    pub left: Vec<Orphan>,
}

/// How the lines of a session ended, and what it gave back.
#[derive(Drop)]
pub struct LinesEnd<S: Drop, C: Drop> {
    pub ended: Result<(), Fault>,
    /// Whether a message of the session said that a line was not done or that an action failed.
    pub has_failed: bool,
    pub store: S,
    pub children: C,
}

// The client of a session that the options ask for.
type OptionsClient<H: Host, S> = Strict<
    S,
    H::Agents,
    Eventful<JsonClient<On<S, H::Agents>, H::Writer, H::Reasons>, H::Errors>,
>;

// The client of a session: standard output, with the lines about results on standard error, and whether any of them was of a failure.
fn client_of<H: Host, S: Store + Drop>(
    host: &mut H,
    options: Options,
    executor: &On<S, H::Agents>,
) -> OptionsClient<H, S>
    requires open { executor.now.is_open ≡ true }
    requires may { H.may (OpenWriter (served_directory options)) }
    requires next { H.stage host.old < at_writer }
    ensures stage { H.stage host.new ≡ at_writer }
    ensures new { IsNew result executor.now }
    ensures writes { (writer : H.Writer) × H.asked.writer (served_directory options.entry) writer
        × (result.written ≡ H.Writer.contents writer) }
{
    let alloc = host.alloc();
    let writer = host.writer(served_directory(options));
    let json_client = JsonClient::new(
        alloc,
        writer,
        host.reasons(options.log, options.logs),
        executor,
    );
    let client = Eventful::new(alloc, json_client, host.errors(), events_of(host, options));
    Strict::new(client)
}

// Answers the lines of this input over an executor that was just opened, by these rules.
fn run_over<'a, H: Host, S: Store + Drop, T: Client<S, H::Agents> + Drop>(
    alloc: Global,
    rules: Rules<'a>,
    parts: EdgeParts<'a, H::Reader, T, H::Ticker, H::Source>,
    opened: (On<S, H::Agents>, Report),
    room: LineRoom,
) -> Run<SystemEdge<'a, H::Reader, S, H::Agents, T, H::Ticker, H::Source>>
    requires new { IsNew (T.client_view parts.client) opened.0 }
    requires opening_report { IsReportOf opened.0 opened.1 }
    ensures runs { RunsSession (system_of H.asked H.Files.view H.Agents.view H.Source.gives H.Reader.view H.Writer.contents
        H.Ticker.asked ⟦<Global as Grows>⟧.refuses)
        S.view
        (opening rules.entry
        (record {
          input = H.Reader.view parts.entry.input;
          ticks = H.Ticker.asked parts.entry.ticker;
          source = H.Source.of parts.entry.source.now;
        })
        opened.0 (T.client_view parts.entry.client)) result.edge
        (record {
          ran = result.ended;
          sent = result.edge.trace.state.client.reported;
          store = result.store;
          agents = result.children;
        }) }
    ensures memory { IfErr result.ended (HasCause ⟦<Global as Grows>⟧.refuses) }
{
    let edge = SystemEdge::new(alloc, rules, parts, &opened.0);
    let run = run_lines(alloc, edge, opened, room);
    run.edge.lemma_faithful();
    run
}

/// Sends the report of an executor that was just opened, and answers the lines of standard input.
#[tactic(auto, using(crate::proofs::LineLemmas::run_ends))]
pub fn answer_lines<H: Host, S: Store + Drop>(
    host: &mut H,
    options: Options,
    parts: LineParts<H::Reader>,
    opened: (On<S, H::Agents>, Report),
) -> LinesEnd<S, H::Agents>
    requires site { parts.site ≡ site_of options }
    requires open { opened.0.is_open ≡ true }
    requires opening_report { IsReportOf opened.0 opened.1 }
    requires may { Allows H.may (IsOfRun H.asked options) }
    requires next { H.stage host.old ≤ at_moment }
    ensures stage { H.stage host.new < at_check }
    ensures ends { IsRunEnd result.ended }
    ensures runs { (sent : List SentItem) × (result.has_failed ≡ tell_failure sent)
        × RunsLines (system_of H.asked H.Files.view H.Agents.view H.Source.gives H.Reader.view H.Writer.contents
        H.Ticker.asked ⟦<Global as Grows>⟧.refuses)
        S.view options.entry parts.reader parts.left.items opened.0
        (record { ran = result.ended; sent = sent; store = result.store; agents = result.children }) }
    ensures memory { IfErr result.ended (HasCause ⟦<Global as Grows>⟧.refuses) }
{
    let LineParts {
        reader,
        site,
        room,
        left,
    } = parts;
    let (executor, report) = opened;
    let alloc = host.alloc();
    let ticker = host.ticker(directory_of(options.journal), executor.clock());
    let source = host.source(site, !options.no_groups);
    let identity = host.identity(directory_of(options.journal));
    let found = Findings {
        identity: identity.as_ref(),
        left: left.as_slice(),
    };
    let rules = rules_of(options, found);
    let parts = EdgeParts {
        input: reader,
        client: client_of(host, options, &executor),
        ticker,
        source: &source,
    };
    let run = run_over::<H, S, _>(alloc, rules, parts, (executor, report), room);
    let Run {
        ended,
        edge,
        store,
        children,
    } = run;
    let (reader, client, ticker) = edge.into_parts();
    host.leave(reader, ticker, source);
    LinesEnd {
        ended,
        has_failed: client.has_failed(),
        store,
        children,
    }
}
