//! Sessions over whole inputs, with a disk in memory, scripted agent processes and a clock that does not move.
ghost use Rattle.std.specs.Prelude.{◌≡◌, true, IfSome};
ghost use Rattle.exec_session.specs.Steps.{IsReportOf};

use crate::streams::{Feed, Sheet};
use child_model::Poll;
use disk_model::MemDisk;
use exec_client::{JsonClient, NoReasons};
use exec_faults::Fault;
use exec_lines::{ClockTicker, LineInput, Patient, ReadAhead};
use exec_replies::{NoticeForm, Service};
use exec_session::{LineRoom, run_lines};
use executor::{Executor, Report};
use session_machine::{EdgeParts, Mode, Rules, SystemEdge};
use std::alloc::Global;
use std::collections::VecDeque;
use std::io;
use std::rt::Clock;
use std::time::Duration;
use test_support::{NoMetadata, Script, Scripted, nowhere};

// A clock that does not move.
#[derive(Drop)]
struct Standing;

impl Clock for Standing {
    fn monotonic(&self) -> io::Result<Duration> {
        Ok(Duration::from_secs(0))
    }

    fn since_1970(&self) -> io::Result<Duration> {
        Ok(Duration::from_secs(6))
    }
}

// Agent processes with these poll results, which then keep running.
fn children(alloc: Global, polls: &[Poll]) -> Option<Scripted> {
    let mut script = Script {
        starts: VecDeque::new(alloc),
        polls: VecDeque::new(alloc),
        kills: VecDeque::new(alloc),
        holds: VecDeque::new(alloc),
    };
    for poll in polls {
        script.polls.push_back(*poll).ok()?;
    }
    Scripted::new(alloc, script, 768).ok()
}

// The form of notices, and the ready line of a serving session.
fn form_of(mode: Mode) -> NoticeForm<'static> {
    match mode {
        Mode::Run => NoticeForm::Short,
        Mode::Serve => NoticeForm::Timed(Service {
            version: "9.8.7",
            journal: None,
            identity: None,
            left: &[],
        }),
    }
}

// How a session of a test goes: its input comes in reads of at most so many bytes.
#[derive(Drop)]
struct Way<'a> {
    mode: Mode,
    polls: &'a [Poll],
    input: Feed<'a>,
    read_size: usize,
}

// As much as all input of a test.
const WHOLE: usize = 4_096;

// An executor over a journal that is opened at moment 5,000, whose agents have these poll results, and the report of its opening.
fn opened(
    alloc: Global,
    disk: MemDisk,
    polls: &[Poll],
) -> Option<(Executor<MemDisk, Scripted>, Report)>
    ensures is_open { IfSome result (λ opened. opened.0.is_open ≡ true) }
    ensures report { IfSome result (λ opened. IsReportOf opened.0 opened.1) }
{
    let children = children(alloc, polls)?;
    Executor::open(alloc, disk, children, nowhere(alloc), 5_000).ok()
}

// What a session reads and writes, and the buffers of its lines.
#[derive(Drop)]
struct Streams<'a> {
    reader: ReadAhead<Feed<'a>>,
    room: LineRoom,
}

// The end of a session of an executor that was just opened, and its disk. Its drains make at most three turns.
fn ended_on(
    alloc: Global,
    mode: Mode,
    opened: (Executor<MemDisk, Scripted>, Report),
    streams: Streams<'_>,
    output: &mut Sheet,
) -> (Result<(), Fault>, MemDisk)
    requires is_open { opened.0.is_open ≡ true }
    requires report { IsReportOf opened.0 opened.1 }
{
    let rules = Rules {
        mode,
        form: form_of(mode),
        most_turns: 3,
        tidy_at: 0,
    };
    let parts = EdgeParts {
        input: LineInput::new(streams.reader),
        client: JsonClient::new(alloc, Patient::of(output), NoReasons, &opened.0),
        ticker: ClockTicker::new(Standing),
        source: &NoMetadata,
    };
    let edge = SystemEdge::new(alloc, rules, parts, &opened.0);
    let run = run_lines(alloc, edge, opened, streams.room);
    (run.ended, run.store.into_disk())
}

// The end of a session in this way, and its disk.
fn ended_in_way(
    alloc: Global,
    disk: MemDisk,
    way: Way<'_>,
    output: &mut Sheet,
) -> Option<(Result<(), Fault>, MemDisk)> {
    let size = way.read_size.clamp(1, WHOLE);
    let streams = Streams {
        reader: ReadAhead::new(alloc, size, Patient::of(way.input)).ok()?,
        room: LineRoom::new(alloc).ok()?,
    };
    let opened = opened(alloc, disk, way.polls)?;
    Some(ended_on(alloc, way.mode, opened, streams, output))
}

/// The end of a session whose input comes in reads of at most so many bytes.
pub fn ended_over(
    alloc: Global,
    input: Feed<'_>,
    read_size: usize,
    output: &mut Sheet,
) -> Option<Result<(), Fault>> {
    let way = Way {
        mode: Mode::Run,
        polls: &[],
        input,
        read_size,
    };
    let (ended, _disk) = ended_in_way(alloc, MemDisk::new(alloc), way, output)?;
    Some(ended)
}

/// The end of a session, and its output.
#[derive(Drop)]
pub struct Answered {
    pub ended: Result<(), Fault>,
    output: Sheet,
    disk: MemDisk,
}

impl Answered {
    /// The output, as text.
    pub fn text(&self) -> &str {
        self.output.text()
    }
}

fn run_in_way(
    alloc: Global,
    mode: Mode,
    disk: MemDisk,
    polls: &[Poll],
    lines: &[u8],
) -> Option<Answered> {
    let way = Way {
        mode,
        polls,
        input: Feed::even(lines),
        read_size: WHOLE,
    };
    let mut output = Sheet::endless(alloc);
    let (ended, disk) = ended_in_way(alloc, disk, way, &mut output)?;
    Some(Answered {
        ended,
        output,
        disk,
    })
}

/// A session over these lines.
pub fn run_over(alloc: Global, disk: MemDisk, polls: &[Poll], lines: &[u8]) -> Option<Answered> {
    run_in_way(alloc, Mode::Run, disk, polls, lines)
}

/// The end of a session over these lines whose output accepts only so many bytes.
pub fn ended_in(
    alloc: Global,
    disk: MemDisk,
    polls: &[Poll],
    lines: &[u8],
    room: usize,
) -> Option<Result<(), Fault>> {
    let way = Way {
        mode: Mode::Run,
        polls,
        input: Feed::even(lines),
        read_size: WHOLE,
    };
    let (ended, _disk) = ended_in_way(alloc, disk, way, &mut Sheet::of(alloc, room))?;
    Some(ended)
}

/// Registers r1, starts it, and drains.
pub const DRAIN: &[u8] =
    b"{\"op\":\"register\",\"id\":\"r1\",\"provider\":\"p\",\"type\":\"t\"}\n{\"op\":\"exec\",\"id\":\"r1\",\"action\":\"start\"}\n\
    {\"op\":\"drain\"}\n";

const RUNS_ON: &str =
    "{\"ok\":true}\n{\"call\":1,\"key\":\"r1_start_0\",\"ok\":true}\n{\"end\":\"turns\"}\n";

const NOT_RUNNING: &str = "{\"ok\":true}\n{\"call\":1,\"key\":\"r1_start_0\",\"ok\":true}\n\
    {\"action\":\"start\",\"call\":1,\"code\":7,\"id\":\"r1\",\"interval\":0,\"name\":\"OCF_NOT_RUNNING\",\"outcome\":\"done\",\"run\":1}\n\
    {\"end\":\"idle\"}\n";

#[test]
fn a_drain_makes_as_many_turns_as_it_may(rt: HostRuntime) {
    let alloc = rt.alloc();
    for (polls, wanted) in [
        ([].as_slice(), RUNS_ON),
        (&[Poll::Running, Poll::Exited(7)], NOT_RUNNING),
    ] {
        let run = run_over(alloc, MemDisk::new(alloc), polls, DRAIN).expect(&rt, "no run");
        assert_eq!(rt; run.text(), wanted);
        assert_eq!(rt; run.ended, Ok(()), "the end of a drain");
    }
}

// A serving session over these lines, all of which are available at once.
fn served(alloc: Global, polls: &[Poll], lines: &[u8]) -> Option<Answered> {
    run_in_way(alloc, Mode::Serve, MemDisk::new(alloc), polls, lines)
}

const SERVED_ON: &str =
    "{\"dropped\":0,\"identity\":null,\"interrupted\":0,\"journal\":null,\"kind\":\"ready\",\"next_call\":1,\"ready\":true,\
    \"resources\":0,\"version\":\"9.8.7\"}\n\
    {\"kind\":\"reply\",\"ok\":true}\n\
    {\"call\":1,\"key\":\"r1_start_0\",\"kind\":\"reply\",\"ok\":true}\n\
    {\"end\":\"turns\",\"kind\":\"reply\"}\n";

const SERVED_NOT_RUNNING: &str =
    "{\"dropped\":0,\"identity\":null,\"interrupted\":0,\"journal\":null,\"kind\":\"ready\",\"next_call\":1,\"ready\":true,\
    \"resources\":0,\"version\":\"9.8.7\"}\n\
    {\"kind\":\"reply\",\"ok\":true}\n\
    {\"call\":1,\"key\":\"r1_start_0\",\"kind\":\"reply\",\"ok\":true}\n\
    {\"action\":\"start\",\"at\":6000,\"call\":1,\"code\":7,\"expect\":0,\"failed\":true,\"id\":\"r1\",\"interval\":0,\
    \"key\":\"r1_start_0\",\"kind\":\"notice\",\"name\":\"OCF_NOT_RUNNING\",\"outcome\":\"done\",\"reason\":null,\"run\":1,\
    \"since\":6000}\n\
    {\"end\":\"idle\",\"kind\":\"reply\"}\n";

#[test]
fn a_run_that_serves_states_that_it_is_ready_and_answers_as_a_run_does(rt: HostRuntime) {
    let alloc = rt.alloc();
    for (polls, wanted) in [
        ([].as_slice(), SERVED_ON),
        (&[Poll::Running, Poll::Exited(7)], SERVED_NOT_RUNNING),
    ] {
        let run = served(alloc, polls, DRAIN).expect(&rt, "no run");
        assert_eq!(rt; run.text(), wanted);
        assert_eq!(rt; run.ended, Ok(()), "the end of a drain");
    }
}

// A start, then empty lines up to twice 64 lines in all, and a question: the second turn, before the question, reports the end of
// the start.
const AFTER_A_TURN: &[u8] =
    b"{\"op\":\"register\",\"id\":\"r1\",\"provider\":\"p\",\"type\":\"t\"}\n{\"op\":\"exec\",\"id\":\"r1\",\"action\":\"start\"}\n\
    \n\n\n\n\n\n\n\n\n\n\n\n\n\n\n\n\n\n\n\n\n\n\n\n\n\n\n\n\n\n\n\n\n\n\n\n\n\n\n\n\n\n\
    \n\n\n\n\n\n\n\n\n\n\n\n\n\n\n\n\n\n\n\n\n\n\n\n\n\n\n\n\n\n\n\n\n\n\n\n\n\n\n\n\n\n\
    \n\n\n\n\n\n\n\n\n\n\n\n\n\n\n\n\n\n\n\n\n\n\n\n\n\n\n\n\n\n\n\n\n\n\n\n\n\n\n\n\n\n\
    {\"op\":\"list\"}\n";

const REPORTED_BETWEEN: &str =
    "{\"dropped\":0,\"identity\":null,\"interrupted\":0,\"journal\":null,\"kind\":\"ready\",\"next_call\":1,\"ready\":true,\
    \"resources\":0,\"version\":\"9.8.7\"}\n\
    {\"kind\":\"reply\",\"ok\":true}\n\
    {\"call\":1,\"key\":\"r1_start_0\",\"kind\":\"reply\",\"ok\":true}\n\
    {\"action\":\"start\",\"at\":6000,\"call\":1,\"code\":7,\"expect\":0,\"failed\":true,\"id\":\"r1\",\"interval\":0,\
    \"key\":\"r1_start_0\",\"kind\":\"notice\",\"name\":\"OCF_NOT_RUNNING\",\"outcome\":\"done\",\"reason\":null,\"run\":1,\
    \"since\":6000}\n\
    {\"kind\":\"reply\",\"ok\":true,\"resources\":[\"r1\"]}\n";

#[test]
fn a_run_that_serves_makes_turns_between_lines(rt: HostRuntime) {
    let run = served(rt.alloc(), &[Poll::Exited(7)], AFTER_A_TURN).expect(&rt, "no run");
    assert_eq!(rt; run.text(), REPORTED_BETWEEN);
    assert_eq!(rt; run.ended, Ok(()));
}

// A start that runs on, two actions that are queued, and the end of the input.
const TWO_STARTS: &[u8] =
    b"{\"op\":\"register\",\"id\":\"r1\",\"provider\":\"p\",\"type\":\"t\"}\n{\"op\":\"register\",\"id\":\"r2\",\"provider\":\"p\",\"type\":\"t\"}\n\
    {\"op\":\"exec\",\"id\":\"r1\",\"action\":\"start\"}\n{\"op\":\"drain\",\"limit\":0}\n{\"op\":\"exec\",\"id\":\"r2\",\"action\":\"start\"}\n\
    {\"op\":\"exec\",\"id\":\"r2\",\"action\":\"monitor\"}\n";

// The interrupted action, the dropped ones, and how many there were of each.
const READY_AFTER_THE_REPORT: &str =
    "{\"action\":\"start\",\"at\":6000,\"call\":1,\"code\":1,\"expect\":0,\"failed\":false,\"id\":\"r1\",\"interval\":0,\
    \"key\":\"r1_start_0\",\"kind\":\"report\",\"name\":\"OCF_ERR_GENERIC\",\"outcome\":\"interrupted\",\"reason\":null,\
    \"run\":1,\"since\":6000}\n\
    {\"action\":\"start\",\"at\":6000,\"call\":2,\"code\":1,\"expect\":0,\"failed\":false,\"id\":\"r2\",\"interval\":0,\
    \"key\":\"r2_start_0\",\"kind\":\"report\",\"name\":\"OCF_ERR_GENERIC\",\"outcome\":\"dropped\",\"reason\":null,\"run\":0,\
    \"since\":6000}\n\
    {\"action\":\"monitor\",\"at\":6000,\"call\":3,\"code\":1,\"expect\":0,\"failed\":false,\"id\":\"r2\",\"interval\":0,\
    \"key\":\"r2_monitor_0\",\"kind\":\"report\",\"name\":\"OCF_ERR_GENERIC\",\"outcome\":\"dropped\",\"reason\":null,\"run\":0,\
    \"since\":6000}\n\
    {\"dropped\":2,\"identity\":null,\"interrupted\":1,\"journal\":null,\"kind\":\"ready\",\"next_call\":4,\"ready\":true,\
    \"resources\":2,\"version\":\"9.8.7\"}\n";

#[test]
fn a_run_that_serves_states_after_the_report_how_many_lines_that_had(rt: HostRuntime) {
    let alloc = rt.alloc();
    let before = run_over(alloc, MemDisk::new(alloc), &[], TWO_STARTS).expect(&rt, "no run");
    assert_eq!(rt; before.ended, Ok(()), "the end of the run before");
    let run = run_in_way(alloc, Mode::Serve, before.disk, &[], b"").expect(&rt, "no run");
    assert_eq!(rt; run.text(), READY_AFTER_THE_REPORT);
    assert_eq!(rt; run.ended, Ok(()));
}

// Lines with tags: commands that arrive together, one of which is refused, a line of an unknown operation, a question and a drain.
const TAGGED: &[u8] =
    b"{\"op\":\"register\",\"id\":\"r1\",\"provider\":\"p\",\"type\":\"t\",\"tag\":\"a\"}\n\
    {\"op\":\"exec\",\"id\":\"r2\",\"action\":\"start\",\"tag\":\"b\"}\n{\"op\":\"exec\",\"id\":\"r1\",\"action\":\"start\",\"tag\":\"\"}\n\
    \n{\"op\":\"list\"}\n{\"op\":\"fly\",\"tag\":\"c\"}\n{\"op\":\"list\",\"tag\":\"d\"}\n{\"op\":\"drain\",\"tag\":\"e\"}\n";

const TAGGED_REPLIES: &str =
    "{\"dropped\":0,\"identity\":null,\"interrupted\":0,\"journal\":null,\"kind\":\"ready\",\"next_call\":1,\"ready\":true,\
    \"resources\":0,\"version\":\"9.8.7\"}\n\
    {\"kind\":\"reply\",\"ok\":true,\"tag\":\"a\"}\n\
    {\"error\":\"unknown-resource\",\"key\":\"id\",\"kind\":\"reply\",\"message\":\"no resource of this id is registered\",\
    \"number\":5,\"tag\":\"b\"}\n\
    {\"call\":1,\"key\":\"r1_start_0\",\"kind\":\"reply\",\"ok\":true,\"tag\":\"\"}\n\
    {\"kind\":\"reply\",\"ok\":true,\"resources\":[\"r1\"]}\n\
    {\"error\":\"unknown-op\",\"key\":\"op\",\"kind\":\"reply\",\
    \"message\":\"there is no operation fly; op must be one of register, unregister, params, exec, recur, cancel, withdraw, \
    forget, list, info, history, drain, watch, meta, tidy, status, version and leave\",\"number\":2,\"tag\":\"c\"}\n\
    {\"kind\":\"reply\",\"ok\":true,\"resources\":[\"r1\"],\"tag\":\"d\"}\n\
    {\"action\":\"start\",\"at\":6000,\"call\":1,\"code\":7,\"expect\":0,\"failed\":true,\"id\":\"r1\",\"interval\":0,\
    \"key\":\"r1_start_0\",\"kind\":\"notice\",\"name\":\"OCF_NOT_RUNNING\",\"outcome\":\"done\",\"reason\":null,\"run\":1,\
    \"since\":6000,\"tag\":\"\"}\n\
    {\"end\":\"idle\",\"kind\":\"reply\",\"tag\":\"e\"}\n";

#[test]
fn a_reply_and_a_notice_have_the_tag_of_their_line(rt: HostRuntime) {
    let run = served(rt.alloc(), &[Poll::Exited(7)], TAGGED).expect(&rt, "no run");
    assert_eq!(rt; run.text(), TAGGED_REPLIES);
    assert_eq!(rt; run.ended, Ok(()));
}
