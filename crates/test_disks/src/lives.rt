//! Two machines, one after the other: the first crashes in each device call in turn, and the second is opened on a crash image.
use crate::steps::{nowhere, registration};
use disk_model::Fill;
use executor::{Input, InputOf};
use ocf_model::{Reply, ReplyOf, TurnEnd};
use ocf_types::{Action, CommandOf, Millis, Outcome, Question, RequestOf, RscId, Task};
use std::alloc::Global;
use std::collections::VecDeque;
use test_incarnations::{Machine, live_twice};
use test_support::{Script, Scripted};

// A machine whose agent processes are spawned and keep running.
fn machine(alloc: Global, now: u64, inputs: Vec<Input>, stop: u64) -> Option<Machine<Scripted>> {
    let script = Script {
        starts: VecDeque::new(alloc),
        polls: VecDeque::new(alloc),
        kills: VecDeque::new(alloc),
        holds: VecDeque::new(alloc),
    };
    Some(Machine {
        children: Scripted::new(alloc, script, 12).ok()?,
        site: nowhere(alloc),
        now,
        inputs,
        stop,
    })
}

// Inputs that register a resource, ask for its start, and begin it in a turn.
fn first(alloc: Global) -> Option<Vec<Input>> {
    let exec = RequestOf::Command(CommandOf::Exec {
        id: RscId::new(b"r1").ok()?,
        task: Task::plain(Action::Start),
        timeout: Millis::new(20_000)?,
    });
    let mut inputs = Vec::new(alloc);
    let register = registration(alloc, "r1")?;
    inputs
        .push(InputOf::Request {
            now: 1,
            request: register,
        })
        .ok()?;
    inputs
        .push(InputOf::Request {
            now: 2,
            request: exec,
        })
        .ok()?;
    inputs.push(InputOf::Turn { now: 3 }).ok()?;
    Some(inputs)
}

// An input that asks for the results of the resource.
fn second(alloc: Global) -> Option<Vec<Input>> {
    let question = Question::History(RscId::new(b"r1").ok()?);
    let mut inputs = Vec::new(alloc);
    let request = RequestOf::Question(question);
    inputs.push(InputOf::Request { now: 5, request }).ok()?;
    Some(inputs)
}

// Whether the second machine's reply has what the first one's acknowledged, and shows an action that had begun as interrupted.
fn holds(first: &[Reply], second: &[Reply]) -> bool {
    let Some(ReplyOf::History(results)) = second.first() else {
        return first
            .first()
            .is_none_or(|reply| !matches!(reply, ReplyOf::Done));
    };
    let interrupted = results
        .as_slice()
        .iter()
        .any(|ended| ended.outcome == Outcome::Interrupted);
    interrupted || !matches!(first.last(), Some(ReplyOf::Turn(TurnEnd::Done)))
}

// How many requests and turns the first machine, which crashes in this device call, answered; `None` unless all are found again.
fn answered(alloc: Global, stop: u64, fill: Fill) -> Option<usize> {
    let one = machine(alloc, 0, first(alloc)?, stop)?;
    let other = machine(alloc, 4, second(alloc)?, u64::MAX)?;
    let (answers, last) = live_twice(alloc, one, other, fill)?;
    let found = &last.answers.replies;
    let all = found.len() == 1 && holds(&answers.replies, found);
    all.then(|| answers.replies.len())
}

#[test]
fn a_second_machine_finds_what_a_first_one_acknowledged(rt: HostRuntime) {
    let fills = [
        ("what was synced", Fill::Synced),
        ("what was written", Fill::Written),
        ("bytes 01", Fill::Repeated(b"\x01")),
    ];
    for (left, fill) in fills {
        for stop in 1..=40 {
            let opened = answered(rt.alloc(), stop, fill);
            let wanted = Some(if stop < 14 { 0 } else { 3 });
            assert_eq!(rt; opened, wanted, "a crash in call {stop} that leaves {left}");
        }
    }
}
