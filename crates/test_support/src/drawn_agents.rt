//! Scripted agent processes whose answers are drawn.
use crate::script::Script;
use crate::scripted::Scripted;
use anyhow::Result;
use child_model::Poll;
use ocf_env::{Site, Text};
use ocf_types::StartFault;
use std::alloc::Global;
use std::collections::VecDeque;

// The number of spawns and polls that are drawn. After them every spawn succeeds, and every agent process keeps running.
const DRAWS: usize = 16_384;

// The number of polls at which a slow agent process is still running.
const SLOW: usize = 100;

// Three entries for each of 256 resources.
const BOOK: usize = 768;

// Pseudo-random numbers from a seed, by Knuth's linear congruential generator of MMIX.
#[derive(Drop)]
struct Dice {
    state: u64,
}

impl Dice {
    // A number from 0 to 255.
    fn roll(&mut self) -> u8 {
        self.state = self
            .state
            .wrapping_mul(6_364_136_223_846_793_005)
            .wrapping_add(1_442_695_040_888_963_407);
        (self.state >> 56) as u8
    }
}

fn empty_script(alloc: Global) -> Script {
    Script {
        starts: VecDeque::new(alloc),
        polls: VecDeque::new(alloc),
        kills: VecDeque::new(alloc),
        holds: VecDeque::new(alloc),
    }
}

fn start_of(roll: u8) -> Result<(), StartFault> {
    match roll {
        0 => Err(StartFault::Missing),
        1 => Err(StartFault::Denied),
        2 => Err(StartFault::Other),
        _ => Ok(()),
    }
}

// The result of a poll, and how often it is repeated.
fn poll_of(roll: u8) -> (Poll, usize) {
    match roll {
        0..=1 => (Poll::Running, SLOW),
        2..=40 => (Poll::Running, 1),
        41..=50 => (Poll::Exited(7), 1),
        51..=53 => (Poll::Exited(1), 1),
        54 => (Poll::Signaled(9), 1),
        55 => (Poll::Fault, 1),
        _ => (Poll::Exited(0), 1),
    }
}

fn push_poll(polls: &mut VecDeque<Poll>, roll: u8) -> Result<()> {
    let (poll, times) = poll_of(roll);
    for _ in 0..times {
        polls.push_back(poll)?;
    }
    Ok(())
}

/// Agent processes whose spawns and ends follow from a seed: most are spawned and succeed.
pub fn agents(alloc: Global, seed: u64) -> Result<Scripted> {
    let mut dice = Dice { state: seed };
    let mut script = empty_script(alloc);
    for _ in 0..DRAWS {
        script.starts.push_back(start_of(dice.roll()))?;
        push_poll(&mut script.polls, dice.roll())?;
    }
    Ok(Scripted::new(alloc, script, BOOK)?)
}

/// Agent processes that are spawned and keep running.
pub fn no_agents(alloc: Global) -> Result<Scripted> {
    Ok(Scripted::new(alloc, empty_script(alloc), BOOK)?)
}

/// Empty agent paths: there are no agents.
pub fn nowhere(alloc: Global) -> Site {
    let (root, path) = (String::new(alloc), String::new(alloc));
    Site::new(Text::new(root), Text::new(path), None)
}
