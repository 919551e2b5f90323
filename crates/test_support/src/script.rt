//! The script of simulated agent processes.
use child_model::{KillFault, Poll};
use ocf_types::{RscId, StartFault};
use std::alloc::{Allocator, Global};
use std::collections::VecDeque;

/// The answers to starts, polls and kills, each list in its order. After the end of its list a start succeeds, a poll answers
/// that the process runs, and a kill succeeds. The resources that are held from the beginning on; each call of `end_killed` releases
/// the first of them, so a resource stays held as long as it is in the list once more.
#[derive(Drop)]
pub struct Script<A: Allocator = Global> {
    pub starts: VecDeque<Result<(), StartFault>, A>,
    pub polls: VecDeque<Poll, A>,
    pub kills: VecDeque<Result<(), KillFault>, A>,
    pub holds: VecDeque<RscId, A>,
}
