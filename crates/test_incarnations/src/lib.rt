//! An example of the promise: an executor over a disk in memory makes, through crashes, a history of incarnations to which
//! `executor_laws::laws::promise` applies. Nothing here is part of the product.
#![tactic(auto)]

ghost use Rattle.std.specs.Prelude.{◌∷◌, [], IfNone, IfSome, IsTrue, List};
ghost use Rattle.disk_model.specs.Image.{Image};
ghost use Rattle.disk_model.specs.MemDisk.{view_of};
ghost use Rattle.child_model.specs.Children.{Admits};
ghost use Rattle.executor_laws.specs.Joins.{as_calls};
ghost use Rattle.executor.specs.Exchanges.{Exchange};
ghost use Rattle.test_incarnations.specs.History.{AreAnswered, IsHistory, IsPromised, IsIncarnation, IsRefused, MayRefuse};

pub mod one_history;

use child_model::Children;
use disk_model::{Disk, Fill, MemDisk};
use exec_journal::Journal;
use executor::{Executor, Input, OpenError};
use executor_laws::laws::{lemma_session_is_calls, lemma_whole_history, promise};
use growth::Grows;
use ocf_env::Site;
use ocf_model::Reply;
use std::alloc::Global;

/// A machine: its agent processes, the paths of its agents, the moment at which its executor is opened, in milliseconds since
/// 1970, the inputs of the executor, and the device call in which the machine crashes, counted from 1.
#[derive(Drop)]
pub struct Machine<C: Children + Drop, A: Grows = Global> {
    pub children: C,
    pub site: Site<A>,
    pub now: u64,
    pub inputs: Vec<Input<A>, A>,
    pub stop: u64,
}

/// What a machine answered: why its executor was not opened; or, if it was, one reply to each of its inputs.
#[derive(Drop)]
pub struct Answers<A: Grows = Global> {
    pub refused: Option<OpenError>,
    pub replies: Vec<Reply<A>, A>,
}

/// A disk as a machine left it, and what the machine answered.
#[derive(Drop)]
pub struct Stopped<D: Disk + Drop, A: Grows = Global> {
    pub disk: D,
    pub answers: Answers<A>,
}

// Opens the executor of a machine, and runs it over its inputs. `None` if memory for the replies is refused.
fn run_incarnation<D: Disk + Drop, C: Children + Drop, A: Grows>(
    alloc: A,
    disk: D,
    machine: Machine<C, A>,
) -> Option<Stopped<D, A>>
    requires site { Admits (C.view machine.children).site machine.site }
    ensures runs { IfSome result
        (λ r. IsIncarnation D.view (as_calls machine.inputs.items r.answers.replies.items) disk r.disk) }
    ensures answers { IfSome result
        (λ r. AreAnswered (IsRefused D.view A.refuses disk r.disk (C.view machine.children) machine.now)
        r.answers.refused machine.inputs.items r.answers.replies.items) }
    ensures memory { IfNone result (IsTrue A.refuses) }
{
    lemma_session_is_calls::<Journal<D, A>>();
    lemma_whole_history::<D>();
    let mut replies = Vec::new(alloc);
    match Executor::open(alloc, disk, machine.children, machine.site, machine.now) {
        Ok((mut executor, _report)) => {
            let Ok(()) = executor.session(machine.inputs, &mut replies) else {
                return None;
            };
            let disk = executor.close().0;
            let refused = None;
            Some(Stopped {
                disk,
                answers: Answers { refused, replies },
            })
        }
        Err(fault) => {
            let refused = Some(fault.why);
            Some(Stopped {
                disk: fault.disk,
                answers: Answers { refused, replies },
            })
        }
    }
}

// A crash image of a disk, with this fill for bytes that were not synced. If memory for it is refused, and after 2 ^ 64 device calls,
// the disk itself, as if the crash had lost nothing.
fn crashed<A: Grows>(alloc: A, disk: MemDisk<A>, fill: Fill) -> MemDisk<A>
    ensures left { (c : Image) → (view_of result).now c → (view_of disk).since (view_of disk).clock c }
{
    let Some(call) = disk.clock().checked_add(1) else {
        return disk;
    };
    let Ok(image) = disk.image(alloc, call, fill) else {
        return disk;
    };
    image
}

/// One more incarnation: a machine on this disk, which fails each device call from the machine's crash on. Returns a crash image,
/// with this fill for bytes that were not synced. `None` if memory for the replies is refused.
pub fn live<C: Children + Drop, A: Grows>(
    alloc: A,
    mut disk: MemDisk<A>,
    machine: Machine<C, A>,
    fill: Fill,
) -> Option<Stopped<MemDisk<A>, A>>
    requires site { Admits (C.view machine.children).site machine.site }
    ensures incarnations { IfSome result (λ r. (older : List (List Exchange)) → IsHistory view_of older disk
        → IsHistory view_of (as_calls machine.inputs.items r.answers.replies.items ∷ older) r.disk
        × AreAnswered (MayRefuse A.refuses) r.answers.refused machine.inputs.items r.answers.replies.items) }
    ensures memory { IfNone result (IsTrue A.refuses) }
{
    disk.plan_stop(machine.stop);
    lemma_whole_history::<MemDisk<A>>();
    let stopped = run_incarnation(alloc, disk, machine)?;
    Some(Stopped {
        disk: crashed(alloc, stopped.disk, fill),
        answers: stopped.answers,
    })
}

/// Two machines, one after the other, the first one on an empty disk. Returns what each answered. `None` if memory for the replies is
/// refused.
pub fn live_twice<C: Children + Drop, A: Grows>(
    alloc: A,
    first: Machine<C, A>,
    second: Machine<C, A>,
    fill: Fill,
) -> Option<(Answers<A>, Stopped<MemDisk<A>, A>)>
    requires first { Admits (C.view first.children).site first.site }
    requires second { Admits (C.view second.children).site second.site }
    ensures promised { IfSome result (λ r. IsPromised view_of
        (as_calls second.inputs.items r.1.answers.replies.items ∷ as_calls first.inputs.items r.0.replies.items ∷ []) r.1.disk) }
    ensures first_answers { IfSome result
        (λ r. AreAnswered (MayRefuse A.refuses) r.0.refused first.inputs.items r.0.replies.items) }
    ensures second_answers { IfSome result
        (λ r. AreAnswered (MayRefuse A.refuses) r.1.answers.refused second.inputs.items r.1.answers.replies.items) }
    ensures memory { IfNone result (IsTrue A.refuses) }
{
    lemma_whole_history::<MemDisk<A>>();
    promise::<MemDisk<A>>();
    let stopped = live(alloc, MemDisk::new(alloc), first, fill)?;
    let last = live(alloc, stopped.disk, second, fill)?;
    Some((stopped.answers, last))
}
