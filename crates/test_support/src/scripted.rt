//! Simulated agent processes that answer by a script.
ghost use Rattle.std.specs.Prelude.{◌≡◌, ◌-◌, ◌<◌, ◌==◌, ◌≤◌, [], Contains, IfOk, IsTrue, None, OnErr, drop, length};
ghost use Rattle.std.specs.VecDeque.{deque_items};
ghost use Rattle.child_model.specs.Children.{AllEnded, Ended, after_ends, after_kill, after_poll, after_start, all_ended, live_limit};
ghost use Rattle.child_model.specs.MayStart.{MayStart};
ghost use Rattle.test_support.specs.Scripts.{head_or, killed_on, next_kill, next_poll, next_start, polled_on, started_on};

use crate::live::LiveRuns;
use crate::script::Script;
use child_keeper::Book;
use child_model::{Answer, Children, Entry, KillFault, Poll};
use growth::{GROWTH_LIMIT, Grows};
use ocf_env::Launch;
use ocf_types::{RscId, RunId, StartFault};
use std::alloc::{AllocError, Allocator, Global};
use std::collections::VecDeque;
use store_model::Store;

/// Agent processes that answer what a script says; nothing is spawned. After `new` they allocate nothing.
#[derive(Drop)]
pub struct Scripted<A: Allocator = Global> {
    script: Script<A>,
    fault_in: u64,
    book: Book<A>,
    live: LiveRuns<A>,
    last_run: u64,
}

impl<A: Grows> Scripted<A> {
    ghost use Rattle.test_support.specs.Scripted.{children_of, planned_in, script_of, script_view};

    /// Agent processes that answer by a script, with a book of this many entries. It fails where memory is refused, and for a book
    /// of more than [`GROWTH_LIMIT`] entries.
    pub fn new(alloc: A, script: Script<A>, book: usize) -> Result<Scripted<A>, AllocError>
        ensures children { IfOk result
            (λ c. children_of c ≡ record { book = []; log = []; room = book; last_run = 0; live = []; given_up = []; held = deque_items script.holds; site = None }) }
        ensures script { IfOk result (λ c. script_of c ≡ script_view script) }
        ensures memory { OnErr result (book ≤ GROWTH_LIMIT → IsTrue A.refuses) }
    {
        Ok(Scripted {
            script,
            fault_in: 0,
            book: Book::new(alloc, book)?,
            live: LiveRuns::new(alloc)?,
            last_run: 0,
        })
    }

    /// The start, poll or kill that is this many calls ahead, 1 for the next one, will fail; 0 cancels the plan. The call still
    /// consumes the next answer of its list.
    pub fn plan_fault(&mut self, calls: u64)
        ensures planned { script_of self.new ≡ planned_in calls (script_of self.old) }
        ensures children { children_of self.new ≡ children_of self.old }
    {
        self.fault_in = calls;
    }

    // Counts a call, and returns whether it is to fail.
    fn faults(&mut self) -> bool
        ensures counted { self.new ≡ record self.old { fault_in = self.old.fault_in - 1 } }
        ensures value { result ≡ (self.old.fault_in == 1) }
    {
        let faults = self.fault_in == 1;
        self.fault_in = self.fault_in.saturating_sub(1);
        faults
    }
}

// Takes the next answer from a list: `last` after its end.
fn next_of<T: Drop, A: Allocator>(list: &mut VecDeque<T, A>, last: T) -> T
    ensures value { result ≡ head_or last (deque_items list.old) }
    ensures rest { deque_items list.new ≡ drop 1 (deque_items list.old) }
{
    list.pop_front().unwrap_or(last)
}

impl<A: Allocator + Copy> Children for Scripted<A> {
    ghost use Rattle.test_support.specs.Scripted.{children_of, script_of};

    ghost view = { children_of };

    fn start<S: Store, L: Allocator>(
        &mut self,
        store: &S,
        launch: &Launch<L>,
    ) -> Result<(), StartFault>
        requires room { 0 < (children_of self.old).room }
        requires few { length (children_of self.old).live < live_limit }
        requires rising { (children_of self.old).last_run < launch.now.run }
        requires ended { (children_of self.old).given_up ≡ [] }
        requires may_start { MayStart (children_of self.old).site (S.view store.now) launch.now }
        ensures started { children_of self.new
            ≡ after_start (children_of self.old) launch.now.run
            (S.view store.now).clock result }
        ensures scripted { result ≡ next_start (script_of self.old) }
        ensures goes_on { script_of self.new ≡ started_on (script_of self.old) }
    {
        let faults = self.faults();
        let scripted = next_of(&mut self.script.starts, Ok(()));
        let answer = if faults {
            Err(StartFault::Other)
        } else {
            scripted
        };
        let run = launch.run;
        self.book.note(Entry {
            run,
            at: store.clock(),
            answer: Answer::Start(answer),
        });
        if answer.is_ok() {
            self.live.add(run);
        }
        self.last_run = run.get();
        answer
    }

    fn poll(&mut self, run: RunId) -> Poll
        requires room { 0 < (children_of self.old).room }
        requires lives { Contains (children_of self.old).live run }
        ensures polled { children_of self.new ≡ after_poll (children_of self.old) run result }
        ensures scripted { result ≡ next_poll (script_of self.old) }
        ensures goes_on { script_of self.new ≡ polled_on (script_of self.old) }
    {
        let faults = self.faults();
        let scripted = next_of(&mut self.script.polls, Poll::Running);
        let answer = if faults { Poll::Fault } else { scripted };
        self.book.note(Entry {
            run,
            at: 0,
            answer: Answer::Poll(answer),
        });
        match answer {
            Poll::Running => {}
            Poll::Fault => self.live.give_up(run),
            _ => self.live.remove(run),
        }
        answer
    }

    fn kill(&mut self, run: RunId) -> Result<(), KillFault>
        requires room { 0 < (children_of self.old).room }
        requires lives { Contains (children_of self.old).live run }
        ensures killed { children_of self.new ≡ after_kill (children_of self.old) run result }
        ensures scripted { result ≡ next_kill (script_of self.old) }
        ensures goes_on { script_of self.new ≡ killed_on (script_of self.old) }
    {
        let faults = self.faults();
        let scripted = next_of(&mut self.script.kills, Ok(()));
        let answer = if faults { Err(KillFault) } else { scripted };
        self.book.note(Entry {
            run,
            at: 0,
            answer: Answer::Kill(answer),
        });
        self.live.give_up(run);
        answer
    }

    fn end_killed(&mut self)
        ensures ended { Ended (children_of self.old) (children_of self.new) }
        ensures released { children_of self.new
            ≡ after_ends (children_of self.old) (drop 1 (children_of self.old).held) }
        ensures script { script_of self.new ≡ script_of self.old }
    {
        self.live.forget_given_up();
        let _ = self.script.holds.pop_front();
    }

    fn give_up_all(&mut self)
        ensures ended { AllEnded (children_of self.old) (children_of self.new) }
        ensures held { children_of self.new
            ≡ all_ended (children_of self.old) (children_of self.old).held }
        ensures script { script_of self.new ≡ script_of self.old }
    {
        self.live.clear();
    }

    fn clear_book(&mut self) {
        self.book.clear();
    }

    fn last_run(&self) -> u64 {
        self.last_run
    }

    fn book(&self) -> &[Entry] {
        self.book.entries.as_slice()
    }

    fn room(&self) -> usize {
        self.book.room
    }

    fn holds(&self, id: &RscId) -> bool {
        self.script.holds.iter().any(|held| held == id)
    }

    fn is_live(&self, run: RunId) -> bool {
        self.live.contains(run)
    }

    fn live_count(&self) -> usize {
        self.live.runs.len()
    }
}
