//! Lemmas: every value of these types is lawful. The bodies only read fields, which brings their invariants into scope.
ghost use Rattle.ocf_types.specs.Actions.{IsTask};
ghost use Rattle.ocf_types.specs.Lawful.{IsLawfulRegistration, IsLawfulOp, IsLawfulRecur, IsRunEnd, IsLawfulStep, IsLawfulChange};
ghost use Rattle.ocf_types.specs.Lawful.{IsLawfulEvent, IsLawfulCommand};

use crate::action::Task;
use crate::command::CommandOf;
use crate::event::{Change, EventOf, Registration, Step};
use crate::operation::{Op, Recur};
use crate::outcome::RunEnd;
use crate::params::Params;
use std::alloc::Allocator;

impl RunEnd {
    /// An exit code is a byte.
    pub fn lemma_known(self)
        ensures { IsRunEnd self }
    {}
}

impl Task {
    /// Only a monitor has a check that is not plain.
    pub fn lemma_known(self)
        ensures { IsTask self }
    {}
}

impl Op {
    /// An accepted action has a call id, a timeout and a task.
    pub fn lemma_known(self)
        ensures { IsLawfulOp self }
    {}
}

impl Recur {
    /// A recurring monitor has a call id, an interval and a timeout.
    pub fn lemma_known(self)
        ensures { IsLawfulRecur self }
    {}
}

impl<A: Allocator> Registration<Params<A>> {
    /// A registration has lawful names and parameters.
    pub fn lemma_known(&self)
        ensures { IsLawfulRegistration self.now }
    {
        let _ = self.id.as_bytes();
        let _ = self.provider.as_bytes();
        let _ = self.agent.as_bytes();
        let _ = self.params.as_slice();
    }
}

impl<A: Allocator> Step<Params<A>> {
    /// A step has lawful numbers and parameters.
    pub fn lemma_known(&self)
        ensures { IsLawfulStep self.now }
    {
        match self {
            Step::SetParams(params) => {
                let _ = params.as_slice();
            }
            Step::Exec(op) => op.lemma_known(),
            Step::Recur(recur) => recur.lemma_known(),
            Step::Cancel(interval) => {
                let _ = interval.get();
            }
            Step::Forget => {}
            Step::Begin { call, run } => {
                let _ = call.get();
                let _ = run.get();
            }
            Step::Result { run, end } => {
                let _ = run.get();
                end.lemma_known();
            }
            Step::Withdraw(call) => {
                let _ = call.get();
            }
        }
    }
}

impl<A: Allocator> Change<Params<A>> {
    /// A change has lawful names, numbers and parameters.
    pub fn lemma_known(&self)
        ensures { IsLawfulChange self.now }
    {
        match self {
            Change::Register(registration) => registration.lemma_known(),
            Change::Unregister(id) => {
                let _ = id.as_bytes();
            }
            Change::Step(id, step) => {
                let _ = id.as_bytes();
                step.lemma_known();
            }
            Change::Boot => {}
        }
    }
}

impl<A: Allocator> EventOf<Params<A>> {
    /// An event is lawful.
    pub fn lemma_known(&self)
        ensures { IsLawfulEvent self.now }
    {
        let _ = self.at.get();
        self.change.lemma_known();
    }
}

impl<A: Allocator> CommandOf<Params<A>> {
    /// A command is lawful.
    pub fn lemma_known(&self)
        ensures { IsLawfulCommand self.now }
    {
        match self {
            CommandOf::Register(registration) => registration.lemma_known(),
            CommandOf::Unregister(id) | CommandOf::Forget(id) => {
                let _ = id.as_bytes();
            }
            CommandOf::SetParams { id, params } => {
                let _ = id.as_bytes();
                let _ = params.as_slice();
            }
            CommandOf::Exec { id, task, timeout } => {
                let _ = id.as_bytes();
                task.lemma_known();
                let _ = timeout.get();
            }
            CommandOf::Recur {
                id,
                interval,
                timeout,
                ..
            } => {
                let _ = id.as_bytes();
                let _ = interval.get();
                let _ = timeout.get();
            }
            CommandOf::Cancel { id, interval } => {
                let _ = id.as_bytes();
                let _ = interval.get();
            }
            CommandOf::Withdraw { id, call } => {
                let _ = id.as_bytes();
                let _ = call.get();
            }
        }
    }
}
