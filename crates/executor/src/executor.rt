//! `On`, the executor over a store, and `Executor`, the one over a pair of files: its parts, its view and its invariant.
use crate::report::Reported;
use child_model::Children;
use exec_journal::Journal;
use exec_ledger::Ledger;
use exec_turn::TurnBuffers;
use growth::Grows;
use ocf_env::Site;
use std::alloc::Global;
use std::marker::Model;
use store_model::Store;

/// A local executor of OCF resource agents over a store and agent processes. A fault of the store's device closes it; it is opened
/// again from its store.
///
/// While it is open its store holds its state, with space for the results of what runs and for a boot: that is the ledger's
/// invariant. The executor's own adds that the agent processes of all running actions live.
#[derive(Drop)]
pub struct On<S: Store + Drop, C: Children + Drop, A: Grows = Global> {
    pub(crate) ledger: Ledger<S, A>,
    pub(crate) children: C,
    pub(crate) site: Site<A>,
    pub(crate) buffers: TurnBuffers<A>,
    pub(crate) opening_report: Reported,
    pub(crate) alloc: A,
}

/// A local executor over a journal of two files.
pub type Executor<D, C, A = Global> = On<Journal<D, A>, C, A>;

impl<S: Store + Drop, C: Children + Drop, A: Grows> Model for On<S, C, A> {
    ghost use Rattle.exec_turn.specs.Turns.{turn_notices};
    ghost use Rattle.executor.specs.Reports.{remembered_report};
    ghost use Rattle.executor.specs.ExecutorView.{ChildrenInvariant, ExecutorView, executor_view};

    ghost Value = { ExecutorView S };

    ghost view = { λ e. executor_view e.ledger (C.view e.children) e.site (turn_notices e.buffers) (remembered_report e.opening_report) };

    ghost invariant = { λ e. ChildrenInvariant (executor_view e.ledger (C.view e.children) e.site (turn_notices e.buffers) (remembered_report e.opening_report)) };
}
