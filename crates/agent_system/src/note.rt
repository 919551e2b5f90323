//! A view of the system that only contracts read.
ghost use Rattle.std.specs.Prelude.{◌≡◌};
ghost use Rattle.std.specs.Borrow.{ftrue};
ghost use Rattle.agent_system.specs.SystemView.{SystemView, unasked};

use proc_files::Process;
use std::marker::{Model, PhantomData};

/// What was asked of the system so far. Contracts read it as `view`.
///
/// A running program keeps nothing of it. So the body of `of` does nothing, and is proved by hand.
#[derive(Drop)]
pub struct SystemNote {
    of: PhantomData<()>,
    pub ghost view: { SystemView },
}

impl Model for SystemNote {
    ghost also_owns = { λ _. ftrue };
}

impl SystemNote {
    // The note of some view.
    fn at() -> SystemNote
        ghost view: { SystemView }
        ensures { result.view ≡ view }
    {
        SystemNote { of: PhantomData }
    }

    /// Nothing was asked yet, by this process, if it can be read.
    pub fn unasked(own: &Option<Process>) -> SystemNote
        ensures { result.view ≡ unasked own.now }
    {
        let mut note = SystemNote::at();
        note.follow(own);
        note
    }

    /// After this, a call of the system and its answer, another view is right. The caller picks it.
    pub fn follow<X>(&mut self, call: &X)
        ghost next: { SystemView }
        ensures { self.new.view ≡ next }
    {
        *self = SystemNote::at();
    }
}
