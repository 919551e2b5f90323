//! The events of a session, which only contracts read.
ghost use Rattle.std.specs.Prelude.{◌≡◌};
ghost use Rattle.std.specs.Borrow.{ftrue};
ghost use Rattle.session_machine.specs.Codes.{trace_code};
ghost use Rattle.session_machine.specs.Behaviours.{Trace};

use std::marker::{Model, PhantomData};

/// What has happened in a session so far. Contracts read it as `trace`.
///
/// A running program keeps nothing of it. So the body of `at` does nothing, and is proved by hand.
#[derive(Drop)]
pub struct SessionNote<S> {
    of: PhantomData<S>,
    pub ghost trace: { Trace S } by { trace_code S.code },
}

impl<S> Model for SessionNote<S> {
    ghost also_owns = { λ _. ftrue };
}

impl<S> SessionNote<S> {
    /// The note of some trace. The caller picks it.
    pub fn at<X>(what: &X) -> SessionNote<S>
        ghost trace: { Trace S }
        ensures { result.trace ≡ trace }
    {
        SessionNote { of: PhantomData }
    }

    /// After this, what happened, another trace is right. The caller picks it.
    pub fn follow<X>(&mut self, what: &X)
        ghost next: { Trace S }
        ensures { self.new.trace ≡ next }
    {
        *self = SessionNote::at(what);
    }
}
