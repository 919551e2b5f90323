//! What was asked and answered, for contracts alone.
ghost use Rattle.std.specs.Prelude.{◌≡◌, List, []};
ghost use Rattle.std.specs.Borrow.{ftrue};
ghost use Rattle.exec_lines.specs.Inputs.{InputEvent};
ghost use Rattle.exec_lines.specs.Tickers.{TickerEvent};
ghost use Rattle.exec_lines.specs.Descriptors.{SystemAnswers, no_answers};

use std::marker::{Model, PhantomData};

/// What an input was asked, oldest first. Contracts read it as `asked`.
///
/// A running program keeps nothing of it. So the body of `of` does nothing, and is proved by hand; so in the other notes.
#[derive(Drop)]
pub struct InputNote {
    of: PhantomData<()>,
    pub ghost asked: { List InputEvent },
}

impl Model for InputNote {
    ghost also_owns = { λ _. ftrue };
}

impl InputNote {
    fn of() -> InputNote
        ghost asked: { List InputEvent }
        ensures { result.asked ≡ asked }
    {
        InputNote { of: PhantomData }
    }

    /// Nothing was asked.
    pub fn unasked() -> InputNote
        ensures { result.asked ≡ [] }
    {
        InputNote::of()
    }

    /// After a call and its answer this is what was asked. The caller picks it.
    pub fn follow<X>(&mut self, call: &X)
        ghost next: { List InputEvent }
        ensures { self.new.asked ≡ next }
    {
        *self = InputNote::of();
    }
}

/// What a clock was asked, oldest first. Contracts read it as `asked`.
#[derive(Drop)]
pub struct TickerNote {
    of: PhantomData<()>,
    pub ghost asked: { List TickerEvent },
}

impl Model for TickerNote {
    ghost also_owns = { λ _. ftrue };
}

impl TickerNote {
    fn of() -> TickerNote
        ghost asked: { List TickerEvent }
        ensures { result.asked ≡ asked }
    {
        TickerNote { of: PhantomData }
    }

    /// Nothing was asked.
    pub fn unasked() -> TickerNote
        ensures { result.asked ≡ [] }
    {
        TickerNote::of()
    }

    /// After a call and its answer this is what was asked. The caller picks it.
    pub fn follow<X>(&mut self, call: &X)
        ghost next: { List TickerEvent }
        ensures { self.new.asked ≡ next }
    {
        *self = TickerNote::of();
    }
}

/// What the system said of a descriptor. Contracts read it as `answers`.
#[derive(Drop)]
pub struct DescriptorNote {
    of: PhantomData<()>,
    pub ghost answers: { SystemAnswers },
}

impl Model for DescriptorNote {
    ghost also_owns = { λ _. ftrue };
}

impl DescriptorNote {
    fn of() -> DescriptorNote
        ghost answers: { SystemAnswers }
        ensures { result.answers ≡ answers }
    {
        DescriptorNote { of: PhantomData }
    }

    /// Nothing was said.
    pub fn no_answers() -> DescriptorNote
        ensures { result.answers ≡ no_answers }
    {
        DescriptorNote::of()
    }

    /// After a call and its answer this is what the system said. The caller picks it.
    pub fn follow<X>(&mut self, call: &X)
        ghost next: { SystemAnswers }
        ensures { self.new.answers ≡ next }
    {
        *self = DescriptorNote::of();
    }
}
