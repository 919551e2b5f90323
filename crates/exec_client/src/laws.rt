//! A law of what clients are sent: the contract of a function with an empty body.
ghost use Rattle.std.specs.Prelude.{◌≡◌, ℕ, List, Some, Contains};
ghost use Rattle.child_model.specs.Children.{poll_answer};
ghost use Rattle.child_model.specs.declared.answer.Entry.{Entry};
ghost use Rattle.child_model.specs.declared.answer.Poll.TheVariants.{Signaled};
ghost use Rattle.exec_client.specs.Signals.{signal_of};

/// A notice names a signal exactly when a poll of its run reported that a signal ended it, and it names that signal.
pub fn lemma_signals_are_polled()
    ensures polled { (book : List Entry) (run signal : ℕ) → signal_of book run ≡ Some signal
        → (at : ℕ) × Contains book
        (record { run = run; at = at; answer = poll_answer (Signaled signal) }) }
    ensures reported { (book : List Entry) (run at signal : ℕ)
        → Contains book (record { run = run; at = at; answer = poll_answer (Signaled signal) })
        → (n : ℕ) × (signal_of book run ≡ Some n) }
{}
