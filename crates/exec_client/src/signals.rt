//! The signal that ended a run.
ghost use Rattle.std.specs.Prelude.{◌≡◌};
ghost use Rattle.exec_client.specs.Signals.{ending_answer, signal_in, signal_of, names_signal};

use child_model::{Answer, Entry, Poll};

// The number of the signal, if the answer says that one ended the run.
fn signal_in(answer: Answer) -> Option<u8>
    ensures value { result ≡ signal_in answer }
{
    match answer {
        Answer::Poll(Poll::Signaled(signal)) => Some(signal),
        _ => None,
    }
}

// Whether the answer says that a signal ended this run.
fn names_signal(entry: &Entry, run: u64) -> bool
    ensures value { result ≡ names_signal run entry.now }
{
    entry.run.get() == run && signal_in(entry.answer).is_some()
}

// The answer that says that a signal ended this run, if there is one.
fn ending_answer(book: &[Entry], run: u64) -> Option<Answer>
    ensures value { result ≡ ending_answer book.now run }
{
    let entry = book.iter().find(|entry| names_signal(entry, run))?;
    Some(entry.answer)
}

/// The number of the signal that ended a run, as in signal(7), if one of these answers of agent processes says so.
pub fn signal_of(book: &[Entry], run: u64) -> Option<u8>
    ensures value { result ≡ signal_of book.now run }
{
    match ending_answer(book, run) {
        Some(answer) => signal_in(answer),
        None => None,
    }
}
