//! Lemmas about agent processes and their book, each the contract of a function that does nothing.
ghost use Rattle.std.specs.Prelude.{◌≡◌, ◌≢◌, ◌↔◌, ◌⊎◌, ℕ, ◌+◌, ◌≤◌, List, ◌++◌, Contains, IsOk, Result};
ghost use Rattle.std.specs.Prelude.{cond, is_ok, length};
ghost use Rattle.ocf_types.specs.declared.outcome.StartFault.{StartFault};
ghost use Rattle.child_model.specs.Children.{Adds, Asked, AsksNothing, ChildrenView, after_kill, after_poll, after_start, emptied};
ghost use Rattle.child_model.specs.Children.{all_ended, after_ends, kill_answer, poll_answer, start_answer};
ghost use Rattle.child_model.specs.declared.answer.Entry.{Entry};
ghost use Rattle.child_model.specs.declared.answer.KillFault.{KillFault};
ghost use Rattle.child_model.specs.declared.answer.Poll.{Poll};
ghost use Rattle.child_model.specs.declared.answer.Poll.TheVariants.{Running};

/// A call appends one entry to the book and to the log, with its run and the answer that it returned. The log of all answers
/// does not change when the book is cleared or agent processes are ended.
pub fn lemma_one_entry()
    ensures start { (v : ChildrenView) (run at : ℕ) (answer : Result Unit StartFault)
        → Adds v (after_start v run at answer)
        (record { run = run; at = at; answer = start_answer answer }) }
    ensures poll { (v : ChildrenView) (run : ℕ) (answer : Poll)
        → Adds v (after_poll v run answer)
        (record { run = run; at = 0; answer = poll_answer answer }) }
    ensures kill { (v : ChildrenView) (run : ℕ) (answer : Result Unit KillFault)
        → Adds v (after_kill v run answer)
        (record { run = run; at = 0; answer = kill_answer answer }) }
    ensures stays { (v : ChildrenView) (held : List (List ℕ))
        → ((emptied v).log ≡ v.log) × ((all_ended v held).log ≡ v.log)
        × ((after_ends v held).log ≡ v.log) }
{}

/// An entry determines the answer of its call: different answers to a start have different entries, and so for a poll and a kill.
pub fn answers_are_reported()
    ensures start { (a b : Result Unit StartFault) → start_answer a ≡ start_answer b → a ≡ b }
    ensures poll { (a b : Poll) → poll_answer a ≡ poll_answer b → a ≡ b }
    ensures kill { (a b : Result Unit KillFault) → kill_answer a ≡ kill_answer b → a ≡ b }
{}

/// `Asked`: a book has the entry of a start of this run at this count of device calls. A book has the starts of both its halves,
/// and one without entries of starts has none. A start adds its own run at its own count and nothing else; polls and kills add
/// none.
pub fn lemma_starts_asked()
    ensures joined { (b c : List Entry) (run at : ℕ) → Asked (b ++ c) run at
        ↔ (Asked b run at ⊎ Asked c run at) }
    ensures none { (entries : List Entry) (run at : ℕ) → AsksNothing entries → Asked entries run at
        → ⊥ }
    ensures start { (v : ChildrenView) (run at r t : ℕ) (answer : Result Unit StartFault)
        → Asked (after_start v run at answer).book r t
        ↔ (Asked v.book r t ⊎ ((r ≡ run) × (t ≡ at))) }
    ensures poll { (v : ChildrenView) (run r t : ℕ) (answer : Poll)
        → Asked (after_poll v run answer).book r t ↔ Asked v.book r t }
    ensures kill { (v : ChildrenView) (run r t : ℕ) (answer : Result Unit KillFault)
        → Asked (after_kill v run answer).book r t
        ↔ Asked v.book r t }
{}

/// After a call each run lives exactly when it lived before, except the run of the call: it lives after a start that succeeded,
/// and does not live after a kill or a poll that reports anything but that it still runs.
pub fn lemma_live_processes()
    ensures start { (v : ChildrenView) (run at r : ℕ) (answer : Result Unit StartFault)
        → Contains (after_start v run at answer).live r
        ↔ (Contains v.live r ⊎ (IsOk answer × (r ≡ run))) }
    ensures poll { (v : ChildrenView) (run r : ℕ) (answer : Poll)
        → Contains (after_poll v run answer).live r
        ↔ (Contains v.live r × ((answer ≡ Running) ⊎ (r ≢ run))) }
    ensures kill { (v : ChildrenView) (run r : ℕ) (answer : Result Unit KillFault)
        → Contains (after_kill v run answer).live r ↔ (Contains v.live r × (r ≢ run)) }
{}

/// A start that succeeds adds one live run, a refused one none. A poll adds none, and removes at least one if the run lived and
/// the answer is not that it still runs. A kill removes at least one if the run lived.
pub fn lemma_live_count()
    ensures start { (v : ChildrenView) (run at : ℕ) (answer : Result Unit StartFault)
        → length (after_start v run at answer).live ≡ length v.live + cond (is_ok answer) 1 0 }
    ensures poll { (v : ChildrenView) (run : ℕ) (answer : Poll)
        → length (after_poll v run answer).live ≤ length v.live }
    ensures ended { (v : ChildrenView) (run : ℕ) (answer : Poll)
        → Contains v.live run → answer ≢ Running
        → length (after_poll v run answer).live + 1 ≤ length v.live }
    ensures kill { (v : ChildrenView) (run : ℕ) (answer : Result Unit KillFault)
        → Contains v.live run → length (after_kill v run answer).live + 1 ≤ length v.live }
{}
