//! Laws of sessions, each the contract of a function that does nothing.
//!
//! They hold of each behaviour of the machine (`Behaves`), and so of all that a session does through an edge.
ghost use Rattle.std.specs.Prelude.{◌≡◌, ◌≢◌, ◌≤◌, ◌<◌, ◌⊎◌, ℕ, ◌+◌, ◌*◌, List, [], ◌∷◌, length, map, Contains, None, Ok, Some, true};
ghost use Rattle.std.specs.List.{AllByRecursion};
ghost use Rattle.ocf_model.specs.Answer.{moment};
ghost use Rattle.ocf_model.specs.State.{after_all};
ghost use Rattle.ocf_model.specs.declared.reply.TurnEnd.{TurnEnd};
ghost use Rattle.ocf_model.specs.declared.reply.TurnEnd.TheVariants.{BookFull, Done};
ghost use Rattle.exec_ledger.specs.Actives.{Active, active};
ghost use Rattle.exec_ledger.specs.BatchStarts.{due_after_all};
ghost use Rattle.exec_turn.specs.Polls.{Polled, is_late, results};
ghost use Rattle.executor.specs.ExecutorView.{ExecutorView, due_in};
ghost use Rattle.exec_commands.specs.declared.line.Line.TheVariants.{Leave};
ghost use Rattle.exec_client.specs.MessageTags.{sent_tags};
ghost use Rattle.exec_client.specs.MessageView.{MessageView};
ghost use Rattle.exec_client.specs.Tags.{waiting_limit};
ghost use Rattle.session_machine.specs.After.{drain_now};
ghost use Rattle.session_machine.specs.Backed.{GoesByCalls, IsSound};
ghost use Rattle.session_machine.specs.Behaviours.{Behaves, May};
ghost use Rattle.session_machine.specs.DueMonitors.{StartsDue};
ghost use Rattle.session_machine.specs.Events.{Event, Turned};
ghost use Rattle.session_machine.specs.First.{IsFirst};
ghost use Rattle.session_machine.specs.Limits.{longest_wait, polls_a_turn, reads_a_turn};
ghost use Rattle.session_machine.specs.LineTags.{IsLineRead, all_sent, answered_in, tags_in};
ghost use Rattle.session_machine.specs.Liveness.{IsLeaving, any_since, count, count_since, has_cause, is_answer, is_own, is_poll, is_read, is_wait, looks, micros_of, only_answers};
ghost use Rattle.session_machine.specs.May.{IsDue, MayWait};
ghost use Rattle.session_machine.specs.Session.{Reading, SessionState, lines_in};
ghost use Rattle.session_machine.specs.Timeouts.{IsEndedBy};
ghost use Rattle.session_machine.specs.declared.rules.Mode.TheVariants.{Serve};

use store_model::Store;

/// All that a session has said by any of its states, that is, all messages that were sent and the one that is sent next, is exactly what
/// calls of its executor answered, from its opening to where it is, and what these recorded backs it. What is then sent may be said.
pub fn lemma_said_is_backed<S: Store>()
    ensures { (first s : SessionState S) (events : List (Event S))
        → IsFirst first → Behaves S.view first events s
        → IsSound S.view s }
{}

/// From any state of a session to any later one its executor goes on by calls alone, and what the session says between is exactly what these
/// answered, backed by what they recorded. So the law of histories of incarnations holds of each session, with a crash after any of
/// its events: after any reply, and after any turn of its own, of a drain, of a watch or of an orderly end.
pub fn lemma_sessions_are_calls<S: Store>()
    ensures { (first p q : SessionState S) (before events : List (Event S))
        → IsFirst first → Behaves S.view first before p → Behaves S.view p events q
        → GoesByCalls S.view p q }
{}

/// Each line that is not answered was read from some bytes, and has the tag that these give. As long as no send has failed, and there are
/// fewer than 2^64 - 1 events, replies are sent with the tags of these lines, in this order; and there are no more replies than lines.
pub fn lemma_replies_have_tags_of_lines<S: Store>()
    ensures lines { (first s : SessionState S) (events : List (Event S))
        → IsFirst first → Behaves S.view first events s
        → AllByRecursion (IsLineRead s.rules.mode) s.lines }
    ensures tags { (first s : SessionState S) (events : List (Event S)) (what : MessageView)
        → IsFirst first → Behaves S.view first events s
        → all_sent events ≡ true → length events < waiting_limit → is_answer what ≡ true
        → sent_tags s.client.tags what ≡ tags_in s }
    ensures replies { (first s : SessionState S) (events : List (Event S)) (what : MessageView)
        → IsFirst first → Behaves S.view first events s
        → IsDue s s.at what
        → answered_in what ≤ length s.lines }
{}

/// Between two waits of a session stands a turn that it made by itself, and between two of these turns it waits once and polls 65 times without
/// a wait at most; in `serve` it reads 64 times at most. So in all it has waited at most once more than it has made such turns, and so on.
pub fn lemma_turns_between_waits<S: Store>()
    ensures waits { (first s : SessionState S) (events : List (Event S))
        → IsFirst first → (way : Behaves S.view first events s)
        → (count_since is_wait way ≤ 1) × (count is_wait way ≤ count is_own way + 1) }
    ensures polls { (first s : SessionState S) (events : List (Event S))
        → IsFirst first → (way : Behaves S.view first events s)
        → (count_since is_poll way ≤ polls_a_turn)
        × (count is_poll way ≤ polls_a_turn * (count is_own way + 1)) }
    ensures reads { (first s : SessionState S) (events : List (Event S))
        → IsFirst first → first.rules.mode ≡ Serve → (way : Behaves S.view first events s)
        → (count_since is_read way ≤ reads_a_turn)
        × (count is_read way ≤ reads_a_turn * (count is_own way + 1)) }
{}

/// A turn that a session makes by itself comes only after it has looked for what is to be answered since the last such turn: a poll found no
/// input, or it made all 64 reads, or the source of metadata was asked, or is asked next for a line that was just noted. So a line
/// that is there is read within 64 reads and one such turn. And the turn has a cause: since the last one the session waited, read or
/// answered, or an action ended or began in that turn; so it does not spin.
pub fn lemma_turns_have_a_cause<S: Store>()
    ensures looked { (first s : SessionState S) (events : List (Event S)) (end : TurnEnd)
        (x : ExecutorView S)
        → IsFirst first → (way : Behaves S.view first events s)
        → May S.view s (Turned end x) → drain_now s ≡ None
        → any_since looks way ≡ true }
    ensures caused { (first s : SessionState S) (events : List (Event S)) (end : TurnEnd)
        (x : ExecutorView S)
        → IsFirst first → (way : Behaves S.view first events s)
        → May S.view s (Turned end x) → drain_now s ≡ None
        → has_cause way ≡ true }
    ensures reads { (first s : SessionState S) (events : List (Event S))
        → IsFirst first → (way : Behaves S.view first events s)
        → s.own.reads ≡ count_since is_read way }
{}

/// A session waits only in `serve`, and only when each line that it has read is answered, except one that asks for metadata. A wait is short, or
/// nothing is queued or running, and it ends by the time at which the first monitor is due, from the last clock reading on; it takes a
/// second at most.
pub fn lemma_waits_end<S: Store>()
    ensures may { (s : SessionState S) (e : Event S)
        → May S.view s e → is_wait s e ≡ true
        → MayWait s (micros_of e) }
    ensures brief { (s : SessionState S) (e : Event S)
        → May S.view s e → is_wait s e ≡ true
        → micros_of e ≤ 1000 * longest_wait }
{}

/// After the end of its input a session only answers the lines that it has read: it makes no turn, and it does not poll, read, wait or
/// pause. Once each of them is answered, it reads on no more: it is over.
pub fn lemma_only_answers_after_the_input<S: Store>()
    ensures answers { (first s : SessionState S) (events : List (Event S)) (e : Event S)
        → IsFirst first → Behaves S.view first events s
        → s.ended ≡ true → May S.view s e
        → only_answers e ≡ true }
    ensures over { (first s : SessionState S) (events : List (Event S))
        → IsFirst first → Behaves S.view first events s
        → s.ended ≡ true → s.lines ≡ []
        → s.at ≢ Reading }
{}

/// Once a line asks for an orderly end in `serve`, the session makes only turns that begin nothing, and these only while an action runs. Once
/// none runs, it sends the reply that ends it.
pub fn lemma_leaves<S: Store>()
    ensures { (first s : SessionState S) (events : List (Event S)) (e : Event S)
        → IsFirst first → first.rules.mode ≡ Serve → Behaves S.view first events s
        → s.at ≡ Reading → lines_in s ≡ Ok Leave ∷ [] → May S.view s e
        → IsLeaving s e }
{}

/// A turn of a session at or after the time at which an action's timeout has passed polls its agent process and, if that still runs, kills it: by
/// the book of the turn. The only exception is a turn for which the book has no room, which does nothing.
pub fn lemma_late_actions_are_killed<S: Store>()
    ensures { (s : SessionState S) (end : TurnEnd) (x : ExecutorView S) (now : ℕ) (action : Active)
        → May S.view s (Turned end x) → s.shown ≡ Some now → end ≢ BookFull
        → Contains (active s.executor.state) action
        → is_late (moment s.executor.state now) action.running ≡ true
        → IsEndedBy x.children.book action.running.run }
{}

/// A turn of a session that ends as done requests a start for each resource that then is not held, runs nothing, has nothing queued and has a monitor
/// that is due at the time of the turn, by the book of the turn: also for a resource whose action ended in that turn (`results`). While
/// nothing runs, nothing ends, and it does so for each such resource (`idle`). So such a monitor begins in the first turn at or after
/// its due moment, unless the journal or the run numbers are full or memory is wanting: a turn ends otherwise then.
pub fn lemma_due_monitors_begin<S: Store>()
    ensures results { (s : SessionState S) (x : ExecutorView S) (now : ℕ)
        → May S.view s (Turned Done x) → s.shown ≡ Some now
        → (polled : List Polled) × (map (λ p. p.who) polled ≡ active s.executor.state)
        × StartsDue x.children.book x.children.held
        (after_all s.executor.state (results (moment s.executor.state now) polled))
        (due_after_all s.executor.state (due_in s.executor) (results (moment s.executor.state now) polled))
        (moment s.executor.state now) }
    ensures idle { (s : SessionState S) (x : ExecutorView S) (now : ℕ)
        → May S.view s (Turned Done x) → s.shown ≡ Some now → active s.executor.state ≡ []
        → StartsDue x.children.book x.children.held s.executor.state (due_in s.executor)
        (moment s.executor.state now) }
{}
