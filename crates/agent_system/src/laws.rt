//! The laws of what calls reach, each the contract of a function with an empty body.
ghost use Rattle.std.specs.Prelude.{◌≡◌, ◌⊎◌, ℕ, Contains, List, Option, []};
ghost use Rattle.agent_system.specs.Histories.{AllPairs, AreApart, HaveOwnRuns, IsKnownOrOver, Reaches, WasOver, WasSeenEnded, given_up_in, known_in, processes_of};
ghost use Rattle.agent_system.specs.May.{IsFree};
ghost use Rattle.agent_system.specs.SystemView.{SystemView, unasked};
ghost use Rattle.agent_system.specs.declared.agent_process.AgentProcess.{AgentProcess};
ghost use Rattle.proc_files.specs.declared.process.Process.{Process};

/// No two processes of one resource live or are given up at a time, if this process of the executor spawned both.
pub fn lemma_apart()
    ensures apart { (own : Option Process) (v : SystemView) → Reaches (unasked own) v → v.asked ≡ [] → AllPairs (AreApart v) (known_in v) }
{}

/// What was given up is given up until it is over. What was spawned lives, or is given up, until its end was seen or it was over: for that
/// no run may be spawned twice.
pub fn lemma_over()
    ensures given_up { (start v w : SystemView) (p : AgentProcess) → Reaches start v → Reaches v w
        → Contains (given_up_in v) p → Contains (given_up_in w) p ⊎ WasOver start w p }
    ensures spawned { (own : Option Process) (v : SystemView) (p : AgentProcess) → Reaches (unasked own) v → v.asked ≡ []
        → HaveOwnRuns (processes_of v) → Contains (processes_of v) p → IsKnownOrOver (unasked own) v p }
{}

/// Where an agent may be spawned, each process that was spawned before for its resource was seen to have ended, or was over, and each that
/// was given up was over: so each resource has one action's processes at a time, as far as the system's answers say.
pub fn lemma_one_at_a_time()
    ensures spawned { (own : Option Process) (v : SystemView) (id : List ℕ) (p : AgentProcess) → Reaches (unasked own) v → v.asked ≡ []
        → HaveOwnRuns (processes_of v) → IsFree v.sights id → Contains (processes_of v) p → p.id ≡ id
        → WasSeenEnded v p ⊎ WasOver (unasked own) v p }
    ensures given_up { (start v w : SystemView) (id : List ℕ) (p : AgentProcess) → Reaches start v → Reaches v w
        → IsFree w.sights id → Contains (given_up_in v) p → p.id ≡ id → WasOver start w p }
{}
