//! Lemmas about commands, each the contract of a function that does nothing.
ghost use Rattle.std.specs.Prelude.{◌≡◌, ◌↔◌, ℕ, List, Contains, IsTrue, Some};
ghost use Rattle.ocf_env.specs.Locations.{Pair};
ghost use Rattle.ocf_env.specs.Variables.{are_ascending};
ghost use Rattle.agent_system.specs.Commands.{given};

/// An environment that is sorted by name gives each of its variables its value, and no other variable any.
pub fn lemma_just_its_variables()
    ensures { (pairs : List Pair) (name value : List ℕ) → IsTrue (are_ascending pairs)
        → (given pairs name ≡ Some (Some value)) ↔ Contains pairs (name, value) }
{}
