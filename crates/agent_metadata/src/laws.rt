//! Lemmas about metadata, each the contract of a function that does nothing.
ghost use Rattle.std.specs.Prelude.{ℕ, List};
ghost use Rattle.agent_metadata.specs.MetaChildren.{AskedView, GoesOn, IsWholeAnswer};

/// Metadata that are whole as seen from a poll are whole as seen from each earlier poll: what was kept then, followed by all that
/// the agent's output had still to deliver.
pub fn lemma_metadata_are_whole()
    ensures { (old now : AskedView) (metadata : List ℕ) → GoesOn old now
        → IsWholeAnswer now metadata → IsWholeAnswer old metadata }
{}
