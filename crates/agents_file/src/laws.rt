//! Lemmas about the lines, each the contract of a function that does nothing.
ghost use Rattle.std.specs.Prelude.{◌≡◌, ◌≢◌, []};
ghost use Rattle.agents_file.specs.Entries.{IsEntry, entry_line};
ghost use Rattle.agents_file.specs.Lines.{padded};
ghost use Rattle.agents_file.specs.declared.entry.AgentEntry.{AgentEntry};

/// A line is that of one entry at most.
pub fn lemma_line_is_of_one_entry()
    ensures { (e f : AgentEntry) → IsEntry e → IsEntry f → entry_line e ≡ entry_line f → e ≡ f }
{}

/// The line of a free slot is that of no entry.
pub fn lemma_blank_is_no_entry()
    ensures { (e : AgentEntry) → IsEntry e → padded [] ≢ entry_line e }
{}
