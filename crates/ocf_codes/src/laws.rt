//! Laws of the tables, each the contract of a function that does nothing.
ghost use Rattle.std.specs.Prelude.{◌≡◌, ℕ, Contains, true, not};
ghost use Rattle.ocf_types.specs.Expected.{expect_code, has_failed, is_expected};
ghost use Rattle.ocf_types.specs.declared.action.Action.{Action};
ghost use Rattle.ocf_types.specs.declared.action.Action.TheVariants.{Monitor};
ghost use Rattle.ocf_types.specs.declared.expect.Expect.{Expect};
ghost use Rattle.ocf_types.specs.declared.outcome.RunEnd.{RunEnd};
ghost use Rattle.ocf_types.specs.declared.outcome.Outcome.TheVariants.{Run};
ghost use Rattle.ocf_codes.specs.ExitCodes.{Row, exit_codes, code_read, name_read};
ghost use Rattle.ocf_types.specs.Outcomes.{outcome_code};

/// Reading the number of a row gives this row: no number has two rows.
pub fn lemma_rows_are_read()
    ensures code { (row : Row) → Contains exit_codes row → code_read row.0 ≡ row.1 }
    ensures name { (row : Row) → Contains exit_codes row → name_read row.0 ≡ row.2 }
{}

/// The code of an expectation is expected of a monitor with it, and no code belongs to two expectations.
pub fn lemma_one_expectation()
    ensures own { (x : Expect) → is_expected Monitor x (expect_code x) ≡ true }
    ensures one { (x y : Expect) (code : ℕ) → is_expected Monitor x code ≡ true
        → is_expected Monitor y code ≡ true → x ≡ y }
{}

/// A run has failed exactly when the exit code of its end is not expected, also if the agent did not exit by itself.
pub fn lemma_failures_by_code()
    ensures { (action : Action) (x : Expect) (end : RunEnd)
        → has_failed action x (Run end) ≡ not (is_expected action x (outcome_code (Run end))) }
{}
