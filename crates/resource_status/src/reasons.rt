//! The reasons that agents gave for failures.
ghost use Rattle.std.specs.Prelude.{◌≡◌, option_map};
ghost use Rattle.resource_status.specs.Reasons.{reason_of};

use ocf_env::Text;

/// The reason that its agent gave for the failure of a run.
#[derive(Drop)]
pub struct RunReason {
    pub run: u64,
    pub text: Text,
}

/// The reason for the failure of a run, if it is among these.
pub fn reason_of(reasons: &[RunReason], run: u64) -> Option<&str>
    ensures { option_map (λ text. text.now) result ≡ reason_of reasons.now run }
{
    let reason = reasons.iter().find(|reason| reason.run == run)?;
    Some(reason.text.as_str())
}
