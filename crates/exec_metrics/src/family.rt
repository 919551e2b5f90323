//! The families of metrics.
ghost use Rattle.std.specs.Prelude.{◌≡◌, ◌++◌, ℕ, List};
ghost use Rattle.ocf_codes.specs.ExitCodes.{IsPlainText};
ghost use Rattle.exec_metrics.specs.Families.{header, kind, name};

use line_text::LineText;

/// A family of metrics.
#[derive(Clone, Copy)]
pub enum Family {
    /// The epoch of the journal.
    Epoch,
    /// The bytes of the journal.
    Bytes,
    /// The number of calls.
    Calls,
    /// The number of runs that were begun.
    Runs,
    /// The number of resources.
    Resources,
    /// The state of a resource.
    State,
    /// The number of queued actions.
    Queued,
    /// The number of running actions.
    Running,
    /// The number of runs of a resource that ended since the snapshot.
    ResourceRuns,
    /// The number of those that failed.
    ResourceFailures,
    /// The exit code of a resource's last result.
    LastCode,
    /// The age of that result.
    LastAge,
    /// The exit code of a resource's last failure.
    FailureCode,
    /// The age of that failure.
    FailureAge,
    /// The exit code of a monitor's last result.
    MonitorCode,
    /// The age of that result.
    MonitorAge,
    /// Whether an executor has the journal.
    Up,
    /// When that executor opened it.
    Opened,
    /// The age of the last record.
    RecordAge,
    /// A resource that waits for what an action left.
    Held,
}

impl Family {
    /// The name of the family.
    pub fn name(self) -> &'static str
        ensures { result.now ≡ name self }
    {
        match self {
            Family::Epoch => "ocfexec_journal_epoch",
            Family::Bytes => "ocfexec_journal_bytes",
            Family::Calls => "ocfexec_calls_total",
            Family::Runs => "ocfexec_runs_total",
            Family::Resources => "ocfexec_resources",
            Family::State => "ocfexec_resource_state",
            Family::Queued => "ocfexec_resource_queued_actions",
            Family::Running => "ocfexec_resource_running_actions",
            Family::ResourceRuns => "ocfexec_resource_runs_total",
            Family::ResourceFailures => "ocfexec_resource_failures_total",
            Family::LastCode => "ocfexec_resource_last_code",
            Family::LastAge => "ocfexec_resource_last_age_seconds",
            Family::FailureCode => "ocfexec_resource_failure_code",
            Family::FailureAge => "ocfexec_resource_failure_age_seconds",
            Family::MonitorCode => "ocfexec_monitor_last_code",
            Family::MonitorAge => "ocfexec_monitor_last_age_seconds",
            Family::Up => "ocfexec_up",
            Family::Opened => "ocfexec_start_time_seconds",
            Family::RecordAge => "ocfexec_last_record_age_seconds",
            Family::Held => "ocfexec_resource_held",
        }
    }

    // The help of the family, in a sentence.
    fn help(self) -> &'static str
        ensures { IsPlainText result.now }
    {
        match self {
            Family::Epoch => "Number of snapshots written to the journal, the first one included.",
            Family::Bytes => "Bytes of the journal up to the end of its last record.",
            Family::Calls => {
                "Actions and recurring monitors that were accepted since the journal was made."
            }
            Family::Runs => "Actions that were begun since the journal was made.",
            Family::Resources => "Resources that are registered.",
            Family::State => {
                "1 for the state of a resource by its last results, 0 for every other state."
            }
            Family::Queued => "Actions of a resource that wait for their turn.",
            Family::Running => "Actions of a resource that run.",
            Family::ResourceRuns => {
                "Runs of a resource that ended since the snapshot of the journal's current part."
            }
            Family::ResourceFailures => {
                "Runs of a resource that failed since the snapshot of the journal's current part."
            }
            Family::LastCode => "The exit code of the last result of a resource.",
            Family::LastAge => "Seconds since the last result of a resource.",
            Family::FailureCode => "The exit code of the last failure of a resource.",
            Family::FailureAge => "Seconds since the last failure of a resource.",
            Family::MonitorCode => "The exit code of the last result of a recurring monitor.",
            Family::MonitorAge => "Seconds since the last result of a recurring monitor.",
            Family::Up => "1 if an executor has the journal, else 0.",
            Family::Opened => "When that executor opened the journal, in seconds since 1970.",
            Family::RecordAge => "Seconds since the last record of the journal.",
            Family::Held => "1 for a resource that waits for a process of an earlier action.",
        }
    }

    // The type of the family.
    fn kind(self) -> &'static str
        ensures { result.now ≡ kind self }
    {
        match self {
            Family::Calls | Family::Runs | Family::ResourceRuns | Family::ResourceFailures =>
                "counter",
            _ => "gauge",
        }
    }
}

/// Adds the two lines before the samples of a family.
pub fn add_header(text: &mut LineText, family: Family)
    ensures { (help : List ℕ) × IsPlainText help × (text.new ≡ text.old ++ header family help) }
{
    text.text("# HELP ");
    text.text(family.name());
    text.text(" ");
    text.text(family.help());
    text.text("\n# TYPE ");
    text.text(family.name());
    text.text(" ");
    text.text(family.kind());
    text.text("\n");
}
