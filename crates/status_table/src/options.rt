//! What a status is asked to show, and how.
ghost use Rattle.std.specs.Prelude.{◌≡◌, ◌<◌, length, option_map, slice_get, Some};
ghost use Rattle.std.specs.Str.{bytes_eq};
ghost use Rattle.resource_status.specs.Results.{last_of};
ghost use Rattle.status_table.specs.Remarks.{is_of, reason_of, remark_of, wait_of};
ghost use Rattle.status_table.specs.Rows.{is_asked_for, is_left, is_named};

use ocf_types::{Moment, RscId};

/// What is known of a resource beside the journal.
#[derive(Clone, Copy)]
pub struct Remark<'a> {
    /// The id of the resource.
    pub id: &'a RscId,
    /// The remark, as it is shown.
    pub text: &'a str,
}

/// What a status is asked to show, and how.
#[derive(Clone, Copy)]
pub struct StatusOptions<'a> {
    /// The moment from which ages are counted.
    pub moment: Moment,
    /// The ids of the resources to show, with their histories; none for all resources, without histories.
    pub ids: &'a [&'a str],
    /// Whether only resources that need attention are shown.
    pub only_bad: bool,
    /// Whether lines of JSON are written, for a program.
    pub json: bool,
    /// Whether results are in colour, by the control sequences of terminals. ECMA-48, SGR.
    pub colours: bool,
    /// Whether moments are shown, in place of ages.
    pub times: bool,
    /// The columns of the terminal, which no row exceeds; `None` where rows are as long as they are.
    pub width: Option<usize>,
    /// Whether it is a fault if no executor has the journal, or if a resource that is asked for needs attention.
    pub alarms: bool,
    /// Whether an executor has the journal, if that is known.
    pub executor: Option<bool>,
    /// The identity of the journal, if it has one.
    pub identity: Option<&'a str>,
    /// The last reasons for failures that agents gave in the logs of resources.
    pub reasons: &'a [Remark<'a>],
    /// What resources wait for before they begin their next action.
    pub waits: &'a [Remark<'a>],
}

impl Remark<'_> {
    // Whether it is a remark on the resource with this id.
    fn is_of(&self, id: &RscId) -> bool
        ensures { result ≡ is_of id.now self.now }
    {
        self.id.as_bytes() == id.as_bytes()
    }
}

// The remark at this index.
fn remark_at<'a>(remarks: &[Remark<'a>], at: usize) -> Remark<'a>
    requires { at < length remarks.now }
    ensures { slice_get remarks.now at ≡ Some result }
{
    remarks[at]
}

// The last remark on a resource.
fn last_remark<'a>(remarks: &[Remark<'a>], id: &RscId) -> Option<Remark<'a>>
    ensures { result ≡ last_of (is_of id.now) remarks.now }
{
    let mut last = None;
    for at in 0..remarks.len() {
        let remark = remark_at(remarks, at);
        if remark.is_of(id) {
            last = Some(remark);
        }
    }
    last
}

// The text of the last remark on a resource.
fn remark_of<'a>(remarks: &[Remark<'a>], id: &RscId) -> Option<&'a str>
    ensures { option_map (λ text. text.now) result ≡ remark_of remarks.now id.now }
{
    match last_remark(remarks, id) {
        Some(remark) => Some(remark.text),
        None => None,
    }
}

// The id at this index.
fn named_at<'a>(ids: &[&'a str], at: usize) -> &'a str
    requires { at < length ids.now }
    ensures { slice_get ids.now at ≡ Some result }
{
    ids[at]
}

// Whether this is the id of the resource.
fn is_id_of(named: &str, id: &RscId) -> bool
    ensures { result ≡ bytes_eq named.now id.now }
{
    named.as_bytes() == id.as_bytes()
}

// Whether one of these ids is that of the resource.
fn is_named(ids: &[&str], id: &RscId) -> bool
    ensures { result ≡ is_named ids.now id.now }
{
    for at in 0..ids.len() {
        if is_id_of(named_at(ids, at), id) {
            return true;
        }
    }
    false
}

impl<'a> StatusOptions<'a> {
    /// The reason that is known for the last failure of a resource.
    pub fn reason_of(&self, id: &RscId) -> Option<&'a str>
        ensures { option_map (λ text. text.now) result ≡ reason_of self.now id.now }
    {
        remark_of(self.reasons, id)
    }

    /// What a resource is known to wait for.
    pub fn wait_of(&self, id: &RscId) -> Option<&'a str>
        ensures { option_map (λ text. text.now) result ≡ wait_of self.now id.now }
    {
        remark_of(self.waits, id)
    }

    /// Whether this resource is asked for.
    pub fn asks_for(&self, id: &RscId) -> bool
        ensures { result ≡ is_asked_for self.now id.now }
    {
        self.ids.is_empty() || is_named(self.ids, id)
    }

    /// Whether it is known that no executor has the journal.
    pub fn is_left(&self) -> bool
        ensures { result ≡ is_left self.now }
    {
        matches!(self.executor, Some(false))
    }
}
