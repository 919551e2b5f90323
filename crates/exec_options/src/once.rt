//! The options of an action that is run once.
use ocf_types::Level;

/// An agent that is named with its parameters.
#[derive(Drop)]
pub struct NamedAgent<'a> {
    /// The agent, as in `heartbeat:Dummy`; it is not checked here.
    pub agent: &'a str,
    /// The id of the resource, as the agent gets it; it is not checked here.
    pub id: &'a str,
    /// The parameters of the resource, as `NAME=VALUE`; they are not checked here.
    pub parameters: Vec<&'a str>,
}

/// A resource that is registered in a journal.
#[derive(Clone, Copy)]
pub struct JournalResource<'a> {
    /// Its id; it is not checked here.
    pub id: &'a str,
    /// The directory of the journal, which is only read.
    pub directory: &'a str,
    /// Whether the action is run even while another action of the resource runs.
    pub beside: bool,
}

/// Whose action is run once.
#[derive(Drop)]
pub enum OnceTarget<'a> {
    /// That of an agent.
    Agent(NamedAgent<'a>),
    /// That of a resource, with its agent and its parameters.
    Resource(JournalResource<'a>),
}

/// The options of an action of an agent that is run once and recorded nowhere.
#[derive(Drop)]
pub struct OnceOptions<'a> {
    pub target: OnceTarget<'a>,
    /// The name of the action; it is not checked here.
    pub action: &'a str,
    /// The depth of a monitor, if it is given.
    pub level: Option<Level>,
    /// The timeout of the action in milliseconds, at least 1.
    pub timeout: u32,
    /// The directory of the agents, an absolute path: an agent is the file `resource.d/PROVIDER/TYPE` in it.
    pub root: &'a str,
    /// The program that the agent is run through, or `None`.
    pub via: Option<&'a str>,
    /// The `PATH` in the environment of the agent.
    pub path: &'a str,
    /// Whether the agent gets Pacemaker's own variables too.
    pub meta_variables: bool,
    /// Whether the agent runs in the process group of the program, instead of one of its own. POSIX, setsid.
    pub no_groups: bool,
}
