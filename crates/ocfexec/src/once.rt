//! An action that is run once.
use agent_system::leading_of;
use diagnostics::{children_ignored, report, report_ignored};
use exec_faults::Fault;
use exec_host::site_of_once;
use exec_once::{
    OnceCall, OnceEnd, OnceFault, OnceSite, read_agent, read_id, read_parameters, read_what,
    run_once,
};
use exec_options::{JournalResource, NamedAgent, OnceOptions, OnceTarget};
use host_system::{System, SystemAgents};
use journal_directory::registered;
use ocf_env::Site;
use std::alloc::Global;
use std::io::Eprint;

// Why nothing is run.
enum NotRun {
    // The arguments are wrong.
    Arguments(OnceFault),
    // An action of the resource runs.
    Busy,
    // The journal was not read.
    Journal(Fault),
}

impl From<OnceFault> for NotRun {
    fn from(fault: OnceFault) -> NotRun {
        NotRun::Arguments(fault)
    }
}

// The action of an agent that the options name.
fn call_of_agent(
    alloc: Global,
    options: &OnceOptions<'_>,
    named: &NamedAgent<'_>,
) -> Result<OnceCall, NotRun> {
    let (provider, agent) = read_agent(named.agent)?;
    Ok(OnceCall {
        provider,
        agent,
        id: read_id(named.id)?,
        what: read_what(options.action, options.level, options.timeout)?,
        params: read_parameters(alloc, named.parameters.as_slice())?,
    })
}

// The action of a resource that is registered in a journal.
fn call_of_resource(
    system: &System<'_>,
    options: &OnceOptions<'_>,
    resource: &JournalResource<'_>,
) -> Result<OnceCall, NotRun> {
    let id = read_id(resource.id)?;
    let what = read_what(options.action, options.level, options.timeout)?;
    match registered(system, resource.directory, &id) {
        Ok(known) if known.is_busy && !resource.beside => Err(NotRun::Busy),
        Ok(known) => Ok(OnceCall {
            provider: known.provider,
            agent: known.agent,
            id,
            what,
            params: known.params,
        }),
        Err(fault) => Err(NotRun::Journal(fault)),
    }
}

// Reports why nothing was run.
fn not_run(system: &System<'_>, why: &str) -> u8 {
    let _ = system.eprintln(format_args!("ocfexec: {why}"));
    OnceEnd::NotStarted.status()
}

// The same by its cause. That the files of a journal were not opened was reported where it happened.
fn refused(system: &System<'_>, why: NotRun) -> u8 {
    match why {
        NotRun::Arguments(fault) => not_run(system, fault.text()),
        NotRun::Busy => not_run(
            system,
            "an action of this resource runs; give --beside to run another beside it",
        ),
        NotRun::Journal(Fault::NotOpened) => OnceEnd::NotStarted.status(),
        NotRun::Journal(fault) => {
            report(system, fault);
            OnceEnd::NotStarted.status()
        }
    }
}

// Calls the agent of this site, and returns the exit status that reports its end.
fn called(system: &System<'_>, site: &Site, call: &OnceCall, options: &OnceOptions<'_>) -> u8 {
    let alloc = system.host().alloc();
    let mut agents = SystemAgents::new(system);
    let Ok(leading) = leading_of(&agents, alloc, !options.no_groups) else {
        return not_run(system, "no memory");
    };
    let at = OnceSite {
        site,
        leading: &leading,
    };
    system.start_killer();
    run_once(&mut agents, alloc, &at, call, options.timeout).status()
}

/// Runs an action once, and returns the exit status that reports its end.
pub fn once(system: &System<'_>, options: &OnceOptions<'_>) -> u8 {
    let rt = system.host();
    let alloc = rt.alloc();
    if children_ignored(rt) {
        return not_run(
            system,
            "SIGCHLD is ignored: no end of the agent would be seen",
        );
    }
    report_ignored(system);
    let call = match &options.target {
        OnceTarget::Agent(named) => call_of_agent(alloc, options, named),
        OnceTarget::Resource(resource) => call_of_resource(system, options, resource),
    };
    let call = match call {
        Ok(call) => call,
        Err(why) => return refused(system, why),
    };
    match site_of_once(alloc, options) {
        Ok(site) => called(system, &site, &call, options),
        Err(_) => not_run(system, "no memory"),
    }
}
