//! Invocations: programs with their arguments and environments.
ghost use Rattle.std.specs.Prelude.{◌≡◌, IfOk, Some, None};
ghost use Rattle.ocf_env.specs.Programs.{agent_path, program_at, arguments_at};

use crate::site::Site;
use crate::text::{Text, ascii, copied};
use crate::variables::Pairs;
use growth::{Grows, Refused, push, push_text, text_of};
use ocf_types::{AgentType, Provider};
use std::alloc::{Allocator, Global};
use std::marker::Model;

/// A program with its arguments and its whole environment, sorted by name. OCF Resource Agent API 1.1, actions.
#[derive(Drop)]
pub struct Invocation<A: Allocator = Global> {
    program: Text<A>,
    arguments: Vec<Text<A>, A>,
    environment: Pairs<A>,
}

impl<A: Allocator> Model for Invocation<A> {
    ghost use Rattle.ocf_env.specs.Locations.{Call};

    ghost Value = { Call };

    ghost view = { λ i. record { program = i.program; arguments = i.arguments.items; environment = i.environment.items } };
}

impl<A: Allocator> Invocation<A> {
    /// The program.
    pub fn program(&self) -> &str
        ensures { result.now ≡ self.now.program }
    {
        self.program.as_str()
    }

    /// The arguments in order, without the program.
    pub fn arguments(&self) -> &[Text<A>]
        ensures { result.now ≡ self.now.arguments }
    {
        self.arguments.as_slice()
    }

    /// The names and values of all variables, sorted by name: there is no other variable.
    pub fn environment(&self) -> &[(Text<A>, Text<A>)]
        ensures { result.now ≡ self.now.environment }
    {
        self.environment.as_slice()
    }
}

/// The agent's file, `<root>/resource.d/<provider>/<type>`. OCF Resource Agent API 1.1, OCF_ROOT.
#[tactic(auto, using(ocf_types::specs::NameLemmas::providers, ocf_types::specs::NameLemmas::agent_types))]
pub fn agent_file<A: Grows, S: Allocator>(
    alloc: A,
    site: &Site<S>,
    provider: &Provider,
    agent: &AgentType,
) -> Result<Text<A>, Refused<A>>
    ensures file { IfOk result (λ f. f ≡ agent_path site.now.root provider.now agent.now) }
{
    let mut file = text_of(alloc, site.root())?;
    push_text(&mut file, "/resource.d/")?;
    push_text(&mut file, ascii(provider.as_bytes()))?;
    push_text(&mut file, "/")?;
    push_text(&mut file, ascii(agent.as_bytes()))?;
    Ok(Text::new(file))
}

fn direct<A: Grows>(
    alloc: A,
    file: Text<A>,
    action: Text<A>,
    environment: Pairs<A>,
) -> Result<Invocation<A>, Refused<A>>
    ensures call { IfOk result (λ i. i
        ≡ record { program = program_at None file; arguments = arguments_at None file action; environment = environment.items }) }
{
    let mut arguments = Vec::new(alloc);
    push(&mut arguments, action)?;
    Ok(Invocation {
        program: file,
        arguments,
        environment,
    })
}

fn through<A: Grows>(
    alloc: A,
    via: &str,
    file: Text<A>,
    action: Text<A>,
    environment: Pairs<A>,
) -> Result<Invocation<A>, Refused<A>>
    ensures call { IfOk result (λ i. i
        ≡ record {
          program = program_at (Some via.now) file;
          arguments = arguments_at (Some via.now) file action;
          environment = environment.items;
        }) }
{
    let program = copied(alloc, via)?;
    let mut arguments = Vec::new(alloc);
    push(&mut arguments, file)?;
    push(&mut arguments, action)?;
    Ok(Invocation {
        program,
        arguments,
        environment,
    })
}

/// The invocation of an agent's file for an action, through the site's program if it has one.
pub fn called<A: Grows, S: Allocator>(
    alloc: A,
    site: &Site<S>,
    file: Text<A>,
    action: &str,
    environment: Pairs<A>,
) -> Result<Invocation<A>, Refused<A>>
    ensures call { IfOk result (λ i. i
        ≡ record {
          program = program_at site.now.via file;
          arguments = arguments_at site.now.via file action.now;
          environment = environment.items;
        }) }
{
    let action = copied(alloc, action)?;
    match site.via() {
        None => direct(alloc, file, action, environment),
        Some(via) => through(alloc, via, file, action, environment),
    }
}
