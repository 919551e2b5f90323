//! The variables that Pacemaker sets in addition to those of the standard.
ghost use Rattle.std.specs.Prelude.{◌≡◌, ◌↔◌, ℕ, List, IfOk, OnOk, Contains, bytes_eq, count_by};
ghost use Rattle.std.specs.List.{list_any};
ghost use Rattle.ocf_types.specs.Params.{is_before};
ghost use Rattle.ocf_env.specs.Lists.{with_meta, with_new};

use crate::text::{Text, copied};
use crate::variables::Pairs;
use growth::{Grows, Refused};
use itoa::Buffer;
use ocf_types::Running;
use std::alloc::Allocator;

fn is_before(a: &str, b: &str) -> bool
    ensures { result ≡ is_before a.now b.now }
{
    a.as_bytes().cmp(&b.as_bytes()).is_lt()
}

fn lesser_names<A: Allocator>(pairs: &[(Text<A>, Text<A>)], name: &str) -> usize
    ensures { result ≡ count_by (λ p. is_before p.0 name.now) pairs.now }
{
    pairs
        .iter()
        .filter(|p| is_before(p.0.as_str(), name))
        .count()
}

fn is_there<A: Allocator>(pairs: &[(Text<A>, Text<A>)], name: &str) -> bool
    ensures { result ≡ list_any (λ p. bytes_eq p.0 name.now) pairs.now }
{
    pairs.iter().any(|p| p.0.as_str() == name)
}

// Inserts a variable in the order of names, unless there is one with this name.
fn add_new<A: Grows>(
    alloc: A,
    pairs: &mut Pairs<A>,
    name: &str,
    value: &str,
) -> Result<(), Refused<A>>
    ensures pairs { OnOk result (pairs.new.items ≡ with_new (name.now, value.now) pairs.old.items) }
{
    if is_there(pairs.as_slice(), name) {
        return Ok(());
    }
    let index = lesser_names(pairs.as_slice(), name);
    let pair = (copied(alloc, name)?, copied(alloc, value)?);
    A::reserve(pairs, 1)?;
    if pairs.insert(index, pair).is_err() {
        unreachable!()
    }
    Ok(())
}

/// Inserts the interval, the name and the timeout of an action in the order of names, each unless there is a variable with its
/// name. They are Pacemaker's own; agents of the package resource-agents read them, as in `ocf_is_probe`.
pub fn add_meta<A: Grows>(
    alloc: A,
    pairs: &mut Pairs<A>,
    running: Running,
) -> Result<(), Refused<A>>
    ensures pairs { OnOk result (pairs.new.items ≡ with_meta running pairs.old.items) }
{
    let mut digits = Buffer::new();
    let interval = digits.format(running.interval);
    add_new(alloc, pairs, "OCF_RESKEY_CRM_meta_interval", interval)?;
    let word = running.task.action().word();
    add_new(alloc, pairs, "OCF_RESKEY_CRM_meta_name", word)?;
    let timeout = digits.format(running.timeout.get());
    add_new(alloc, pairs, "OCF_RESKEY_CRM_meta_timeout", timeout)?;
    Ok(())
}
