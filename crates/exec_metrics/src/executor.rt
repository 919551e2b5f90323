//! The metrics of what is known of the executor that has a journal.
ghost use Rattle.std.specs.Prelude.{◌≡◌, ◌++◌, ◌∷◌, [], IfErr, IfOk};
ghost use Rattle.std.specs.List.{flat_map};
ghost use Rattle.exec_faults.specs.Faults.{HasCause, IsRunEnd};
ghost use Rattle.exec_metrics.specs.Held.{held_sample, known, seen_families, seen_family, seen_lines};
ghost use Rattle.exec_metrics.specs.Metrics.{GoesOn, IsWritten};

use crate::family::{Family, add_header};
use crate::sample::{add_bare, add_plain, bit};
use exec_faults::Fault;
use exec_lines::write_flushed;
use growth::{Grows, Refused};
use line_text::LineText;
use ocf_types::RscId;
use std::alloc::Global;
use std::io::Write;

/// What is known of the executor that has a journal.
#[derive(Clone, Copy)]
pub struct Seen<'a> {
    /// Whether an executor has it; `None` where that cannot be known.
    pub up: Option<bool>,
    /// When that executor opened it, in seconds since 1970.
    pub opened: Option<u64>,
    /// How long ago its last record was made, in seconds.
    pub record_age: Option<u64>,
    /// The resources that wait for what an action left.
    pub held: &'a [RscId],
}

// Adds the sample of a value, if it is known.
fn add_known(text: &mut LineText, family: Family, value: Option<u64>)
    ensures { text.new ≡ text.old ++ known family value }
{
    if let Some(value) = value {
        add_bare(text, family, value);
    }
}

// Adds the samples of the resources that are held.
fn add_held(text: &mut LineText, held: &[RscId])
    ensures { text.new ≡ text.old ++ flat_map held_sample held.now }
{
    for id in held {
        add_plain(text, Family::Held, id, 1);
    }
}

// Adds the samples of a family.
fn add_lines(text: &mut LineText, seen: &Seen, family: Family)
    ensures { text.new ≡ text.old ++ seen_lines seen.now family }
{
    match family {
        Family::Up => add_known(text, family, seen.up.map(bit)),
        Family::Opened => add_known(text, family, seen.opened),
        Family::RecordAge => add_known(text, family, seen.record_age),
        Family::Held => add_held(text, seen.held),
        _ => {}
    }
}

// Adds a family.
fn add_family(text: &mut LineText, seen: &Seen, family: Family)
    ensures { GoesOn (seen_family seen.now family ∷ []) text.old text.new }
{
    add_header(text, family);
    add_lines(text, seen, family);
}

// Adds all families.
fn add_families(text: &mut LineText, seen: &Seen)
    ensures { GoesOn (seen_families seen.now) text.old text.new }
{
    add_family(text, seen, Family::Up);
    add_family(text, seen, Family::Opened);
    add_family(text, seen, Family::RecordAge);
    add_family(text, seen, Family::Held);
}

// The metrics of what is known of the executor.
fn seen_text(alloc: Global, seen: &Seen) -> Result<Vec<u8>, Refused>
    ensures text { IfOk result (λ text. GoesOn (seen_families seen.now) [] text.items) }
{
    let mut text = LineText::new(alloc);
    add_families(&mut text, seen);
    text.finish()
}

/// Writes what is known of the executor that has a journal as metrics: whether there is one, when it opened the journal and the age of
/// the last record, as far as they are known, and each resource that is held, once and in order.
pub fn executor_metrics<W: Write>(alloc: Global, writer: &mut W, seen: &Seen) -> Result<(), Fault>
    ensures written { IsWritten (GoesOn (seen_families seen.now) []) (W.contents writer.old) (W.contents writer.new) result }
    ensures ends { IsRunEnd result }
    ensures memory { IfErr result (HasCause ⟦<Global as Grows>⟧.refuses) }
{
    let Ok(text) = seen_text(alloc, seen) else {
        return Err(Fault::ReplyMemory);
    };
    match write_flushed(writer, text.as_slice()) {
        Ok(()) => Ok(()),
        Err(_) => Err(Fault::InputOrOutput),
    }
}
