//! What a journal holds, as replies.
ghost use Rattle.std.specs.Prelude.{◌≡◌, IsErrOf, None, OnOk, IsTrue, IfErr};
ghost use Rattle.std.specs.Io.KnownBytes.{Appends};
ghost use Rattle.std.specs.List.{flat_map};
ghost use Rattle.disk_model.specs.Disk.{Increased};
ghost use Rattle.exec_replies.specs.Replies.{reply_line};
ghost use Rattle.exec_replies.specs.declared.notice.NoticeForm.TheVariants.{Short};
ghost use Rattle.exec_journal.specs.Opening.{Opens};
ghost use Rattle.exec_faults.specs.Faults.{HasCause, IsRunEnd};
ghost use Rattle.exec_lines.specs.declared.io_fault.IoFault.TheVariants.{Memory};
ghost use Rattle.status_report.specs.Shown.{ShowsAs, answer_line, resource_lines, shown};

use disk_model::Disk;
use exec_faults::Fault;
use exec_journal::Journal;
use exec_lines::{IoFault, write_flushed};
use exec_replies::{LineBuffer, LineReply, NoticeForm, Tagged, write_reply};
use exec_state::State;
use growth::Grows;
use ocf_model::{Refusal, Reply};
use ocf_types::{Question, RscId};
use std::alloc::Global;
use std::io::Write;

// Writes the line of a reply in the form of `run`, short and without a tag, and flushes it.
pub(crate) fn send_plain<W: Write>(
    alloc: Global,
    writer: &mut W,
    reply: &LineReply,
) -> Result<(), IoFault>
    ensures sent { OnOk result
        (Appends (W.contents writer.old) (W.contents writer.new) (reply_line Short None reply.now)) }
    ensures memory { IfErr result (λ f. f ≡ Memory → IsTrue ⟦<Global as Grows>⟧.refuses) }
{
    let tagged = Tagged {
        form: NoticeForm::Short,
        tag: None,
        reason: None,
    };
    let mut buffer = LineBuffer::new(alloc);
    write_reply(&mut buffer, tagged, reply)?;
    write_flushed(writer, buffer.line.as_slice())?;
    Ok(())
}

// Writes the answer to a question.
fn write_answer<W: Write>(
    alloc: Global,
    writer: &mut W,
    state: &State,
    question: &Question,
) -> Result<(), IoFault>
    ensures written { OnOk result
        (Appends (W.contents writer.old) (W.contents writer.new)
        (answer_line state.now.state question.now)) }
    ensures memory { IfErr result (λ f. f ≡ Memory → IsTrue ⟦<Global as Grows>⟧.refuses) }
{
    match state.answer(alloc, question) {
        Reply::Refused(Refusal::Memory) => Err(IoFault::Memory),
        reply => send_plain(alloc, writer, &LineReply::Request(reply)),
    }
}

// Writes the replies to `info` and `history` of a resource.
pub(crate) fn write_resource<W: Write>(
    alloc: Global,
    writer: &mut W,
    state: &State,
    id: &RscId,
) -> Result<(), IoFault>
    ensures written { OnOk result
        (Appends (W.contents writer.old) (W.contents writer.new)
        (resource_lines state.now.state id.now)) }
    ensures memory { IfErr result (λ f. f ≡ Memory → IsTrue ⟦<Global as Grows>⟧.refuses) }
{
    write_answer(alloc, writer, state, &Question::Info(id.copied()))?;
    write_answer(alloc, writer, state, &Question::History(id.copied()))
}

fn write_resources<W: Write>(
    alloc: Global,
    writer: &mut W,
    state: &State,
    ids: &[RscId],
) -> Result<(), IoFault>
    ensures written { OnOk result
        (Appends (W.contents writer.old) (W.contents writer.new)
        (flat_map (resource_lines state.now.state) ids.now)) }
    ensures memory { IfErr result (λ f. f ≡ Memory → IsTrue ⟦<Global as Grows>⟧.refuses) }
{
    for id in ids {
        write_resource(alloc, writer, state, id)?;
    }
    Ok(())
}

// Writes the reply to `list`, and then those to `info` and `history` of each resource.
pub(crate) fn write_state<W: Write>(
    alloc: Global,
    writer: &mut W,
    state: &State,
) -> Result<(), IoFault>
    ensures written { OnOk result
        (Appends (W.contents writer.old) (W.contents writer.new) (shown state.now.state)) }
    ensures memory { IfErr result (λ f. f ≡ Memory → IsTrue ⟦<Global as Grows>⟧.refuses) }
{
    let reply = LineReply::Request(state.answer(alloc, &Question::List));
    let LineReply::Request(Reply::List(ids)) = &reply else {
        return Err(IoFault::Memory);
    };
    send_plain(alloc, writer, &reply)?;
    write_resources(alloc, writer, state, ids.as_slice())
}

/// Opens a journal without a boot, writes what it holds, and returns its disk. It writes the reply to `list`, and then those to `info` and
/// `history` of each resource: all of them, or the fault is one of the opening, of output, or of memory for a reply.
#[tactic(auto, using(exec_faults::proofs::FaultLemmas::opening_cause, exec_faults::proofs::FaultLemmas::output_cause))]
pub fn show<D: Disk + Drop, W: Write>(
    alloc: Global,
    disk: D,
    writer: &mut W,
) -> (D, Result<(), Fault>)
    ensures shown { (D.view result.0).honest
        → ShowsAs (D.view disk).reads (W.contents writer.old) (W.contents writer.new) result.1 }
    ensures opens { Opens (D.view disk) (D.view result.0) }
    ensures ends { IsRunEnd result.1 }
    ensures cause { IsErrOf result.1 Fault.Disk
        → Increased (D.view disk).failures (D.view result.0).failures }
    ensures memory { IfErr result.1 (HasCause ⟦<Global as Grows>⟧.refuses) }
{
    match Journal::open(alloc, disk) {
        Ok((journal, state)) => match write_state(alloc, writer, &state) {
            Ok(()) => (journal.into_disk(), Ok(())),
            Err(fault) => (journal.into_disk(), Err(Fault::from(fault))),
        },
        Err((fault, disk)) => (disk, Err(Fault::from(fault))),
    }
}
