//! Lines of notices, each with the tag of its call and the signal that ended its run.
ghost use Rattle.std.specs.Prelude.{◌≡◌, IfErr, IsTrue, OnErr, OnOk, map};
ghost use Rattle.std.specs.Io.KnownBytes.{Appends};
ghost use Rattle.exec_lines.specs.Prefixes.{AppendsPrefix};
ghost use Rattle.exec_lines.specs.declared.io_fault.IoFault.TheVariants.{InputOrOutput, Memory};
ghost use Rattle.exec_client.specs.SentItem.{Noticed, line_of, lines_of, noticed_by};
ghost use Rattle.exec_client.specs.Signals.{signal_of};
ghost use Rattle.exec_client.specs.Tags.{after_notice, tag_of_call};
ghost use Rattle.exec_client.specs.MessageTags.{after_notices, notice_tags};

use crate::message::TurnNotices;
use crate::replies::Making;
use crate::signals::signal_of;
use crate::tags::Tags;
use child_model::Entry;
use exec_lines::{IoFault, Output};
use exec_replies::{JsonLines, Origin, Tagged};
use growth::Grows;
use ocf_types::Notice;
use resource_status::reason_of;
use std::alloc::Global;

// A notice, and the number of the signal that ended its run, if one did.
#[derive(Clone, Copy)]
struct Signaled<'a> {
    notice: &'a Notice,
    signal: Option<u8>,
}

// Adds to a notice the signal that ended its run according to this book.
fn with_signal<'a>(notice: &'a Notice, book: &[Entry]) -> Signaled<'a>
    ensures notice { result.notice.now ≡ notice.now }
    ensures signal { result.signal ≡ signal_of book.now notice.now.result.run }
{
    Signaled {
        notice,
        signal: signal_of(book, notice.result.run),
    }
}

// Writes the line of a notice. On error a prefix of the line was written.
fn put_signaled<W: Output>(
    making: &Making,
    lines: &mut JsonLines<W>,
    tags: &mut Tags,
    signaled: &Signaled,
) -> Result<(), IoFault>
    ensures sent { OnOk result
        (Appends (W.contents lines.old.writer) (W.contents lines.new.writer)
        (line_of making.now.form making.now.reasons.now (tag_of_call signaled.now.notice.now.result.call tags.old.calls)
        (Noticed signaled.now.notice.now signaled.now.signal))) }
    ensures prefix { OnErr result
        (AppendsPrefix (W.contents lines.old.writer) (W.contents lines.new.writer)
        (line_of making.now.form making.now.reasons.now (tag_of_call signaled.now.notice.now.result.call tags.old.calls)
        (Noticed signaled.now.notice.now signaled.now.signal))) }
    ensures kept { OnOk result (tags.new ≡ after_notice signaled.now.notice.now tags.old) }
    ensures output { IfErr result (λ f. f ≡ InputOrOutput → IsTrue (W.broke lines.new.writer)) }
    ensures memory { IfErr result (λ f. f ≡ Memory → IsTrue ⟦<Global as Grows>⟧.refuses) }
{
    let tagged = Tagged {
        form: making.form,
        tag: tags.of_call(signaled.notice.result.call),
        reason: reason_of(making.reasons, signaled.notice.result.run),
    };
    lines.put_notice(tagged, signaled.notice, Origin::Turn(signaled.signal))?;
    tags.forget_by(signaled.notice);
    Ok(())
}

/// Writes the notices of a turn, a line each with its reason if that is known, without a flush. On error a prefix of the lines was written.
pub(crate) fn put_turn<W: Output>(
    making: &Making,
    lines: &mut JsonLines<W>,
    tags: &mut Tags,
    turn: &TurnNotices,
) -> Result<(), IoFault>
    ensures sent { OnOk result
        (Appends (W.contents lines.old.writer) (W.contents lines.new.writer)
        (lines_of making.now.form making.now.reasons.now (notice_tags tags.old turn.now.notices.now)
        (map (noticed_by turn.now.book.now) turn.now.notices.now))) }
    ensures prefix { OnErr result
        (AppendsPrefix (W.contents lines.old.writer) (W.contents lines.new.writer)
        (lines_of making.now.form making.now.reasons.now (notice_tags tags.old turn.now.notices.now)
        (map (noticed_by turn.now.book.now) turn.now.notices.now))) }
    ensures kept { OnOk result (tags.new ≡ after_notices turn.now.notices.now tags.old) }
    ensures output { IfErr result (λ f. f ≡ InputOrOutput → IsTrue (W.broke lines.new.writer)) }
    ensures memory { IfErr result (λ f. f ≡ Memory → IsTrue ⟦<Global as Grows>⟧.refuses) }
{
    let (notices, book) = (turn.notices, turn.book);
    for notice in notices {
        put_signaled(making, lines, tags, &with_signal(notice, book))?;
    }
    Ok(())
}
