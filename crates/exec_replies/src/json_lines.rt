//! Replies and notices, written as lines of JSON to a writer.
ghost use Rattle.std.specs.Prelude.{◌≡◌, ◌≢◌, None, OnErr, OnOk, IfErr, IsTrue};
ghost use Rattle.std.specs.Io.KnownBytes.{Appends};
ghost use Rattle.std.specs.List.{flat_map};
ghost use Rattle.exec_replies.specs.Replies.{notice_line, reply_line};
ghost use Rattle.exec_replies.specs.Tags.{written_reason, written_tag};
ghost use Rattle.exec_replies.specs.declared.reply.LineReply.TheVariants.{Request};
ghost use Rattle.exec_lines.specs.Prefixes.{AppendsPrefix};
ghost use Rattle.exec_lines.specs.declared.io_fault.IoFault.TheVariants.{InputOrOutput, Memory};

use crate::line_buffer::LineBuffer;
use crate::notice::{NoticeForm, Origin};
use crate::reply::LineReply;
use crate::tagged::Tagged;
use crate::write::{write_answer, write_notice, write_reply};
use exec_lines::{IoFault, Output, put_bytes};
use growth::Grows;
use ocf_model::Reply;
use ocf_types::Notice;
use std::alloc::Global;

/// A writer, and the buffers in which each of its lines is made.
#[derive(Drop)]
pub struct JsonLines<W> {
    pub writer: W,
    buffer: LineBuffer,
}

impl<W: Output> JsonLines<W> {
    /// Nothing is written yet. The buffers take no memory before the first line.
    pub fn new(alloc: Global, writer: W) -> Self
        ensures { result.writer ≡ writer }
    {
        JsonLines {
            writer,
            buffer: LineBuffer::new(alloc),
        }
    }

    // Writes the line in the buffer. If the writer fails, a prefix of the line was written.
    fn put_line(&mut self) -> Result<(), IoFault>
        ensures sent { OnOk result
            (Appends (W.contents self.old.writer) (W.contents self.new.writer) self.old.buffer.line.items) }
        ensures prefix { OnErr result
            (AppendsPrefix (W.contents self.old.writer) (W.contents self.new.writer) self.old.buffer.line.items) }
        ensures only { IfErr result (λ f. f ≢ Memory) }
        ensures output { IfErr result (λ f. f ≡ InputOrOutput → IsTrue (W.broke self.new.writer)) }
    {
        put_bytes(&mut self.writer, self.buffer.line.as_slice())?;
        Ok(())
    }

    /// Writes the line of a reply in this form and with this tag, without a flush. On error a prefix of the line was written.
    pub fn put_reply(&mut self, tagged: Tagged, reply: &LineReply) -> Result<(), IoFault>
        ensures sent { OnOk result
            (Appends (W.contents self.old.writer) (W.contents self.new.writer)
            (reply_line tagged.entry.form (written_tag tagged.entry) reply.now)) }
        ensures prefix { OnErr result
            (AppendsPrefix (W.contents self.old.writer) (W.contents self.new.writer)
            (reply_line tagged.entry.form (written_tag tagged.entry) reply.now)) }
        ensures output { IfErr result (λ f. f ≡ InputOrOutput → IsTrue (W.broke self.new.writer)) }
        ensures memory { IfErr result (λ f. f ≡ Memory → IsTrue ⟦<Global as Grows>⟧.refuses) }
    {
        write_reply(&mut self.buffer, tagged, reply)?;
        self.put_line()
    }

    /// The same of a reply to a request.
    pub fn put_answer(&mut self, tagged: Tagged, reply: &Reply) -> Result<(), IoFault>
        ensures sent { OnOk result
            (Appends (W.contents self.old.writer) (W.contents self.new.writer)
            (reply_line tagged.entry.form (written_tag tagged.entry) (Request reply.now))) }
        ensures prefix { OnErr result
            (AppendsPrefix (W.contents self.old.writer) (W.contents self.new.writer)
            (reply_line tagged.entry.form (written_tag tagged.entry) (Request reply.now))) }
        ensures output { IfErr result (λ f. f ≡ InputOrOutput → IsTrue (W.broke self.new.writer)) }
        ensures memory { IfErr result (λ f. f ≡ Memory → IsTrue ⟦<Global as Grows>⟧.refuses) }
    {
        write_answer(&mut self.buffer, tagged, reply)?;
        self.put_line()
    }

    /// Writes the line of a notice in this form, with this tag and this reason, without a flush. On error a prefix of the line was written.
    pub fn put_notice(
        &mut self,
        tagged: Tagged,
        notice: &Notice,
        origin: Origin,
    ) -> Result<(), IoFault>
        ensures sent { OnOk result
            (Appends (W.contents self.old.writer) (W.contents self.new.writer)
            (notice_line tagged.entry.form (written_reason tagged.entry) (written_tag tagged.entry) origin notice.now)) }
        ensures prefix { OnErr result
            (AppendsPrefix (W.contents self.old.writer) (W.contents self.new.writer)
            (notice_line tagged.entry.form (written_reason tagged.entry) (written_tag tagged.entry) origin notice.now)) }
        ensures output { IfErr result (λ f. f ≡ InputOrOutput → IsTrue (W.broke self.new.writer)) }
        ensures memory { IfErr result (λ f. f ≡ Memory → IsTrue ⟦<Global as Grows>⟧.refuses) }
    {
        write_notice(&mut self.buffer, tagged, notice, origin)?;
        self.put_line()
    }

    /// Writes the notices of an opening's report in this form, a line each, without tags and reasons and without a flush. On error a prefix
    /// of the lines was written.
    pub fn put_report(&mut self, form: NoticeForm, notices: &[Notice]) -> Result<(), IoFault>
        ensures sent { OnOk result
            (Appends (W.contents self.old.writer) (W.contents self.new.writer)
            (flat_map (notice_line form.entry None None Origin.Opening) notices.now)) }
        ensures prefix { OnErr result
            (AppendsPrefix (W.contents self.old.writer) (W.contents self.new.writer)
            (flat_map (notice_line form.entry None None Origin.Opening) notices.now)) }
        ensures output { IfErr result (λ f. f ≡ InputOrOutput → IsTrue (W.broke self.new.writer)) }
        ensures memory { IfErr result (λ f. f ≡ Memory → IsTrue ⟦<Global as Grows>⟧.refuses) }
    {
        let tagged = Tagged {
            form,
            tag: None,
            reason: None,
        };
        for notice in notices {
            self.put_notice(tagged, notice, Origin::Opening)?;
        }
        Ok(())
    }
}
