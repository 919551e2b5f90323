//! A descriptor that may be non-blocking, and what the system says of it: the one place where its calls are made.
ghost use Rattle.std.specs.Prelude.{◌≡◌, length};
ghost use Rattle.std.specs.Io.{ReadsAtMost, WritesAtMost};
ghost use Rattle.std.specs.Io.KnownBytes.{ReadConsumes, WriteAppends, Keeps};
ghost use Rattle.exec_lines.specs.Descriptors.{after_flush, after_look, after_poll, after_read, after_write, no_answers};

use crate::note::DescriptorNote;
use crate::poll::{is_hung_up, is_readable, is_writable};
use std::io::{self, Read, Write};

/// A reader or a writer, and its descriptor, if it has one that can be polled.
#[derive(Drop)]
pub struct Polled<T> {
    inner: T,
    descriptor: Option<i32>,
    pub(crate) note: DescriptorNote,
}

impl<T> Polled<T> {
    /// Nothing was said of it yet.
    pub fn new(inner: T, descriptor: Option<i32>) -> Polled<T>
        ensures inner { result.inner ≡ inner }
        ensures descriptor { result.descriptor ≡ descriptor }
        ensures no_answers { result.note.answers ≡ no_answers }
    {
        Polled {
            inner,
            descriptor,
            note: DescriptorNote::no_answers(),
        }
    }

    /// Waits for at most this many milliseconds until a read would not block. Whether it would not.
    pub fn is_readable(&mut self, millis: u32) -> bool
        ensures inner { self.new.inner ≡ self.old.inner }
        ensures answers { self.new.note.answers ≡ after_poll self.old.note.answers millis result }
    {
        let is_ready = match self.descriptor {
            Some(descriptor) => is_readable(descriptor, millis),
            None => true,
        };
        // TRUSTED: the descriptor was polled once, for at most this time, and this is the answer; what has no descriptor is ready.
        self.note.follow(&(millis, is_ready));
        is_ready
    }

    /// The same of a write.
    pub fn is_writable(&mut self, millis: u32) -> bool
        ensures inner { self.new.inner ≡ self.old.inner }
        ensures answers { self.new.note.answers ≡ after_poll self.old.note.answers millis result }
    {
        let is_ready = match self.descriptor {
            Some(descriptor) => is_writable(descriptor, millis),
            None => true,
        };
        // TRUSTED: the descriptor was polled once, for at most this time, and this is the answer; what has no descriptor is ready.
        self.note.follow(&(millis, is_ready));
        is_ready
    }

    /// Whether the other end of another descriptor, that of the replies, is closed.
    pub fn is_unread(&mut self, replies: i32) -> bool
        ensures inner { self.new.inner ≡ self.old.inner }
        ensures answers { self.new.note.answers ≡ after_look self.old.note.answers result }
    {
        let is_unread = is_hung_up(replies);
        // TRUSTED: poll(2) says whether the other end of the replies' descriptor is closed.
        self.note.follow(&is_unread);
        is_unread
    }

    /// Whether the descriptor may still have a reader.
    pub fn has_reader(&self) -> bool {
        match self.descriptor {
            Some(descriptor) => !is_hung_up(descriptor),
            None => true,
        }
    }
}

impl<R: Read> Polled<R> {
    /// Makes one read.
    pub fn read(&mut self, buf: &mut [u8]) -> io::Result<usize>
        ensures bound { ReadsAtMost result buf.new }
        ensures bytes { ReadConsumes (R.remaining self.old.inner) (R.remaining self.new.inner) result buf.new }
        ensures answers { self.new.note.answers ≡ after_read self.old.note.answers (length buf.new) result }
    {
        let room = buf.len();
        let read = self.inner.read(buf);
        // TRUSTED: this is the answer of the one read that was made.
        self.note.follow(&(room, &read));
        read
    }
}

impl<W: Write> Polled<W> {
    /// Makes one write.
    pub fn write(&mut self, bytes: &[u8]) -> io::Result<usize>
        ensures bound { WritesAtMost result bytes.now }
        ensures bytes { WriteAppends (W.contents self.old.inner) (W.contents self.new.inner) result bytes.now }
        ensures answers { self.new.note.answers ≡ after_write self.old.note.answers (length bytes.now) result }
    {
        let written = self.inner.write(bytes);
        // TRUSTED: this is the answer of the one write that was made.
        self.note.follow(&(bytes.len(), &written));
        written
    }

    /// Flushes the writer.
    pub fn flush(&mut self) -> io::Result<()>
        ensures bytes { Keeps (W.contents self.old.inner) (W.contents self.new.inner) }
        ensures answers { self.new.note.answers ≡ after_flush self.old.note.answers result }
    {
        let flushed = self.inner.flush();
        // TRUSTED: this is the answer of the one flush that was made.
        self.note.follow(&flushed);
        flushed
    }
}
