//! The output of an agent that is asked for its metadata.
ghost use Rattle.std.specs.Prelude.{◌≡◌, ◌≤◌, ◌++◌, [], true, IfOk, vec_len};
ghost use Rattle.std.specs.Io.KnownBytes.{IsAtEnd};
ghost use Rattle.ocf_types.specs.Limits.{metadata_limit};

use agent_system::Waited;
use growth::{Grows, Refused, with_capacity};
use ocf_types::METADATA_LIMIT;
use std::alloc::Allocator;
use std::io::{ErrorKind, Read};

// How many bytes are read at once.
const CHUNK: usize = 4_096;

// How many reads one poll makes at most.
const READS: u32 = 16;

/// How far a stream was read.
#[derive(Clone, Copy)]
pub enum Progress {
    /// More may come.
    Open,
    /// It is at its end.
    Ended,
    /// A read failed.
    Failed,
}

/// What was read of an agent's output, at most [`METADATA_LIMIT`] bytes of it.
#[derive(Drop)]
pub struct MetaOutput<A: Allocator> {
    pub bytes: Vec<u8, A>,
    /// Whether they are all that was read.
    pub is_whole: bool,
    pub ghost short: { vec_len bytes ≤ metadata_limit },
}

impl<A: Grows> MetaOutput<A> {
    /// No bytes yet, with the capacity for [`METADATA_LIMIT`]. It fails only where memory is refused.
    pub fn new(alloc: A) -> Result<MetaOutput<A>, Refused<A>>
        ensures none { IfOk result (λ output. output.bytes.items ≡ []) }
        ensures whole { IfOk result (λ output. output.is_whole ≡ true) }
    {
        Ok(MetaOutput {
            bytes: with_capacity(alloc, METADATA_LIMIT)?,
            is_whole: true,
        })
    }
}

impl<A: Allocator> MetaOutput<A> {
    ghost use Rattle.agent_metadata.specs.MetaOutputs.{KeepsAll};

    // Appends what was read next, if it fits; else the output is no longer whole.
    fn keep(&mut self, chunk: &[u8])
        ensures whole { self.new.is_whole ≡ true → self.old.is_whole ≡ true }
        ensures kept { self.new.is_whole ≡ true
            → self.new.bytes.items ≡ self.old.bytes.items ++ chunk.now }
    {
        self.is_whole = self.is_whole
            && chunk.len() <= METADATA_LIMIT - self.bytes.len()
            && self.bytes.extend_from_slice(chunk).is_ok();
    }

    /// Reads the bytes that a stream has ready, without waiting: at most 16 times 4,096 bytes.
    pub fn read_ready<S: Read + Waited>(&mut self, stream: &mut S) -> Progress
        ensures kept { KeepsAll (S.remaining stream.old) (S.remaining stream.new)
            self.old self.new }
        ensures ended { result ≡ Progress.Ended → IsAtEnd (S.remaining stream.new) }
    {
        let mut chunk = [0u8; CHUNK];
        for _ in 0..READS {
            if !stream.is_ready(0) {
                return Progress::Open;
            }
            match stream.read(&mut chunk) {
                Ok(0) => return Progress::Ended,
                Ok(length) => self.keep(&chunk[..length]),
                Err(error) if error.kind() == ErrorKind::Interrupted => {}
                Err(_) => return Progress::Failed,
            }
        }
        Progress::Open
    }
}
