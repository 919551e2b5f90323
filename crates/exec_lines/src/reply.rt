//! Writes bytes to the output.
ghost use Rattle.std.specs.Prelude.{OnErr, OnOk};
ghost use Rattle.std.specs.Io.{WritesAtMost};
ghost use Rattle.std.specs.Io.KnownBytes.{Appends, WriteAppends};
ghost use Rattle.exec_lines.specs.Prefixes.{AppendsPrefix};

use ocf_types::NUM_MAX;
use std::io::{self, ErrorKind, Write};

// Makes one write and returns how many bytes it took: 0 if a signal interrupted it. A write that takes none is otherwise an error.
fn write_once<W: Write>(writer: &mut W, bytes: &[u8]) -> io::Result<usize>
    ensures bound { WritesAtMost result bytes.now }
    ensures taken { WriteAppends (W.contents writer.old) (W.contents writer.new) result bytes.now }
{
    match writer.write(bytes) {
        Ok(0) => Err(io::Error::from(ErrorKind::WriteZero)),
        Err(error) if error.kind() == ErrorKind::Interrupted => Ok(0),
        written => written,
    }
}

/// Writes the bytes. An interrupted write is made again. After an error a prefix of them is written. Fails with the kind
/// `TimedOut` after 9,007,199,254,740,991 writes.
pub fn write_bytes<W: Write>(writer: &mut W, bytes: &[u8]) -> io::Result<()>
    ensures written { OnOk result
        (Appends (W.contents writer.old) (W.contents writer.new) bytes.now) }
    ensures prefix { OnErr result
        (AppendsPrefix (W.contents writer.old) (W.contents writer.new) bytes.now) }
{
    let mut done = 0;
    for _ in 0..NUM_MAX {
        if done == bytes.len() {
            return Ok(());
        }
        done += write_once(writer, &bytes[done..])?;
    }
    Err(io::Error::from(ErrorKind::TimedOut))
}

/// Writes the bytes and flushes the writer, so that after `Ok` the system has them. After an error a prefix of them is
/// written.
pub fn write_flushed<W: Write>(writer: &mut W, bytes: &[u8]) -> io::Result<()>
    ensures written { OnOk result
        (Appends (W.contents writer.old) (W.contents writer.new) bytes.now) }
    ensures prefix { OnErr result
        (AppendsPrefix (W.contents writer.old) (W.contents writer.new) bytes.now) }
{
    write_bytes(writer, bytes)?;
    writer.flush()
}
