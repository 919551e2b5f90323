//! Puts bytes into the output of a session.
ghost use Rattle.std.specs.Prelude.{IsTrue, OnErr, OnOk};
ghost use Rattle.std.specs.Io.KnownBytes.{Appends};
ghost use Rattle.exec_lines.specs.Prefixes.{AppendsPrefix};

use crate::output::Output;
use std::io;

/// Puts the bytes. After an error, which only a failed write causes, a prefix of them is put.
pub fn put_bytes<W: Output>(writer: &mut W, bytes: &[u8]) -> io::Result<()>
    ensures written { OnOk result
        (Appends (W.contents writer.old) (W.contents writer.new) bytes.now) }
    ensures prefix { OnErr result
        (AppendsPrefix (W.contents writer.old) (W.contents writer.new) bytes.now) }
    ensures breaks { OnErr result (IsTrue (W.broke writer.new)) }
{
    let mut done = 0;
    for _ in 0..bytes.len() {
        if done == bytes.len() {
            return Ok(());
        }
        done += writer.put(&bytes[done..])?;
    }
    Ok(())
}
