//! The calls that read and change the state file.
use crate::table::{Deed, Held};
use std::fs::{self, OpenOptions};
use std::io::{self, ErrorKind, Write};
use std::rt::Files;

/// What the state file at this path holds. Its content is read only if the role is asked for. Anything but a plain file is an error,
/// so that no agent waits for a pipe.
pub fn look<R: Files + Alloc>(rt: &R, path: &str, asks_role: bool) -> io::Result<Held> {
    let found = match fs::metadata(rt, path) {
        Ok(found) => found,
        Err(error) if error.kind() == ErrorKind::NotFound => return Ok(Held::Absent),
        Err(error) => return Err(error),
    };
    if !found.is_file() {
        return Err(io::Error::from(ErrorKind::InvalidInput));
    }
    if !asks_role {
        return Ok(Held::Other);
    }
    Ok(Held::of(fs::read(rt, path)?.as_slice()))
}

/// Does this to the state file. It is an error if a file that is to be made exists by now, but not if one that is to be removed is
/// gone.
pub fn carry_out(rt: &impl Files, path: &str, deed: Deed) -> io::Result<()> {
    match deed {
        Deed::Leave => Ok(()),
        Deed::Make => make(rt, path, ""),
        Deed::MakeIn(role) => make(rt, path, role.word()),
        Deed::Write(role) => fs::write(rt, path, role.word()),
        Deed::Remove => remove(rt, path),
    }
}

fn make(rt: &impl Files, path: &str, content: &str) -> io::Result<()> {
    let mut file = OpenOptions::new()
        .write(true)
        .create_new(true)
        .open(rt, path)?;
    file.write_all(content.as_bytes())
}

fn remove(rt: &impl Files, path: &str) -> io::Result<()> {
    match fs::remove_file(rt, path) {
        Err(error) if error.kind() == ErrorKind::NotFound => Ok(()),
        done => done,
    }
}
