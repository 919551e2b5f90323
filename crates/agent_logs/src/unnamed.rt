//! Files without a name.
use std::fs::{self, File, OpenOptions};
use std::io::{self, ErrorKind};
use std::os::unix::fs::OpenOptionsExt;
use std::rt::Clock;
use std::{env, process};

// The permissions of the file: its owner alone reads and writes it.
const OWNER_ONLY: u32 = 0o600;

// How many names are tried.
const TRIES: u32 = 16;

/// The directory of temporary files: TMPDIR, or `/tmp` where that is not set. POSIX, environment variables.
pub fn temporary_directory(rt: &HostRuntime) -> io::Result<String> {
    match env::var(rt, "TMPDIR") {
        Ok(directory) if !directory.is_empty() => Ok(directory),
        _ => Ok(String::from_str(rt.alloc(), "/tmp")?),
    }
}

// Makes a new file, which must not exist before, and removes its name. POSIX, open (O_EXCL) and unlink.
fn made(rt: &HostRuntime, path: &str) -> io::Result<File> {
    let mut options = OpenOptions::new();
    options
        .read(true)
        .append(true)
        .create_new(true)
        .mode(OWNER_ONLY);
    let file = options.open(rt, path)?;
    fs::remove_file(rt, path)?;
    Ok(file)
}

/// A new file in this directory, which has no name: it is gone once it is closed everywhere. Each write appends to it.
pub fn unnamed(rt: &HostRuntime, directory: &str) -> io::Result<File> {
    let pid = process::id(rt.process());
    for _ in 0..TRIES {
        let nanos = rt.monotonic()?.as_nanos();
        let path = format!(in rt.alloc(); "{directory}/ocfexec-{pid}-{nanos}")?;
        match made(rt, path.as_str()) {
            Err(error) if error.kind() == ErrorKind::AlreadyExists => {}
            made => return made,
        }
    }
    Err(io::Error::from(ErrorKind::AlreadyExists))
}
