//! A directory with a log for each resource.
use ocf_types::RscId;
use std::alloc::AllocError;
use std::fmt::{self, Display, Formatter};
use std::fs::{self, File, OpenOptions};
use std::io::{self, ErrorKind};
use std::os::unix::fs::OpenOptionsExt;
use std::str;

// The permissions of a new log: its owner alone reads and writes it.
const OWNER_ONLY: u32 = 0o600;

/// A directory with a log for each resource: the file `ID.log`.
#[derive(Drop)]
pub struct LogDirectory {
    rt: HostRuntime,
    path: String,
}

// The text of an id, which is ASCII.
fn text_of(id: &RscId) -> &str {
    str::from_utf8(id.as_bytes()).unwrap_or_default()
}

impl LogDirectory {
    /// The directory at this path.
    pub fn new(rt: HostRuntime, path: String) -> LogDirectory {
        LogDirectory { rt, path }
    }

    // The path of a resource's log. An id has no slash, so the log is in this directory. Its name ends with `.log`, so it is neither
    // `.` nor `..` nor that of a rotated log, as `ID.log.1`.
    fn path_of(&self, id: &RscId) -> Result<String, AllocError> {
        format!(in self.rt.alloc(); "{}/{}.log", self.path, text_of(id))
    }

    /// Opens the log of a resource to append to it, and creates it if it does not exist. Anything but a plain file is an error, as a
    /// link or a named pipe, whose opening would wait for a reader. POSIX, open.
    pub fn open(&self, id: &RscId) -> io::Result<File> {
        let path = self.path_of(id)?;
        let mut options = OpenOptions::new();
        options.append(true).mode(OWNER_ONLY);
        match fs::symlink_metadata(&self.rt, path.as_str()) {
            Ok(found) if found.is_file() => options.open(&self.rt, path.as_str()),
            Ok(_) => Err(io::Error::new(ErrorKind::InvalidInput, "not a plain file")),
            Err(error) if error.kind() == ErrorKind::NotFound => {
                options.create_new(true).open(&self.rt, path.as_str())
            }
            Err(error) => Err(error),
        }
    }
}

impl Display for LogDirectory {
    fn fmt<W: fmt::Write>(&self, f: &mut Formatter<W>) -> fmt::Result {
        f.write_str(self.path.as_str())
    }
}
