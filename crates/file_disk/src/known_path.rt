//! A path, with the file that it leads to.
use std::alloc::{Allocator, Global};
use std::fs::{self, Metadata};
use std::io::{self, ErrorKind};
use std::os::unix::fs::MetadataExt;
use std::rt::Files;

/// A path, with the file that it led to at first: its device and its number there. POSIX, stat: `st_dev` and `st_ino`. No
/// other file has these while that one is open.
#[derive(Drop)]
pub struct KnownPath<A: Allocator = Global> {
    path: String<A>,
    device: u64,
    number: u64,
}

impl<A: Allocator> KnownPath<A> {
    /// A path that leads to the file with this metadata.
    pub fn new(path: String<A>, file: &Metadata) -> KnownPath<A> {
        KnownPath {
            path,
            device: file.dev(),
            number: file.ino(),
        }
    }

    /// The length of the file. It fails if the path now leads to another file, or to none.
    pub fn check<R: Files>(&self, rt: &R) -> io::Result<u64> {
        let found = fs::symlink_metadata(rt, self.path.as_str())?;
        if (found.dev(), found.ino()) == (self.device, self.number) {
            Ok(found.len())
        } else {
            Err(io::Error::new(ErrorKind::Other, "replaced while in use"))
        }
    }
}
