//! The paths of a journal's files, to check whether the files are still there.
use crate::error::FileError;
use crate::fault::file_name;
use crate::known_path::KnownPath;
use ocf_types::Part;
use std::alloc::{Allocator, Global};
use std::rt::Files;
use std::{fs, io};

/// The paths of both parts of a journal, with the files that they lead to.
#[derive(Drop)]
pub struct JournalPaths<A: Allocator = Global> {
    a: KnownPath<A>,
    b: KnownPath<A>,
}

// The path of a part in this directory, with the file that it leads to now.
fn path_of<R: Files, A: Allocator>(
    rt: &R,
    alloc: A,
    dir: &str,
    part: Part,
) -> io::Result<KnownPath<A>> {
    let path = format!(in alloc; "{dir}/{}", file_name(part))?;
    let found = fs::symlink_metadata(rt, path.as_str())?;
    Ok(KnownPath::new(path, &found))
}

impl<A: Allocator + Copy> JournalPaths<A> {
    /// The paths of both parts in this directory, with the files that they lead to now.
    pub fn find<R: Files>(rt: &R, alloc: A, dir: &str) -> io::Result<JournalPaths<A>> {
        let a = path_of(rt, alloc, dir, Part::A)?;
        let b = path_of(rt, alloc, dir, Part::B)?;
        Ok(JournalPaths { a, b })
    }

    /// Fails if a path now leads to another file, or to none.
    pub fn check<R: Files>(&self, rt: &R) -> Result<(), FileError> {
        self.a.check(rt).map_err(|error| FileError {
            part: Part::A,
            error,
        })?;
        self.b.check(rt).map_err(|error| FileError {
            part: Part::B,
            error,
        })?;
        Ok(())
    }
}
