//! Whether the files of a journal were written.
use crate::fault::file_name;
use ocf_types::Part;
use std::alloc::Allocator;
use std::os::unix::fs::MetadataExt;
use std::rt::Files;
use std::{fs, io};

// What a write of a part's file changes: its length, and the moment of the write. POSIX, stat. A file with the same name in its place has
// another number.
#[derive(Clone, Copy, PartialEq, Eq)]
struct PartMark {
    device: u64,
    number: u64,
    len: u64,
    second: i64,
    nanosecond: i64,
}

// The mark of a part's file in this directory.
fn mark_of<R: Files, A: Allocator>(
    rt: &R,
    alloc: A,
    dir: &str,
    part: Part,
) -> io::Result<PartMark> {
    let path = format!(in alloc; "{dir}/{}", file_name(part))?;
    let found = fs::symlink_metadata(rt, path.as_str())?;
    Ok(PartMark {
        device: found.dev(),
        number: found.ino(),
        len: found.len(),
        second: found.mtime(),
        nanosecond: found.mtime_nsec(),
    })
}

/// What shows whether the files of a journal were written: two writes of one moment of the system's clock may show alike.
#[derive(Clone, Copy, PartialEq, Eq)]
pub struct WriteMarks {
    a: PartMark,
    b: PartMark,
}

impl WriteMarks {
    /// The marks of the files in this directory, which are not read.
    pub fn find<R: Files, A: Allocator + Copy>(
        rt: &R,
        alloc: A,
        dir: &str,
    ) -> io::Result<WriteMarks> {
        let a = mark_of(rt, alloc, dir, Part::A)?;
        let b = mark_of(rt, alloc, dir, Part::B)?;
        Ok(WriteMarks { a, b })
    }
}
