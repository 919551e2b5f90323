//! A part's file, with the name under which it was opened.
ghost use Rattle.std.specs.Prelude.{◌≡◌, ◌≤◌, IfErr, IfOk, OnOk, length};
ghost use Rattle.file_disk.specs.Faults.{IsOfPart};
ghost use Rattle.file_disk.specs.Record.{FoundIn};

use crate::fault::{OpenFault, file_name, of_part};
use crate::identity::Mark;
use crate::known_path::KnownPath;
use crate::log::Log;
use crate::trust::Owners;
use ocf_types::{PART_LIMIT, Part};
use std::alloc::{Allocator, Global};
use std::fs::{self, File, OpenOptions, TryLockError};
use std::io::{self, ErrorKind};
use std::os::fd::AsRawFd;
use std::os::unix::fs::{FileExt, OpenOptionsExt};
use std::rt::Files;

/// The permissions of a new file: its owner alone reads and writes it.
pub const OWNER_ONLY: u32 = 0o600;

/// The number of bytes that are read at once.
pub(crate) const PIECE: usize = 65_536;

/// The open file of a part, its path, and the length that it has if nobody else writes it.
#[derive(Drop)]
pub struct PartFile<A: Allocator = Global> {
    pub file: File,
    path: KnownPath<A>,
    length: u64,
    mark: Mark<A>,
}

// Opens the file of this path, or makes it if there is none; `None` for a directory, a link or a device.
fn open_file<R: Files<File = File>>(rt: &R, path: &str) -> io::Result<Option<File>> {
    let mut options = OpenOptions::new();
    options.read(true).write(true).mode(OWNER_ONLY);
    match options.create_new(true).open(rt, path) {
        Ok(file) => return Ok(Some(file)),
        Err(error) if error.kind() == ErrorKind::AlreadyExists => {}
        Err(error) => return Err(error),
    }
    if !fs::symlink_metadata(rt, path)?.is_file() {
        return Ok(None);
    }
    Ok(Some(options.create_new(false).open(rt, path)?))
}

/// The file under a descriptor above the standard streams': if one of these was closed, its output must not go to the file.
pub fn above_streams(file: File) -> io::Result<File> {
    if file.as_raw_fd() <= libc::STDERR_FILENO {
        file.try_clone()
    } else {
        Ok(file)
    }
}

// Advises the system to read the file again from the device: after a sync that failed in an earlier process, its cache may
// still hold bytes that the device does not hold.
fn forget_cached(file: &File) -> io::Result<()> {
    match libc::posix_fadvise(file.as_raw_fd(), 0, 0, libc::POSIX_FADV_DONTNEED) {
        0 => Ok(()),
        code => Err(io::Error::from_raw_os_error(code)),
    }
}

/// Fills the buffer from this offset of the file on, and returns the number of bytes, which is less only at the file's end.
pub(crate) fn fill(file: &File, at: u64, buf: &mut [u8]) -> io::Result<usize>
    ensures { IfOk result (λ count. count ≤ length buf.new) }
{
    let mut filled = 0;
    for _ in 0..u64::MAX {
        if filled >= buf.len() {
            break;
        }
        match file.read_at(&mut buf[filled..], at.wrapping_add(filled as u64)) {
            Ok(0) => break,
            Ok(count) => filled += count,
            Err(error) if error.kind() == ErrorKind::Interrupted => {}
            Err(error) => return Err(error),
        }
    }
    Ok(filled)
}

impl<A: Allocator + Copy> PartFile<A> {
    /// Opens the file of a part, or makes it if there is none, and locks it for as long as it is open.
    pub fn open<R: Files<File = File>>(
        rt: &R,
        alloc: A,
        dir: &str,
        part: Part,
    ) -> Result<PartFile<A>, OpenFault>
        ensures { IfErr result (IsOfPart part) }
    {
        let path = format!(in alloc; "{dir}/{}", file_name(part))?;
        let opened = of_part(part, open_file(rt, path.as_str()))?;
        let file = opened.ok_or(OpenFault::NotPlain(part))?;
        let file = of_part(part, above_streams(file))?;
        match file.try_lock() {
            Ok(()) => {}
            Err(TryLockError::WouldBlock) => return Err(OpenFault::Locked(part)),
            Err(TryLockError::Error(error)) => return Err(OpenFault::file(part, error)),
        }
        let found = of_part(part, file.metadata())?;
        let (path, length) = (KnownPath::new(path, &found), found.len());
        let mark = of_part(part, Mark::new(alloc, dir, part, length > 0))?;
        Ok(PartFile {
            file,
            path,
            length,
            mark,
        })
    }

    /// Refuses a file whose owner or mode is not accepted.
    pub fn refuse_distrusted(&self, part: Part, owners: Owners) -> Result<(), OpenFault>
        ensures { IfErr result (IsOfPart part) }
    {
        match of_part(part, owners.distrust_of(&self.file))? {
            Some(why) => Err(OpenFault::Distrusted(part, why)),
            None => Ok(()),
        }
    }

    /// Syncs the file, reads it whole from the device, and notes the bytes that were found. Bytes past the limit of a part are no
    /// part of it.
    pub fn find_contents(&self, part: Part, log: &mut Log) -> io::Result<()>
        ensures { OnOk result (FoundIn part log.old.calls log.new.calls) }
    {
        self.file.sync_all()?;
        forget_cached(&self.file)?;
        let mut piece = [0; PIECE];
        let mut at = 0;
        while at < PART_LIMIT {
            let wanted = (PART_LIMIT - at).min(PIECE as u64) as usize;
            let count = fill(&self.file, at, &mut piece[..wanted])?;
            log.find(part, &piece[..count]);
            at += count as u64;
            if count < wanted {
                break;
            }
        }
        Ok(())
    }

    // Fails if the file has another length than the one that it has if nobody else writes it.
    fn check_length(&self, found: u64) -> io::Result<()> {
        if found == self.length {
            Ok(())
        } else {
            Err(io::Error::new(ErrorKind::Other, "cut or grown while in use"))
        }
    }

    /// The length of the file, up to the limit of a part. It fails if the path now leads to another file, or to none, or if
    /// somebody else has changed the length.
    pub fn size<R: Files>(&self, rt: &R) -> io::Result<u64>
        ensures { IfOk result (λ n. n ≤ PART_LIMIT) }
    {
        self.check_length(self.path.check(rt)?)?;
        Ok(self.length.min(PART_LIMIT))
    }

    /// Writes bytes at an offset. It fails, and writes nothing, if somebody else has changed the length: a write behind the end of
    /// a file that was cut would hide that.
    pub fn write(&mut self, bytes: &[u8], at: u64) -> io::Result<()> {
        self.check_length(self.file.metadata()?.len())?;
        self.file.write_all_at(bytes, at)?;
        self.length = self.length.max(at.saturating_add(bytes.len() as u64));
        Ok(())
    }

    /// Syncs the bytes of the file, and marks the part as written if it has any. It fails, too, if the path now leads to another file,
    /// or to none, as the next opening would not find these bytes, or if somebody else has changed the length.
    pub fn sync<R: Files<File = File>>(&self, rt: &R) -> io::Result<()> {
        self.file.sync_data()?;
        self.check_length(self.path.check(rt)?)?;
        if self.length > 0 {
            self.mark.set(rt);
        }
        Ok(())
    }
}
