//! The directory of a journal.
ghost use Rattle.std.specs.Prelude.{◌≡◌, [], IsErr};

use crate::fault::OpenFault;
use crate::part_file::above_streams;
use crate::trust::Owners;
use std::alloc::Allocator;
use std::fs::{self, File, TryLockError};
use std::io::{self, ErrorKind};
use std::rt::Files;

// The path of a directory, with a dot after it: it leads nowhere unless it is a directory.
fn directory_path<A: Allocator>(alloc: A, dir: &str) -> Result<String<A>, OpenFault>
    ensures { dir.now ≡ [] → IsErr result }
{
    if dir.is_empty() {
        let error = io::Error::new(ErrorKind::InvalidInput, "the directory has no name");
        return Err(OpenFault::Directory(error));
    }
    Ok(format!(in alloc; "{dir}/.")?)
}

/// Fails unless the directory exists.
pub fn find_directory<R: Files, A: Allocator>(rt: &R, alloc: A, dir: &str) -> Result<(), OpenFault>
    ensures { dir.now ≡ [] → IsErr result }
{
    let path = directory_path(alloc, dir)?;
    match fs::metadata(rt, path.as_str()) {
        Ok(_) => Ok(()),
        Err(error) => Err(OpenFault::directory(error)),
    }
}

/// Opens a directory whose owner and mode are accepted, so that its entries can be synced, and locks it for as long as it
/// is open.
pub fn open_directory<R: Files<File = File>, A: Allocator>(
    rt: &R,
    alloc: A,
    dir: &str,
    owners: Owners,
) -> Result<File, OpenFault>
    ensures { dir.now ≡ [] → IsErr result }
{
    let path = directory_path(alloc, dir)?;
    let directory = File::open(rt, path.as_str()).map_err(OpenFault::directory)?;
    let directory = above_streams(directory).map_err(OpenFault::directory)?;
    if let Some(why) = owners
        .distrust_of(&directory)
        .map_err(OpenFault::directory)?
    {
        return Err(OpenFault::DirectoryDistrusted(why));
    }
    match directory.try_lock() {
        Ok(()) => Ok(directory),
        Err(TryLockError::WouldBlock) => Err(OpenFault::InUse),
        Err(TryLockError::Error(error)) => Err(OpenFault::directory(error)),
    }
}

/// Syncs the entries of a directory.
pub fn sync_directory<R: Files<File = File>, A: Allocator>(
    rt: &R,
    alloc: A,
    dir: &str,
) -> io::Result<()> {
    let path = format!(in alloc; "{dir}/.")?;
    File::open(rt, path.as_str())?.sync_all()
}

/// Whether an executor holds the journal of this directory. A lock that others may share is taken for a moment: an executor that
/// opens the journal meanwhile tries again.
pub fn is_held<R: Files<File = File>, A: Allocator>(
    rt: &R,
    alloc: A,
    dir: &str,
) -> Result<bool, OpenFault>
    ensures { dir.now ≡ [] → IsErr result }
{
    let path = directory_path(alloc, dir)?;
    let directory = File::open(rt, path.as_str()).map_err(OpenFault::directory)?;
    match directory.try_lock_shared() {
        Ok(()) => Ok(false),
        Err(TryLockError::WouldBlock) => Ok(true),
        Err(TryLockError::Error(error)) => Err(OpenFault::directory(error)),
    }
}
