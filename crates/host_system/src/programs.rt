//! Programs that may be run.
use libc::{PATH_MAX, X_OK, access};
use std::alloc::Allocator;
use std::io::{self, ErrorKind};
use std::{env, fs};

// Whether this process may run the file at this path. POSIX, access.
fn may_run(path: &str) -> bool {
    let bytes = path.as_bytes();
    if bytes.len() >= PATH_MAX {
        return false;
    }
    let mut text = [0u8; PATH_MAX];
    text[..bytes.len()].copy_from_slice(bytes);
    text[PATH_MAX - 1] = 0;
    unsafe { access(&text, X_OK) == 0 }
}

/// Whether the file at this path may be run; otherwise the error that its execution meets, as `NotFound` or `PermissionDenied`.
/// What its first line names is not looked at. POSIX, execve.
pub fn check_program(rt: &HostRuntime, path: &str) -> io::Result<()> {
    if !fs::metadata(rt, path)?.is_file() || !may_run(path) {
        return Err(io::Error::from(ErrorKind::PermissionDenied));
    }
    Ok(())
}

/// The path of this program. It fails where `/proc` cannot be read.
pub fn own_path<A: Allocator + Copy>(rt: &HostRuntime, alloc: A) -> io::Result<String<A>> {
    let path = env::current_exe(rt)?;
    Ok(String::from_str(alloc, path.as_str())?)
}
