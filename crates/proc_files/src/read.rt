//! Reading the files of processes.
ghost use Rattle.std.specs.Prelude.{◌≡◌, ◌≤◌, IfOk, length};

use std::alloc::{Alloc, AllocError};
use std::fs::{self, File};
use std::io::{self, Read};
use std::rt::Files;

/// Reads the first bytes of a file into the buffer, as many as fit, and returns their number.
pub fn read_head<R: Files>(files: &R, path: &str, room: &mut [u8]) -> io::Result<usize>
    ensures room { length room.new ≡ length room.old }
    ensures within { IfOk result (λ n. n ≤ length room.old) }
{
    let mut file = File::open(files, path)?;
    let mut read = 0;
    while read < room.len() {
        match file.read(&mut room[read..])? {
            0 => break,
            more => read += more,
        }
    }
    Ok(read)
}

/// The numbers of the processes that a directory such as `/proc` lists.
pub fn pids<R: Files + Alloc + Clone + Drop>(rt: &R, path: &str) -> io::Result<Vec<u32, R::A>> {
    let mut found = Vec::new(rt.alloc());
    for entry in fs::read_dir(rt, path)? {
        if let Ok(pid) = entry?.file_name().parse() {
            found.push(pid).map_err(AllocError::from)?;
        }
    }
    Ok(found)
}
