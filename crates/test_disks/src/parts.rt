//! The bytes of a part of a journal, disks with given parts, and openings of journals on them.
use disk_model::MemDisk;
use event_wire::encode_state;
use exec_journal::{Journal, JournalFault};
use exec_state::State;
use std::alloc::Global;

/// Part A of a journal in which r1 was registered at moment 0.
pub const FIRST: &[u8] =
    b"\x01OCFJ\x02\0\0\0\0\0\0\0\x01\0\0\0\x1a\0\0\0\0\0\0\0\x01\0\0\0\0\0\0\0\x01\0\0\0\0\0\0\0\0\0\0\x01\0\0\0\
    \x1d\x01\0\0\0\0\0\0\0\0\x02r\x31\x09pacemaker\x05Dummy\0\0";

/// A disk with these parts.
pub fn disk_with(alloc: Global, a: &[u8], b: &[u8]) -> Option<MemDisk> {
    let a = a.to_vec(alloc).ok()?;
    MemDisk::from_parts(alloc, a, b.to_vec(alloc).ok()?).ok()
}

// Opens the journal on a disk: the state that is found, or the fault.
fn state_on(alloc: Global, disk: MemDisk) -> Result<State, JournalFault> {
    match Journal::open(alloc, disk) {
        Ok((_, state)) => Ok(state),
        Err((fault, _)) => Err(fault),
    }
}

/// Opens the journal on a disk: the encoding of the state that is found, or the fault.
pub fn found_on(alloc: Global, disk: MemDisk) -> Result<Vec<u8>, JournalFault> {
    let state = state_on(alloc, disk)?;
    Ok(encode_state(alloc, &state)?)
}
