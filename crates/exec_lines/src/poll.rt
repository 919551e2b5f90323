//! Polls descriptors. POSIX, poll.
use libc::net::{POLLERR, POLLHUP, POLLIN, POLLNVAL, POLLOUT, poll};
use libc::types::pollfd;

// The greatest wait of one call, in milliseconds.
const LONGEST: u32 = 60_000;

// Waits for these events of a descriptor for at most this many milliseconds, and returns its events; `None` after the timeout.
fn found(descriptor: i32, events: i16, millis: u32) -> Option<i16> {
    let mut asked = [pollfd {
        fd: descriptor,
        events,
        revents: 0,
    }];
    match poll(&mut asked, millis.min(LONGEST) as i32) {
        0 => None,
        -1 => Some(events),
        _ => Some(asked[0].revents),
    }
}

/// Waits for at most this many milliseconds, and at most a minute, until a read of the descriptor would not block. A signal
/// counts as ready, and so do a fault and the end of the input, which the read reports.
pub fn is_readable(descriptor: i32, millis: u32) -> bool {
    found(descriptor, POLLIN, millis).is_some()
}

/// The same of a write.
pub fn is_writable(descriptor: i32, millis: u32) -> bool {
    found(descriptor, POLLOUT, millis).is_some()
}

/// Whether the descriptor has no reader any more: the other end of a pipe, a socket or a terminal is closed, or there is no such
/// descriptor.
pub fn is_hung_up(descriptor: i32) -> bool {
    match found(descriptor, 0, 0) {
        Some(events) => events & (POLLERR | POLLHUP | POLLNVAL) != 0,
        None => false,
    }
}
