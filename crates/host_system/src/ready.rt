//! Whether a call on a descriptor would block.
use libc::net::{POLLIN, POLLOUT, poll};
use libc::types::pollfd;

// The events that are met at a descriptor now, or within this many milliseconds. POSIX, poll.
fn met(descriptor: i32, events: i16, millis: u32) -> i16 {
    let mut asked = [pollfd {
        fd: descriptor,
        events,
        revents: 0,
    }];
    // a signal ends the wait early; no event then counts as met
    match poll(&mut asked, i32::try_from(millis).unwrap_or(i32::MAX)) {
        1.. => asked[0].revents,
        _ => 0,
    }
}

/// Whether a write to a descriptor would not block now.
pub fn is_writable(descriptor: i32) -> bool {
    met(descriptor, POLLOUT, 0) & POLLOUT != 0
}

/// Whether a read of a descriptor would not block, now or within this many milliseconds: there are bytes, or they have ended.
pub fn is_readable(descriptor: i32, millis: u32) -> bool {
    met(descriptor, POLLIN, millis) != 0
}
