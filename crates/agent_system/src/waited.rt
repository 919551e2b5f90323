//! Streams whose bytes can be waited for.
use libc::net::{POLLIN, poll};
use libc::types::pollfd;
use std::os::fd::AsRawFd;
use std::process::ChildStdout;

/// A stream whose bytes can be waited for.
pub trait Waited {
    /// Waits for at most this many milliseconds. Returns whether a read would not block then: there are bytes, or the stream has ended.
    fn is_ready(&self, millis: u32) -> bool;
}

impl Waited for ChildStdout {
    fn is_ready(&self, millis: u32) -> bool {
        let mut asked = [pollfd {
            fd: self.as_raw_fd(),
            events: POLLIN,
            revents: 0,
        }];
        // a signal ends the wait early; the stream then counts as not ready
        poll(&mut asked, i32::try_from(millis).unwrap_or(i32::MAX)) > 0
    }
}
