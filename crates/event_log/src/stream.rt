//! Where lines are written.

use crate::line::Line;
use libc::net::{POLLOUT, poll};
use libc::types::pollfd;
use std::os::fd::{AsRawFd, OwnedFd};

/// The standard error, or nothing where that was closed. A write never waits: where it can't be taken now, it is lost.
#[derive(Drop)]
pub struct ErrorStream {
    descriptor: Option<OwnedFd>,
}

impl ErrorStream {
    /// A stream to this open file. It is to be a copy of the standard error that was made before any other file was opened:
    /// else a file that took the number of a closed standard error would be written to.
    pub fn new(descriptor: Option<OwnedFd>) -> ErrorStream {
        ErrorStream { descriptor }
    }

    /// Writes the line and its end, by one call, where they are taken at once. Where nobody reads any more the write fails: the
    /// runtime ignores SIGPIPE.
    pub fn write_line(&self, line: Line) {
        let (Some(descriptor), Ok(text)) = (&self.descriptor, line.finish()) else {
            return;
        };
        let number = descriptor.as_raw_fd();
        if can_take(number) {
            let _ = libc::write(number, text.as_slice());
        }
    }
}

/// Whether a write would not wait.
fn can_take(number: i32) -> bool {
    let mut polled = [pollfd {
        fd: number,
        events: POLLOUT,
        revents: 0,
    }];
    poll(&mut polled, 0) > 0
}
