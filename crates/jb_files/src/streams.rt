//! The standard streams that are closed.

use std::fs::{File, OpenOptions};
use std::os::fd::{AsFd, IntoRawFd};

/// The error of a call on a descriptor that is closed: EBADF.
const NOT_OPEN: i32 = 9;

/// Which of the standard streams are closed as the program begins.
#[derive(Clone, Copy, Debug, PartialEq, Eq)]
pub struct ClosedStreams {
    pub input: bool,
    pub output: bool,
    pub error: bool,
}

/// Whether a stream is closed: then its descriptor can't be copied.
fn is_closed<S: AsFd>(stream: &S) -> bool {
    match stream.as_fd().try_clone_to_owned() {
        Ok(_copy) => false,
        Err(error) => error.raw_os_error() == Some(NOT_OPEN),
    }
}

/// Opens /dev/null so as long as the process lives: it gets the lowest descriptor that is free. Without /dev/null it is the root folder, which can't
/// be written either.
fn hold(host: &HostRuntime, how: &OpenOptions) {
    let held = match how.open(host, "/dev/null") {
        Ok(file) => Some(file),
        Err(_) => File::open(host, "/").ok(),
    };
    if let Some(file) = held {
        let _number = file.into_raw_fd();
    }
}

/// Which of the standard streams are closed. Their descriptors are held from now on, so no file that the program opens gets one of them. Reads from
/// such an input and writes to such an output fail, as they do without a descriptor. What is written to such a standard error is dropped.
///
/// A program calls it before it opens anything.
pub fn hold_closed_streams(host: &HostRuntime) -> ClosedStreams {
    let closed = ClosedStreams {
        input: is_closed(&host.stdin()),
        output: is_closed(&host.stdout()),
        error: is_closed(&host.stderr()),
    };
    // The lowest number comes first: it is the one that the next open gets.
    if closed.input {
        hold(host, File::options().write(true));
    }
    if closed.output {
        hold(host, File::options().read(true));
    }
    if closed.error {
        hold(host, File::options().write(true));
    }
    closed
}
