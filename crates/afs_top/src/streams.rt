//! The standard streams of a process that was started without some of them.

use std::fs::{File, OpenOptions};
use std::os::fd::{AsRawFd, RawFd};
use std::rt::Files;

/// Opened by everybody, and always there.
const NULL_DEVICE: &str = "/dev/null";

/// The descriptor of the input, and the last one of the output and the errors.
const INPUT: RawFd = 0;

const LAST_OUTPUT: RawFd = 2;

/// The null device in the place of each standard stream that is closed. Else the next file that is opened would take that place:
/// a disk would then be read as the input, or written over with the text. The device is opened so that a read of the input, or a
/// write of the output, fails as it would on a closed stream.
#[derive(Drop)]
pub struct Held {
    _input: Option<File>,
    _output: Option<File>,
    _errors: Option<File>,
}

impl Held {
    /// The system gives each file the lowest descriptor that is free, so the places are taken in this order.
    pub fn new<R: Files<File = File>>(files: &R) -> Held {
        let input = taken(files, OpenOptions::new().write(true), INPUT);
        let output = taken(files, OpenOptions::new().read(true), LAST_OUTPUT);
        let errors = taken(files, OpenOptions::new().read(true), LAST_OUTPUT);
        Held {
            _input: input,
            _output: output,
            _errors: errors,
        }
    }
}

/// The null device, where it took a place up to this one.
fn taken<R: Files<File = File>>(files: &R, how: &OpenOptions, last: RawFd) -> Option<File> {
    match how.open(files, NULL_DEVICE) {
        Ok(file) if file.as_raw_fd() <= last => Some(file),
        Ok(_) | Err(_) => None,
    }
}
