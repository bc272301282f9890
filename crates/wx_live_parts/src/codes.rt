// Codes of faults.
use std::alloc::AllocError;
use std::io::{Error, ErrorKind};

/// It isn't permitted.
pub const NOT_PERMITTED: u32 = 1;

/// There is no such child.
pub const NO_CHILD: u32 = 10;

/// What was asked for makes no sense.
pub const SENSELESS: u32 = 22;

/// A text isn't UTF-8.
pub const NO_TEXT: u32 = 84;

/// What was asked for isn't done here.
pub const NOT_DONE: u32 = 95;

/// An input or output failed.
const FAILED: u32 = 5;

/// There is no memory.
const NO_MEMORY: u32 = 12;

/// The system's code of an error, or the one that it has for errors of this kind.
pub fn code_of(error: &Error) -> u32 {
    match error.raw_os_error() {
        Some(code) => code.unsigned_abs(),
        None => code_of_kind(error.kind()),
    }
}

fn code_of_kind(kind: ErrorKind) -> u32 {
    match kind {
        ErrorKind::OutOfMemory => NO_MEMORY,
        ErrorKind::InvalidInput => SENSELESS,
        ErrorKind::InvalidFilename => NO_TEXT,
        _ => FAILED,
    }
}

/// The code where there is no memory.
pub fn code_of_memory(_error: AllocError) -> u32 {
    NO_MEMORY
}
