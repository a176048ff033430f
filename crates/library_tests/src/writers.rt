//! A writer that takes little or fails.

use std::alloc::Global;
use std::io::{self, ErrorKind, Write};

/// Takes at most `most` bytes at a time, and fails once `left` writes are over, and when it is flushed, if it
/// does not flush.
#[derive(Drop)]
pub(crate) struct SlowWriter {
    pub(crate) taken: Vec<u8>,
    pub(crate) flushes: bool,
    most: usize,
    left: usize,
    fault: ErrorKind,
}

impl SlowWriter {
    pub(crate) fn new(alloc: Global, most: usize, left: usize, fault: ErrorKind) -> SlowWriter {
        SlowWriter {
            taken: Vec::new(alloc),
            flushes: true,
            most,
            left,
            fault,
        }
    }
}

impl Write for SlowWriter {
    fn write(&mut self, bytes: &[u8]) -> io::Result<usize> {
        if self.left == 0 {
            return Err(io::Error::from(self.fault));
        }
        self.left -= 1;
        let count = bytes.len().min(self.most);
        self.taken.extend_from_slice(&bytes[..count])?;
        Ok(count)
    }

    fn flush(&mut self) -> io::Result<()> {
        if self.flushes {
            Ok(())
        } else {
            Err(io::Error::from(self.fault))
        }
    }
}
