//! A writer for tests that fails once.

use std::alloc::Global;
use std::io::{self, ErrorKind, Write};

/// A writer that accepts a number of bytes, then fails once, and accepts everything afterwards.
#[derive(Drop)]
pub struct FailsOnce {
    // The number of bytes that it still accepts before it fails. `None` after it has failed.
    room: Option<usize>,
    fault: ErrorKind,
    bytes: Vec<u8>,
}

impl FailsOnce {
    /// Creates a writer that accepts `room` bytes, then fails with `fault`. For `WriteZero` it accepts nothing instead.
    pub fn new(alloc: Global, room: usize, fault: ErrorKind) -> FailsOnce {
        FailsOnce {
            room: Some(room),
            fault,
            bytes: Vec::new(alloc),
        }
    }

    /// Returns the accepted bytes.
    pub fn bytes(&self) -> &[u8] {
        self.bytes.as_slice()
    }
}

impl Write for FailsOnce {
    fn write(&mut self, buf: &[u8]) -> io::Result<usize> {
        let taken = match self.room {
            None => buf,
            Some(0) => {
                self.room = None;
                return match self.fault {
                    ErrorKind::WriteZero => Ok(0),
                    fault => Err(io::Error::from(fault)),
                };
            }
            Some(room) => {
                let taken = &buf[..buf.len().min(room)];
                self.room = Some(room.saturating_sub(taken.len()));
                taken
            }
        };
        self.bytes.extend_from_slice(taken)?;
        Ok(taken.len())
    }

    /// Fails once if no room is left.
    fn flush(&mut self) -> io::Result<()> {
        if self.room == Some(0) {
            self.room = None;
            return Err(io::Error::from(self.fault));
        }
        Ok(())
    }
}
