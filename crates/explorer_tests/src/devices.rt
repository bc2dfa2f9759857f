//! Readers and writers that move few bytes at a call, and fail after some calls.

use std::alloc::Global;
use std::io::{self, ErrorKind, Read, Write};

/// How many bytes a call moves at most, how many calls don't fail, and why those behind do.
#[derive(Clone, Copy, Drop)]
pub(crate) struct Calls {
    pub(crate) at_once: usize,
    pub(crate) left: u32,
    pub(crate) failing: ErrorKind,
}

/// No call fails, and each moves as much as it can.
pub(crate) const SOUND: Calls = Calls {
    at_once: usize::MAX,
    left: u32::MAX,
    failing: ErrorKind::Other,
};

/// Each call fails.
pub(crate) const BROKEN: Calls = Calls { left: 0, ..SOUND };

/// Each call finds that nobody is at the other end.
pub(crate) const CLOSED: Calls = Calls {
    failing: ErrorKind::BrokenPipe,
    ..BROKEN
};

/// A reader of these bytes.
#[derive(Drop)]
pub(crate) struct Giving<'t> {
    rest: &'t [u8],
    calls: Calls,
}

impl<'t> Giving<'t> {
    pub(crate) fn new(rest: &'t [u8], calls: Calls) -> Giving<'t> {
        Giving { rest, calls }
    }
}

impl Read for Giving<'_> {
    fn read(&mut self, buffer: &mut [u8]) -> io::Result<usize> {
        if self.calls.left == 0 {
            return Err(io::Error::from(self.calls.failing));
        }
        self.calls.left -= 1;
        let count = self.calls.at_once.min(buffer.len());
        self.rest.read(&mut buffer[..count])
    }
}

/// How many bytes a writer takes without asking for memory.
const ROOM: usize = 512;

/// A writer that keeps what it took.
#[derive(Drop)]
pub(crate) struct Taking {
    taken: Vec<u8>,
    calls: Calls,
}

impl Taking {
    pub(crate) fn new(alloc: Global, calls: Calls) -> Taking {
        let taken = match Vec::with_capacity(alloc, ROOM) {
            Ok(taken) => taken,
            Err(_) => Vec::new(alloc),
        };
        Taking { taken, calls }
    }

    pub(crate) fn into_taken(self) -> Vec<u8> {
        let Taking { taken, .. } = self;
        taken
    }
}

impl Write for Taking {
    fn write(&mut self, bytes: &[u8]) -> io::Result<usize> {
        if self.calls.left == 0 {
            return Err(io::Error::from(self.calls.failing));
        }
        self.calls.left -= 1;
        let count = self.calls.at_once.min(bytes.len());
        self.taken.write(&bytes[..count])
    }

    fn flush(&mut self) -> io::Result<()> {
        Ok(())
    }
}
