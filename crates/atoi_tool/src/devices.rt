//! Readers, writers and a stream of standard error that fail when a test wants them to.

use std::alloc::Global;
use std::cell::{Cell, RefCell};
use std::fmt::Display;
use std::io;
use std::io::{ErrorKind, Read, Write};

/// A reader of `rest` that returns at most `part` bytes per call. Call number `failing`, counted
/// from 1, fails with `error`; 0 is no call.
#[derive(Drop)]
pub(crate) struct FailingReader<'a> {
    pub(crate) rest: &'a [u8],
    pub(crate) part: usize,
    pub(crate) failing: usize,
    pub(crate) error: ErrorKind,
    pub(crate) reads: usize,
}

impl<'a> FailingReader<'a> {
    pub(crate) fn new(rest: &'a [u8], part: usize) -> FailingReader<'a> {
        FailingReader {
            rest,
            part,
            failing: 0,
            error: ErrorKind::Other,
            reads: 0,
        }
    }
}

impl Read for FailingReader<'_> {
    fn read(&mut self, space: &mut [u8]) -> io::Result<usize> {
        self.reads = self.reads.saturating_add(1);
        if self.failing == 1 {
            self.failing = 0;
            return Err(io::Error::from(self.error));
        }
        self.failing = self.failing.saturating_sub(1);
        let len = self.part.min(self.rest.len()).min(space.len());
        space[..len].copy_from_slice(&self.rest[..len]);
        self.rest = &self.rest[len..];
        Ok(len)
    }
}

/// What a writer does when it has no room.
#[derive(Clone, Copy)]
pub(crate) enum Full {
    Fails,
    IsInterrupted,
    TakesNone,
}

/// A writer that accepts at most `part` bytes per call, and `room` bytes until it is full. A call on
/// a full writer accepts nothing, and then there is room for `room_then` more bytes.
#[derive(Drop)]
pub(crate) struct LimitedWriter {
    pub(crate) contents: Vec<u8>,
    pub(crate) part: usize,
    pub(crate) room: usize,
    pub(crate) room_then: usize,
    pub(crate) full: Full,
    pub(crate) writes: usize,
    pub(crate) flushes: usize,
}

impl LimitedWriter {
    /// Returns a writer that accepts at most five bytes per call and stays full.
    pub(crate) fn new(alloc: Global, room: usize, full: Full) -> LimitedWriter {
        LimitedWriter {
            contents: Vec::new(alloc),
            part: 5,
            room,
            room_then: 0,
            full,
            writes: 0,
            flushes: 0,
        }
    }
}

impl Write for LimitedWriter {
    fn write(&mut self, bytes: &[u8]) -> io::Result<usize> {
        self.writes = self.writes.saturating_add(1);
        let len = bytes.len().min(self.part).min(self.room);
        if len == 0 {
            self.room = self.room_then;
            return match self.full {
                Full::Fails => Err(io::Error::from(ErrorKind::BrokenPipe)),
                Full::IsInterrupted => Err(io::Error::from(ErrorKind::Interrupted)),
                Full::TakesNone => Ok(0),
            };
        }
        self.contents.extend_from_slice(&bytes[..len])?;
        self.room -= len;
        Ok(len)
    }

    fn flush(&mut self) -> io::Result<()> {
        self.flushes = self.flushes.saturating_add(1);
        Ok(())
    }
}

/// A stream of standard error whose calls fail until call number `first`, counted from 1.
#[derive(Drop)]
pub(crate) struct Errors {
    pub(crate) reported: RefCell<Vec<u8>>,
    pub(crate) calls: Cell<usize>,
    pub(crate) first: usize,
}

impl Errors {
    pub(crate) fn new(alloc: Global, first: usize) -> Errors {
        Errors {
            reported: RefCell::new(Vec::new(alloc)),
            calls: Cell::new(0),
            first,
        }
    }
}

impl Eprint for Errors {
    fn eprint<D: Display + Drop>(&self, value: D) -> io::Result<()> {
        self.calls.set(self.calls.get().saturating_add(1));
        if self.calls.get() < self.first {
            return Err(io::Error::from(ErrorKind::BrokenPipe));
        }
        match self.reported.try_borrow_mut() {
            Ok(mut reported) => write!(reported, "{value}"),
            Err(_) => Err(io::Error::from(ErrorKind::WouldBlock)),
        }
    }

    fn eprintln<D: Display + Drop>(&self, value: D) -> io::Result<()> {
        self.eprint(format_args!("{value}\n"))
    }
}
