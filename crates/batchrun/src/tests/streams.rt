//! Arguments, and streams that fail or are interrupted.

use std::alloc::Global;
use std::env::Args;
use std::io;
use std::io::{Read, Write};

/// The arguments of the program with this word.
pub(crate) fn arguments(alloc: Global, word: &str) -> io::Result<Args> {
    let mut args = Vec::new(alloc);
    args.push("batchrun".to_string(alloc)?)?;
    args.push(word.to_string(alloc)?)?;
    Ok(args.into_iter())
}

/// Gives so many bytes at most at each call, and fails at one of them, counted from 1.
#[derive(Drop)]
pub(crate) struct FailingReader<'a> {
    bytes: &'a [u8],
    most: usize,
    calls: usize,
    fails_at: usize,
}

impl<'a> FailingReader<'a> {
    pub(crate) fn new(bytes: &'a [u8], most: usize, fails_at: usize) -> FailingReader<'a> {
        FailingReader {
            bytes,
            most,
            calls: 0,
            fails_at,
        }
    }

    /// How often it was called.
    pub(crate) fn calls(&self) -> usize {
        self.calls
    }
}

impl Read for FailingReader<'_> {
    fn read(&mut self, buf: &mut [u8]) -> io::Result<usize> {
        self.calls = self.calls.saturating_add(1);
        if self.calls == self.fails_at {
            return Err(io::Error::from(io::ErrorKind::Other));
        }
        let len = buf.len().min(self.most);
        self.bytes.read(&mut buf[..len])
    }
}

/// Takes so many bytes at most at each call, and fails at one of them; a flush is a call, too.
#[derive(Drop)]
pub(crate) struct FailingWriter {
    bytes: Vec<u8>,
    most: usize,
    calls: usize,
    fails_at: usize,
}

impl FailingWriter {
    pub(crate) fn new(alloc: Global, most: usize, fails_at: usize) -> FailingWriter {
        FailingWriter {
            bytes: Vec::new(alloc),
            most,
            calls: 0,
            fails_at,
        }
    }

    pub(crate) fn bytes(&self) -> &[u8] {
        &self.bytes
    }

    /// How often it was called.
    pub(crate) fn calls(&self) -> usize {
        self.calls
    }

    fn called(&mut self) -> io::Result<()> {
        self.calls = self.calls.saturating_add(1);
        if self.calls == self.fails_at {
            return Err(io::Error::from(io::ErrorKind::Other));
        }
        Ok(())
    }
}

impl Write for FailingWriter {
    fn write(&mut self, buf: &[u8]) -> io::Result<usize> {
        self.called()?;
        let len = buf.len().min(self.most);
        self.bytes.extend_from_slice(&buf[..len])?;
        Ok(len)
    }

    fn flush(&mut self) -> io::Result<()> {
        self.called()
    }
}

/// Is interrupted at each call that follows none or one that was not.
#[derive(Drop)]
pub(crate) struct Interrupted<S> {
    stream: S,
    is_next: bool,
}

impl<S> Interrupted<S> {
    pub(crate) fn new(stream: S) -> Interrupted<S> {
        Interrupted {
            stream,
            is_next: true,
        }
    }

    pub(crate) fn stream(&self) -> &S {
        &self.stream
    }
}

impl<R: Read> Read for Interrupted<R> {
    fn read(&mut self, buf: &mut [u8]) -> io::Result<usize> {
        if self.is_next {
            self.is_next = false;
            return Err(io::Error::from(io::ErrorKind::Interrupted));
        }
        self.is_next = true;
        self.stream.read(buf)
    }
}

impl<W: Write> Write for Interrupted<W> {
    fn write(&mut self, buf: &[u8]) -> io::Result<usize> {
        if self.is_next {
            self.is_next = false;
            return Err(io::Error::from(io::ErrorKind::Interrupted));
        }
        self.is_next = true;
        self.stream.write(buf)
    }

    fn flush(&mut self) -> io::Result<()> {
        self.stream.flush()
    }
}
