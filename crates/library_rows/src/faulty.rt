//! Devices over memory that move some bytes a call, and one call of which fails.

use std::io;
use std::io::{ErrorKind, Read, Write};

/// A reader or a writer that moves at most `piece` bytes a call. The call `fails_at`, from 1, answers an error, and so
/// does each after it.
#[derive(Drop)]
pub(crate) struct Faulty<T> {
    inner: T,
    piece: usize,
    fails_at: u64,
    calls: u64,
}

impl<T> Faulty<T> {
    pub(crate) fn new(inner: T, piece: usize, fails_at: u64) -> Self {
        Faulty {
            inner,
            piece,
            fails_at,
            calls: 0,
        }
    }

    fn call(&mut self) -> io::Result<()> {
        self.calls = self.calls.saturating_add(1);
        if self.calls < self.fails_at {
            Ok(())
        } else {
            Err(io::Error::from(ErrorKind::Other))
        }
    }
}

impl<R: Read> Read for Faulty<R> {
    fn read(&mut self, buf: &mut [u8]) -> io::Result<usize> {
        self.call()?;
        let most = buf.len().min(self.piece);
        self.inner.read(&mut buf[..most])
    }
}

impl<W: Write> Write for Faulty<W> {
    fn write(&mut self, buf: &[u8]) -> io::Result<usize> {
        self.call()?;
        let most = buf.len().min(self.piece);
        self.inner.write(&buf[..most])
    }

    fn flush(&mut self) -> io::Result<()> {
        self.call()
    }
}
