//! Readers and writers that count their failures.

ghost use Rattle.std.specs.Prelude.{◌≡◌, ◌↔◌, ℕ, [], Ok, IsTrue, OnOk, OnErr};
ghost use Rattle.std.specs.Io.{ReadsAtMost, WritesAtMost};
ghost use Rattle.std.specs.Io.KnownBytes.{Keeps, ReadConsumes, WriteAppends};
ghost use Rattle.devices.specs.Devices.{Rose};

use std::io;
use std::io::{ErrorKind, Read, Write};

/// What is read or written, with a count of its failures: each read or write that answers an
/// error is one.
///
/// `Read` and `Write` say nothing of this count. So a call that blames its device takes the count
/// before the first read or write, and looks afterwards whether it has risen.
pub trait Device {
    /// How many reads and writes failed.
    ghost failed: { Self → ℕ };

    /// How many reads and writes failed. It stops at `u64::MAX`, which counts as risen.
    fn failures(&self) -> u64
        ensures { result ≡ failed self.now };
}

impl<D: Device> Device for &mut D {
    ghost failed = { λ d. D.failed d.now };

    fn failures(&self) -> u64 {
        let inner: &D = &**self;
        inner.failures()
    }
}

/// Whether a count of failures has risen from `before` to `after`.
pub fn has_risen(before: u64, after: u64) -> bool
    ensures { IsTrue result ↔ Rose before after }
{
    before < after || after == u64::MAX
}

/// Any reader or writer, with the count of its failures.
///
/// A writer that takes no byte of those that it was given has failed too: without that a writer
/// that never takes one could not be distinguished from one that is slow.
#[derive(Drop)]
pub struct Counted<T> {
    inner: T,
    failures: u64,
}

impl<T> Counted<T> {
    ghost use Rattle.devices.specs.Counts.{inner_of, failures_of};

    pub fn new(inner: T) -> Self
        ensures inner { inner_of result ≡ inner }
        ensures failures { failures_of result ≡ 0 }
    {
        Counted { inner, failures: 0 }
    }

    /// Counts a failure.
    fn count(&mut self)
        ensures inner { inner_of self.new ≡ inner_of self.old }
        ensures failures { Rose (failures_of self.old) (failures_of self.new) }
    {
        self.failures = self.failures.saturating_add(1);
    }
}

impl<T> Device for Counted<T> {
    ghost failed = { λ c. c.failures };

    fn failures(&self) -> u64 {
        self.failures
    }
}

impl<R: Read> Read for Counted<R> {
    ghost use Rattle.devices.specs.Counts.{inner_of, failures_of};

    ghost remaining = { λ c. R.remaining c.inner };

    fn read(&mut self, buf: &mut [u8]) -> io::Result<usize>
        ensures bound { ReadsAtMost result buf.new }
        ensures bytes { ReadConsumes (R.remaining (inner_of self.old))
            (R.remaining (inner_of self.new)) result buf.new }
        ensures ok { OnOk result (failures_of self.new ≡ failures_of self.old) }
        ensures err { OnErr result (Rose (failures_of self.old) (failures_of self.new)) }
    {
        match self.inner.read(buf) {
            Ok(n) => Ok(n),
            Err(e) => {
                self.count();
                Err(e)
            }
        }
    }
}

impl<W: Write> Write for Counted<W> {
    ghost use Rattle.devices.specs.Counts.{inner_of, failures_of};

    ghost contents = { λ c. W.contents c.inner };

    fn write(&mut self, buf: &[u8]) -> io::Result<usize>
        ensures bound { WritesAtMost result buf.now }
        ensures bytes { WriteAppends (W.contents (inner_of self.old))
            (W.contents (inner_of self.new)) result buf.now }
        ensures some { result ≡ Ok 0 → buf.now ≡ [] }
        ensures ok { OnOk result (failures_of self.new ≡ failures_of self.old) }
        ensures err { OnErr result (Rose (failures_of self.old) (failures_of self.new)) }
    {
        match self.inner.write(buf) {
            Ok(n) => {
                if n == 0 && !buf.is_empty() {
                    self.count();
                    return Err(io::Error::from(ErrorKind::WriteZero));
                }
                Ok(n)
            }
            Err(e) => {
                self.count();
                Err(e)
            }
        }
    }

    fn flush(&mut self) -> io::Result<()>
        ensures bytes { Keeps (W.contents (inner_of self.old)) (W.contents (inner_of self.new)) }
        ensures ok { OnOk result (failures_of self.new ≡ failures_of self.old) }
        ensures err { OnErr result (Rose (failures_of self.old) (failures_of self.new)) }
    {
        match self.inner.flush() {
            Ok(()) => Ok(()),
            Err(e) => {
                self.count();
                Err(e)
            }
        }
    }
}
