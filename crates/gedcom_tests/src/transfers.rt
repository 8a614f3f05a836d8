//! Devices over memory that move some bytes a call, and one call of which fails.

use devices::{Counted, Device, TransferError, read_up_to, write_bytes};
use std::alloc::Global;
use std::io;
use std::io::{ErrorKind, Read, Write};

/// A reader or a writer that moves at most `piece` bytes a call. The call `fails_at`, from 1,
/// answers an error of `kind`, and so does each after it.
#[derive(Drop)]
pub(crate) struct Faulty<T> {
    inner: T,
    piece: usize,
    fails_at: u64,
    kind: ErrorKind,
    calls: u64,
}

impl<T> Faulty<T> {
    pub(crate) fn new(inner: T, piece: usize, fails_at: u64) -> Self {
        Faulty {
            inner,
            piece,
            fails_at,
            kind: ErrorKind::Other,
            calls: 0,
        }
    }

    fn call(&mut self) -> io::Result<()> {
        self.calls = self.calls.saturating_add(1);
        if self.calls < self.fails_at {
            Ok(())
        } else {
            Err(io::Error::from(self.kind))
        }
    }
}

impl<R: Read> Read for Faulty<R> {
    fn read(&mut self, buf: &mut [u8]) -> io::Result<usize> {
        self.call()?;
        let most = buf.len().min(self.piece);
        self.inner.read(&mut buf[..most])
    }
}

impl<W: Write> Write for Faulty<W> {
    fn write(&mut self, buf: &[u8]) -> io::Result<usize> {
        self.call()?;
        let most = buf.len().min(self.piece);
        self.inner.write(&buf[..most])
    }

    fn flush(&mut self) -> io::Result<()> {
        self.call()
    }
}

/// No call of a device fails.
pub(crate) const NEVER: u64 = u64::MAX;

/// Five bytes, some of them a call, and a call that fails.
fn five_bytes(piece: usize, fails_at: u64) -> Counted<Faulty<&'static [u8]>> {
    Counted::new(Faulty::new(b"abcde".as_slice(), piece, fails_at))
}

/// Whether the five bytes up to the limit are read as these, and no failure is counted.
fn is_read(alloc: Global, (piece, fails_at): (usize, u64), limit: usize, want: &str) -> bool {
    let mut reader = five_bytes(piece, fails_at);
    let same = match read_up_to(alloc, &mut reader, 0, limit) {
        Ok(all) => all.as_slice() == want.as_bytes(),
        Err(_) => false,
    };
    same && reader.failures() == 0
}

/// Whether reading the five bytes one by one is answered with the failure of that call, counted once.
fn read_fails(alloc: Global, fails_at: u64) -> bool {
    let mut reader = five_bytes(1, fails_at);
    let failed = match read_up_to(alloc, &mut reader, 0, 100) {
        Ok(_all) => false,
        Err(error) => error == TransferError::Failed,
    };
    failed && reader.failures() == 1
}

#[test]
fn each_read_fails_in_turn(rt: HostRuntime) {
    for fails_at in 1..=6u64 {
        assert!(rt; read_fails(rt.alloc(), fails_at), "at {fails_at}");
    }
    assert!(rt; is_read(rt.alloc(), (1, 7), 100, "abcde"));
}

#[test]
fn a_reader_is_read_to_its_end_or_to_the_limit(rt: HostRuntime) {
    for piece in [1, 2, 7] {
        for (limit, want) in [(0, ""), (1, "a"), (4, "abcd"), (5, "abcde"), (6, "abcde")] {
            let read = is_read(rt.alloc(), (piece, NEVER), limit, want);
            assert!(rt; read, "{piece} of {limit}");
        }
    }
}

/// The answer to writing five bytes one by one, where a call fails, and what was written.
fn written(alloc: Global, fails_at: u64) -> (Option<TransferError>, Vec<u8>) {
    let mut out: Vec<u8> = Vec::new(alloc);
    let result = write_bytes(
        &mut Counted::new(Faulty::new(&mut out, 1, fails_at)),
        0,
        b"abcde",
    );
    (result.err(), out)
}

#[test]
fn each_write_fails_in_turn_and_leaves_a_beginning(rt: HostRuntime) {
    let beginnings = ["", "a", "ab", "abc", "abcd"];
    for (before, want) in beginnings.iter().enumerate() {
        let (error, out) = written(rt.alloc(), before as u64 + 1);
        let as_wanted = error == Some(TransferError::Failed) && out.as_slice() == want.as_bytes();
        assert!(rt; as_wanted, "behind {want}");
    }
    let (error, out) = written(rt.alloc(), 6);
    assert!(rt; error.is_none() && out.as_slice() == b"abcde".as_slice());
}

/// How many bytes are read up to the limit, and in how many reads.
fn reads(alloc: Global, bytes: &[u8], limit: usize) -> (usize, u64) {
    let mut reader = Faulty::new(bytes, usize::MAX, NEVER);
    let result = read_up_to(alloc, &mut Counted::new(&mut reader), 0, limit);
    (result.map_or(0, |all| all.len()), reader.calls)
}

#[test]
fn reads_ask_for_65536_bytes_and_stop_at_the_limit(rt: HostRuntime) -> Result<(), io::Error> {
    let mut bytes: Vec<u8> = Vec::new(rt.alloc());
    bytes.resize(131_073, 7)?;
    for (limit, calls) in [(65_536, 1), (65_537, 2), (131_073, 3), (131_074, 4)] {
        let found = reads(rt.alloc(), &bytes, limit);
        assert_eq!(rt; found, (limit.min(131_073), calls), "at {limit}");
    }
    Ok(())
}

/// A device whose third call wants memory.
fn wanting<T>(inner: T) -> Counted<Faulty<T>> {
    let mut faulty = Faulty::new(inner, 1, 3);
    faulty.kind = ErrorKind::OutOfMemory;
    Counted::new(faulty)
}

#[test]
fn want_of_memory_is_not_blamed_on_a_reader(rt: HostRuntime) {
    let result = read_up_to(rt.alloc(), &mut wanting(b"abcde".as_slice()), 0, 100);
    assert!(rt; result.err() == Some(TransferError::OutOfMemory));
}

#[test]
fn want_of_memory_is_not_blamed_on_a_writer(rt: HostRuntime) {
    let result = write_bytes(&mut wanting(Vec::new(rt.alloc())), 0, b"abcde");
    assert!(rt; result.err() == Some(TransferError::OutOfMemory));
}

/// A writer that cannot flush.
#[derive(Drop)]
struct Stuck;

impl Write for Stuck {
    fn write(&mut self, buf: &[u8]) -> io::Result<usize> {
        Ok(buf.len())
    }

    fn flush(&mut self) -> io::Result<()> {
        Err(io::Error::from(ErrorKind::Other))
    }
}

#[test]
fn a_flush_that_fails_is_counted(rt: HostRuntime) {
    let mut counted = Counted::new(Stuck);
    assert!(rt; counted.flush().is_err());
    assert_eq!(rt; counted.failures(), 1);
}

/// A writer that takes no byte, and counts no failure.
#[derive(Drop)]
struct Full;

impl Write for Full {
    fn write(&mut self, _buf: &[u8]) -> io::Result<usize> {
        Ok(0)
    }

    fn flush(&mut self) -> io::Result<()> {
        Ok(())
    }
}

impl Device for Full {
    ghost failed = { λ w. 0 };

    fn failures(&self) -> u64 {
        0
    }
}

#[test]
fn a_writer_that_takes_no_byte_ends_the_call(rt: HostRuntime) {
    let alone = write_bytes(&mut Full, 0, b"abcde");
    assert_eq!(rt; alone.err(), Some(TransferError::OutOfMemory));

    let mut counted = Counted::new(Full);
    let result = write_bytes(&mut counted, 0, b"abcde");
    assert_eq!(rt; result.err(), Some(TransferError::Failed));
    assert_eq!(rt; counted.failures(), 1);
    assert_eq!(rt; write_bytes(&mut counted, 1, b"").err(), None);
}
