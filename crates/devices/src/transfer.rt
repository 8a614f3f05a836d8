//! The bytes of a reader, and bytes to a writer.

ghost use Rattle.std.specs.Prelude.{◌≡◌, ◌≤◌, ◌<◌, Err, length, take, OnOk, OnErr, IfOk, IfSome};
ghost use Rattle.std.specs.Io.KnownBytes.{Appends, Consumes, Keeps};
ghost use Rattle.devices.specs.Devices.{Rose, AppendsBeginning, Gave};

use crate::device::{Device, has_risen};
use std::alloc::Global;
use std::io;
use std::io::{ErrorKind, Read, Write};

/// Why bytes were not moved.
#[derive(Clone, Copy, Debug, PartialEq, Eq)]
pub enum TransferError {
    /// A growth was refused.
    OutOfMemory,
    /// The device failed in this call, by its count.
    Failed,
}

/// The most bytes that one read asks for: what a pipe of Linux holds.
const PIECE: usize = 65_536;

/// What an error of a device means, whose failures have gone from `before` to `after`.
///
/// A device that answers an error and does not count it breaks the rule of `Device`: it is not
/// blamed, and the answer is `OutOfMemory`.
fn meaning(error: io::Error, before: u64, after: u64) -> TransferError
    ensures { result ≡ TransferError.Failed → Rose before after }
{
    if error.kind() != ErrorKind::OutOfMemory && has_risen(before, after) {
        TransferError::Failed
    } else {
        TransferError::OutOfMemory
    }
}

/// The bytes of a reader, at most `limit` of them: it is read to its end or to the limit, in
/// pieces of at most 65,536, and no further.
///
/// `before` is the count of failures at the start of the call that asks, and `Failed` says that it
/// has risen since. `OutOfMemory`: memory was refused, here or to the reader, or the reader did not
/// count its error. An interrupted read is an error like any other. At an error what was read is lost.
pub fn read_up_to<R: Read + Device>(
    alloc: Global,
    reader: &mut R,
    before: u64,
    limit: usize,
) -> Result<Vec<u8>, TransferError>
    ensures bytes { IfOk result (λ all. IfSome (R.remaining reader.old)
        (λ known. all.items ≡ take limit known)) }
    ensures bound { IfOk result (λ all. length all.items ≤ limit) }
    ensures rest { IfOk result (λ all. Consumes (R.remaining reader.old)
        (R.remaining reader.new) all.items) }
    ensures failed { result ≡ Err TransferError.Failed → Rose before (R.failed reader.new) }
{
    let mut all: Vec<u8> = Vec::new(alloc);
    let mut piece = [0u8; PIECE];
    'pieces: while all.len() < limit {
        let most = PIECE.min(limit - all.len());
        match read_piece(reader, before, &mut piece[..most], &mut all) {
            Ok(0) => return Ok(all),
            Ok(_) => {}
            Err(e) => return Err(e),
        }
    }
    Ok(all)
}

/// Adds one read to the bytes that are there: how many it gave, none only at the end.
fn read_piece<R: Read + Device>(
    reader: &mut R,
    before: u64,
    room: &mut [u8],
    all: &mut Vec<u8>,
) -> Result<usize, TransferError>
    requires { 0 < length room.old }
    ensures gave { IfOk result (Gave (R.remaining reader.old) (R.remaining reader.new)
        all.old.items all.new.items) }
    ensures bound { IfOk result (λ n. n ≤ length room.old) }
    ensures failed { result ≡ Err TransferError.Failed → Rose before (R.failed reader.new) }
{
    match reader.read(room) {
        Ok(n) => match all.extend_from_slice(&room[..n]) {
            Ok(()) => Ok(n),
            Err(_) => Err(TransferError::OutOfMemory),
        },
        Err(e) => Err(meaning(e, before, reader.failures())),
    }
}

/// Writes all of the bytes. At an error the writer has taken a beginning of them.
///
/// `before` is the count of failures at the start of the call that asks, and `Failed` says that it
/// has risen since. A writer that takes no byte and counts no failure, as `Counted` would, is
/// answered with `OutOfMemory`: going on might never end. An interrupted write is an error like
/// any other.
pub fn write_bytes<W: Write + Device>(
    writer: &mut W,
    before: u64,
    bytes: &[u8],
) -> Result<(), TransferError>
    ensures ok { OnOk result (Appends (W.contents writer.old) (W.contents writer.new) bytes.now) }
    ensures err { OnErr result
        (AppendsBeginning (W.contents writer.old) (W.contents writer.new) bytes.now) }
    ensures failed { result ≡ Err TransferError.Failed → Rose before (W.failed writer.new) }
{
    let mut at = 0usize;
    'pieces: while at < bytes.len() {
        match writer.write(&bytes[at..]) {
            Ok(0) => return Err(TransferError::OutOfMemory),
            Ok(n) => at += n,
            Err(e) => return Err(meaning(e, before, writer.failures())),
        }
    }
    Ok(())
}

/// Writes all of the bytes, and flushes them. At an error the writer has taken a beginning of them.
///
/// `before` is the count of failures at the start of the call that asks, and `Failed` says that it has
/// risen since.
pub fn write_flushed<W: Write + Device>(
    writer: &mut W,
    before: u64,
    bytes: &[u8],
) -> Result<(), TransferError>
    ensures ok { OnOk result (Appends (W.contents writer.old) (W.contents writer.new) bytes.now) }
    ensures err { OnErr result
        (AppendsBeginning (W.contents writer.old) (W.contents writer.new) bytes.now) }
    ensures failed { result ≡ Err TransferError.Failed → Rose before (W.failed writer.new) }
{
    match write_bytes(writer, before, bytes) {
        Ok(()) => flush(writer, before),
        Err(e) => Err(e),
    }
}

fn flush<W: Write + Device>(writer: &mut W, before: u64) -> Result<(), TransferError>
    ensures kept { Keeps (W.contents writer.old) (W.contents writer.new) }
    ensures failed { result ≡ Err TransferError.Failed → Rose before (W.failed writer.new) }
{
    match writer.flush() {
        Ok(()) => Ok(()),
        Err(e) => Err(meaning(e, before, writer.failures())),
    }
}
