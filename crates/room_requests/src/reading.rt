//! Bytes read as far as they show what they begin with.

ghost use Rattle.std.specs.Prelude.{◌≡◌, ◌≤◌, ◌<◌, Err, take, length, All};
ghost use Rattle.std.specs.Prelude.{IfOk, IfSome, MatchOption, IsUtf8, count_by, map, string_bytes};
ghost use Rattle.std.specs.Io.KnownBytes.{Consumes};
ghost use Rattle.devices.specs.Devices.{Rose};
ghost use Rattle.httparse.specs.Spans.{IsHeaderWithin, IsRequestOf, IsRequestWithin, header_bytes};
ghost use Rattle.room_requests.specs.Heads.{Begins, first_host as host_of};
ghost use Rattle.room_requests.specs.Reading.{
  Shows,
  IsJudged,
  IsCopied,
  IsUndecided,
  TakesHead,
  before_last,
  is_host_at,
};
ghost use Rattle.room_requests.specs.declared.reading.Found.TheVariants as found;

use crate::head::{Head, HeadRead};
use devices::{Device, TransferError, has_risen};
use httparse::spans::{EMPTY_HEADER_SPAN, HeaderSpan, RequestSpans, parse_request};
use httparse::{Error, Status};
use std::alloc::{AllocError, Global};
use std::io;
use std::io::{ErrorKind, Read};

/// The most bytes of a head, the empty lines before it counted.
pub(crate) const HEAD_LIMIT: usize = 8_192;

/// The most header lines of a head.
pub(crate) const LINE_LIMIT: usize = 64;

/// What the bytes that were read so far show.
#[derive(Clone, Copy, Debug, PartialEq, Eq)]
pub(crate) enum Found {
    Nothing,
    Malformed,
    TooLarge,
    Whole(RequestSpans),
}

/// Reads as far as the bytes show what they begin with, and at most 8,192 of them. It reads a byte at a time, so that
/// it takes none after the one that decides: a reader of sockets is to be buffered.
///
/// `before` is the count of failures at the start of the call that asks, and `Failed` says that it has risen
/// since. `OutOfMemory`: memory was refused, here or to the reader, or the reader did not count its error.
pub fn read_head<R: Read + Device>(
    alloc: Global,
    reader: &mut R,
    before: u64,
) -> Result<HeadRead, TransferError>
    ensures begins { IfOk result (λ shown. IfSome (R.remaining reader.old) (λ input. Begins input shown)) }
    ensures taken { IfOk result (λ _. TakesHead (R.remaining reader.old) (R.remaining reader.new)) }
    ensures failed { result ≡ Err TransferError.Failed → Rose before (R.failed reader.new) }
{
    let mut buffer = [0u8; HEAD_LIMIT];
    let mut lines = [EMPTY_HEADER_SPAN; LINE_LIMIT];
    let (filled, found) = match find_head(reader, before, &mut buffer, &mut lines) {
        Ok(found) => found,
        Err(e) => return Err(e),
    };
    match found {
        Found::Nothing => Ok(HeadRead::Nothing),
        Found::Malformed => Ok(HeadRead::Malformed),
        Found::TooLarge => Ok(HeadRead::TooLarge),
        Found::Whole(spans) => match copy_head(alloc, &buffer[..filled], &lines, spans) {
            Ok(head) => Ok(HeadRead::Whole(head)),
            Err(_) => Err(TransferError::OutOfMemory),
        },
    }
}

/// Fills a buffer from its front until the bytes there show what they are: how many there are, and what.
fn find_head<R: Read + Device>(
    reader: &mut R,
    before: u64,
    buffer: &mut [u8],
    lines: &mut [HeaderSpan],
) -> Result<(usize, Found), TransferError>
    requires room { length buffer.old ≡ 8192 }
    requires lines { length lines.old ≡ 64 }
    ensures within { IfOk result (λ r. r.0 ≤ length buffer.new) }
    ensures front { IfOk result (λ r. Consumes (R.remaining reader.old)
        (R.remaining reader.new) (take r.0 buffer.new)) }
    ensures undecided { IfOk result (λ r. IsUndecided (before_last (take r.0 buffer.new))) }
    ensures shows { IfOk result (λ r. Shows (take r.0 buffer.new) (R.remaining reader.new)
        lines.new r.1) }
    ensures failed { result ≡ Err TransferError.Failed → Rose before (R.failed reader.new) }
{
    let mut filled = 0usize;
    'bytes: while filled < HEAD_LIMIT {
        let n = match reader.read(&mut buffer[filled..filled + 1]) {
            Ok(n) => n,
            Err(e) => return Err(meaning(e, before, reader.failures())),
        };
        if n == 0 {
            return Ok((filled, at_end(filled)));
        }
        filled += n;
        if let Some(found) = judge(&buffer[..filled], lines) {
            return Ok((filled, found));
        }
    }
    Ok((filled, Found::TooLarge))
}

/// What an input shows that ends after so many bytes of no whole head.
fn at_end(filled: usize) -> Found
    ensures nothing { filled ≡ 0 → result ≡ found.Nothing }
    ensures cut { 0 < filled → result ≡ found.Malformed }
{
    if filled == 0 {
        Found::Nothing
    } else {
        Found::Malformed
    }
}

/// What bytes show, whatever follows. `None`: no head ends within them, and one may come.
pub(crate) fn judge(front: &[u8], lines: &mut [HeaderSpan]) -> Option<Found>
    requires { length lines.old ≡ 64 }
    ensures room { length lines.new ≡ length lines.old }
    ensures judged { MatchOption result (IsUndecided front.now) (IsJudged front.now lines.new) }
{
    match parse_request(front, lines) {
        Ok(Status::Complete(spans)) => Some(Found::Whole(spans)),
        Ok(Status::Partial) => None,
        Err(Error::TooManyHeaders) => Some(Found::TooLarge),
        Err(_) => Some(Found::Malformed),
    }
}

/// What is looked at of the head whose parts the spans cover, in memory of its own.
pub(crate) fn copy_head(
    alloc: Global,
    front: &[u8],
    lines: &[HeaderSpan],
    spans: RequestSpans,
) -> Result<Head, AllocError>
    requires within { IsRequestWithin front.now lines.now spans }
    requires covers { IsRequestOf front.now lines.now spans }
    ensures { IfOk result (IsCopied front.now lines.now spans) }
{
    let method = Vec::from_slice(alloc, spans.method.of(front))?;
    let target = copy_text(alloc, spans.path.of(front))?;
    let lines = &lines[..spans.headers];
    let host = Vec::from_slice(alloc, first_host(front, lines))?;
    Ok(Head {
        method,
        target,
        minor: spans.version,
        hosts: count_hosts(front, lines),
        host,
    })
}

/// A text in memory of its own.
fn copy_text(alloc: Global, bytes: &[u8]) -> Result<String, AllocError>
    requires { IsUtf8 bytes.now }
    ensures { IfOk result (λ text. string_bytes text ≡ bytes.now) }
{
    match str::from_utf8(bytes) {
        Ok(text) => String::from_str(alloc, text),
        Err(_) => unreachable!(),
    }
}

/// How many of the header lines are named Host.
fn count_hosts(front: &[u8], lines: &[HeaderSpan]) -> usize
    requires { All (IsHeaderWithin (length front.now)) lines.now }
    ensures { result ≡ count_by (is_host_at front.now) lines.now }
{
    let mut hosts = 0usize;
    for line in lines {
        if is_host(front, line) {
            hosts += 1;
        }
    }
    hosts
}

/// The value of the first of the header lines that is named Host; empty where there is none.
fn first_host<'a>(front: &'a [u8], lines: &[HeaderSpan]) -> &'a [u8]
    requires { All (IsHeaderWithin (length front.now)) lines.now }
    ensures { result.now ≡ host_of (map (header_bytes front.now) lines.now) }
{
    'lines: for line in lines {
        if is_host(front, line) {
            return line.value.of(front);
        }
    }
    &[]
}

/// Whether a header line is named Host.
fn is_host(front: &[u8], line: &HeaderSpan) -> bool
    requires { IsHeaderWithin (length front.now) line.now }
    ensures { result ≡ is_host_at front.now line.now }
{
    line.name.of(front).eq_ignore_ascii_case(b"host")
}

/// What an error of a reader means, whose failures have gone from `before` to `after`.
///
/// A reader that answers an error and does not count it breaks the rule of `Device`: it is not blamed.
fn meaning(error: io::Error, before: u64, after: u64) -> TransferError
    ensures { result ≡ TransferError.Failed → Rose before after }
{
    if error.kind() != ErrorKind::OutOfMemory && has_risen(before, after) {
        TransferError::Failed
    } else {
        TransferError::OutOfMemory
    }
}
