//! One request, and its answer.

ghost use Rattle.std.specs.Prelude.{◌≡◌, Err, OnOk, IfOk, IfSome, not};
ghost use Rattle.std.specs.Io.KnownBytes.{Keeps};
ghost use Rattle.devices.specs.Counts.{failures_of, inner_of};
ghost use Rattle.devices.specs.Devices.{Rose};
ghost use Rattle.room_requests.specs.Asked.{asked_by, is_head as is_head_of};
ghost use Rattle.room_requests.specs.Visits.{AnswersBy, Served, BeginsToServe, answer_to, answer_of, page_answer};

use crate::answering::Answering;
use crate::asked::{Asked, is_head, read_request};
use crate::head::{Head, HeadRead};
use crate::pages::{PageFound, Pages};
use crate::reading::read_head;
use crate::replies::{refusal, reply};
use crate::sending::send;
use devices::{Counted, Device, TransferError};
use http::StatusCode;
use std::alloc::{AllocError, Global};
use std::io::{Read, Write};

/// Why a visit ended early.
#[derive(Clone, Copy, Debug, PartialEq, Eq)]
pub enum VisitError {
    /// Memory was refused, or the reader failed without counting it. Nothing was written.
    OutOfMemory,
    /// The reader failed in this call, by its count. Nothing was written.
    ReadFailed,
    /// The writer failed in this call, by its count. It has got a beginning of an answer.
    WriteFailed,
}

/// Reads one request and writes its answer. Where the input ends before its first byte nothing is written.
pub fn answer_one<A: Answering, R: Read + Device, W: Write>(
    alloc: Global,
    room: &A,
    reader: &mut R,
    writer: &mut Counted<W>,
) -> Result<(), VisitError>
    ensures ok { A.is_honest room.now → OnOk result (Served (A.answers room.now) (R.remaining reader.old)
        (W.contents (inner_of writer.old)) (W.contents (inner_of writer.new))) }
    ensures want { result ≡ Err VisitError.OutOfMemory
        → Keeps (W.contents (inner_of writer.old)) (W.contents (inner_of writer.new)) }
    ensures read { result ≡ Err VisitError.ReadFailed
        → Keeps (W.contents (inner_of writer.old)) (W.contents (inner_of writer.new)) }
    ensures blamed { result ≡ Err VisitError.ReadFailed → Rose (R.failed reader.old) (R.failed reader.new) }
    ensures write { A.is_honest room.now → result ≡ Err VisitError.WriteFailed → BeginsToServe (A.answers room.now)
        (R.remaining reader.old) (W.contents (inner_of writer.old)) (W.contents (inner_of writer.new)) }
    ensures counted { result ≡ Err VisitError.WriteFailed → Rose (failures_of writer.old) (failures_of writer.new) }
{
    let answer = match make_answer(alloc, room, reader) {
        Ok(answer) => answer,
        Err(TransferError::OutOfMemory) => return Err(VisitError::OutOfMemory),
        Err(TransferError::Failed) => return Err(VisitError::ReadFailed),
    };
    match send(writer, &answer) {
        Ok(()) => Ok(()),
        Err(_) => Err(VisitError::WriteFailed),
    }
}

/// Reads one request and makes its answer.
fn make_answer<A: Answering, R: Read + Device>(
    alloc: Global,
    room: &A,
    reader: &mut R,
) -> Result<Vec<u8>, TransferError>
    ensures ok { A.is_honest room.now → IfOk result (λ answer. IfSome (R.remaining reader.old)
        (λ input. AnswersBy (A.answers room.now) input answer.items)) }
    ensures failed { result ≡ Err TransferError.Failed → Rose (R.failed reader.old) (R.failed reader.new) }
{
    let before = reader.failures();
    match read_head(alloc, reader, before) {
        Ok(shown) => match room.answer(alloc, shown) {
            Ok(answer) => Ok(answer),
            Err(_) => Err(TransferError::OutOfMemory),
        },
        Err(e) => Err(e),
    }
}

/// The answer to what a connection begins with, by what is found of the page that it asks for.
pub fn answer_to<P: Pages>(alloc: Global, pages: &P, shown: HeadRead) -> Result<Vec<u8>, AllocError>
    ensures { P.is_honest pages.now
        → IfOk result (λ answer. answer.items ≡ answer_to (P.shows pages.now) shown) }
{
    match shown {
        HeadRead::Nothing => Ok(Vec::new(alloc)),
        HeadRead::Malformed => refusal(alloc, StatusCode::BAD_REQUEST, true),
        HeadRead::TooLarge => refusal(alloc, StatusCode::REQUEST_HEADER_FIELDS_TOO_LARGE, true),
        HeadRead::Whole(head) => answer_head(alloc, pages, &head),
    }
}

/// The answer to a whole head.
fn answer_head<P: Pages>(alloc: Global, pages: &P, head: &Head) -> Result<Vec<u8>, AllocError>
    ensures { P.is_honest pages.now → IfOk result (λ answer. answer.items ≡ answer_of (P.shows pages.now)
        (asked_by head.now) (not (is_head_of head.now))) }
{
    let with_page = !is_head(head);
    match read_request(alloc, head)? {
        Asked::Refused(status) => refusal(alloc, status, with_page),
        Asked::Page { page, query } => {
            let found = pages.show(alloc, page, &query)?;
            answer_page(alloc, &found, with_page)
        }
    }
}

/// The answer of what is found of a page.
fn answer_page(alloc: Global, found: &PageFound, with_page: bool) -> Result<Vec<u8>, AllocError>
    ensures { IfOk result (λ answer. answer.items ≡ page_answer found.now with_page) }
{
    match found {
        PageFound::Text(text) => reply(alloc, StatusCode::OK, text.as_str(), with_page),
        PageFound::NotShown => refusal(alloc, StatusCode::NOT_FOUND, with_page),
        PageFound::WrongQuery => refusal(alloc, StatusCode::BAD_REQUEST, with_page),
    }
}
