//! Requests to a reading room, and its answers.

use crate::html::lists_of;
use crate::masked::masked_on;
use archive_state::State;
use devices::Counted;
use hex::FromHexError;
use html_answers::HtmlRoom;
use html_parts::Words;
use masking::Shown;
use reading_room::{Room, serve_one};
use record_text::RefusalKind;
use room_requests::{Answering, VisitError};
use row_words::{Answer, word};
use std::alloc::Global;

/// Says the bytes that a room, which shows what is shown that day, writes to those of a request, both in hexadecimal
/// digits. 90: the request is not.
pub(crate) fn say_visit(
    alloc: Global,
    state: &State,
    words: &[String],
    out: &mut Answer,
) -> Result<(), RefusalKind> {
    let masked = masked_on(alloc, state, words)?;
    let room = Room::new(alloc, masked)?;
    let written = answer_to(alloc, &room, word(words, 2))?;
    out.say_bytes(&written);
    out.say("\n");
    Ok(())
}

/// The same of a room of HTML that has a name of its own.
pub(crate) fn say_html_visit(
    alloc: Global,
    state: &State,
    words: &[String],
    out: &mut Answer,
) -> Result<(), RefusalKind> {
    let masked = masked_on(alloc, state, words)?;
    let room = html_room(alloc, masked)?;
    let written = answer_to(alloc, &room, word(words, 2))?;
    out.say_bytes(&written);
    out.say("\n");
    Ok(())
}

fn html_room(alloc: Global, masked: Shown) -> Result<HtmlRoom, RefusalKind> {
    let host = Some(Words::of(alloc, "Room.example.org")?);
    let lists = lists_of(alloc, masked)?;
    Ok(HtmlRoom { lists, host })
}

fn answer_to<A: Answering>(alloc: Global, room: &A, request: &str) -> Result<Vec<u8>, RefusalKind> {
    let bytes = match hex::decode(alloc, request) {
        Ok(bytes) => bytes,
        Err(FromHexError::OutOfMemory) => return Err(RefusalKind::OutOfMemory),
        Err(_) => return Err(RefusalKind::BadRow),
    };
    let mut written: Vec<u8> = Vec::new(alloc);
    match visit(alloc, room, &bytes, &mut written) {
        Ok(()) => Ok(written),
        Err(end) => Err(refusal_of(end, written.is_empty())),
    }
}

fn visit<A: Answering>(
    alloc: Global,
    room: &A,
    bytes: &[u8],
    written: &mut Vec<u8>,
) -> Result<(), VisitError> {
    let mut reader = Counted::new(bytes);
    let mut writer = Counted::new(written);
    serve_one(alloc, room, &mut reader, &mut writer)
}

/// The refusal of a visit that ended early. 90: memory was refused, and yet something was written.
fn refusal_of(end: VisitError, nothing_written: bool) -> RefusalKind {
    match end {
        VisitError::OutOfMemory if nothing_written => RefusalKind::OutOfMemory,
        VisitError::OutOfMemory => RefusalKind::BadRow,
        VisitError::ReadFailed => RefusalKind::ReadFailed,
        VisitError::WriteFailed => RefusalKind::WriteFailed,
    }
}
