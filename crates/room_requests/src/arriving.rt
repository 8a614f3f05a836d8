//! The answer to a connection of which bytes come now and then.

ghost use Rattle.std.specs.Prelude.{◌≡◌, ◌<◌, ◌≤◌, IfOk, IfSome, MatchOption, length, ⊤};
ghost use Rattle.httparse.specs.Grammar.{HasNoRequest};
ghost use Rattle.room_requests.specs.Heads.{Begins, head_limit};
ghost use Rattle.room_requests.specs.Reading.{IsJudged};
ghost use Rattle.room_requests.specs.Visits.{AnswersBy};
ghost use Rattle.room_requests.specs.Arriving.{AnswersAll, BeginsAll, IsOpen};

use crate::answering::Answering;
use crate::head::HeadRead;
use crate::reading::{Found, HEAD_LIMIT, LINE_LIMIT, copy_head, judge};
use httparse::spans::{EMPTY_HEADER_SPAN, HeaderSpan};
use std::alloc::{AllocError, Global};

/// The answer to a connection that begins with these bytes, whatever follows them. `None`: what follows decides it.
///
/// Refused only if out of memory.
pub fn answer_so_far<A: Answering>(
    alloc: Global,
    room: &A,
    came: &[u8],
) -> Result<Option<Vec<u8>>, AllocError>
    requires { length came.now ≤ head_limit }
    ensures open { IfOk result (λ found. MatchOption found (IsOpen came.now) (λ _. ⊤)) }
    ensures answered { A.is_honest room.now → IfOk result (λ found. IfSome found
        (λ answer. AnswersAll (A.answers room.now) came.now answer.items)) }
{
    match head_so_far(alloc, came)? {
        None => Ok(None),
        Some(shown) => Ok(Some(room.answer(alloc, shown)?)),
    }
}

/// The answer to a connection that has ended, of whose bytes nothing was decided. Refused only if out of memory.
pub fn answer_at_end<A: Answering>(
    alloc: Global,
    room: &A,
    came: &[u8],
) -> Result<Vec<u8>, AllocError>
    requires { HasNoRequest came.now }
    ensures { A.is_honest room.now → IfOk result (λ answer. AnswersBy (A.answers room.now) came.now answer.items) }
{
    room.answer(alloc, head_at_end(came))
}

/// What a connection begins with that begins with these bytes, whatever follows them. `None`: what follows decides it.
#[tactic(auto, using(crate::proofs::Fronted::nothing_is_open, crate::proofs::Fronted::full_begins))]
fn head_so_far(alloc: Global, came: &[u8]) -> Result<Option<HeadRead>, AllocError>
    requires { length came.now ≤ head_limit }
    ensures { IfOk result (λ found. MatchOption found (IsOpen came.now) (BeginsAll came.now)) }
{
    if came.is_empty() {
        return Ok(None);
    }
    let mut lines = [EMPTY_HEADER_SPAN; LINE_LIMIT];
    match judge(came, &mut lines) {
        Some(found) => Ok(Some(decided_head(alloc, came, &lines, found)?)),
        None if came.len() == HEAD_LIMIT => Ok(Some(HeadRead::TooLarge)),
        None => Ok(None),
    }
}

/// What a connection begins with, by what its first bytes show.
#[tactic(auto, using(crate::proofs::Fronted::never, crate::proofs::Fronted::many, crate::proofs::Fronted::head_is))]
fn decided_head(
    alloc: Global,
    came: &[u8],
    lines: &[HeaderSpan],
    found: Found,
) -> Result<HeadRead, AllocError>
    requires some { 0 < length came.now }
    requires size { length came.now ≤ head_limit }
    requires lines { length lines.now ≡ 64 }
    requires judged { IsJudged came.now lines.now found }
    ensures { IfOk result (λ shown. BeginsAll came.now shown) }
{
    match found {
        Found::Nothing => unreachable!(),
        Found::Malformed => Ok(HeadRead::Malformed),
        Found::TooLarge => Ok(HeadRead::TooLarge),
        Found::Whole(spans) => Ok(HeadRead::Whole(copy_head(alloc, came, lines, spans)?)),
    }
}

/// What a connection begins with that has ended.
fn head_at_end(came: &[u8]) -> HeadRead
    requires { HasNoRequest came.now }
    ensures { Begins came.now result }
{
    if came.is_empty() {
        HeadRead::Nothing
    } else {
        HeadRead::Malformed
    }
}
