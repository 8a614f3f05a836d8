//! What a visitor does in a turn, by any reader and writer.

ghost use Rattle.std.specs.Prelude.{◌≡◌, ℕ, List, Option};
ghost use Rattle.devices.specs.Devices.{AppendsBeginning};
ghost use Rattle.room_requests.specs.Visits.{Answering as Answers};
ghost use Rattle.visitors.specs.Lives.{HasGot, IsRight};
ghost use Rattle.visitors.specs.Turns.{AfterTurn, MatchTurn};
ghost use Rattle.visitors.specs.declared.visitor.Visitor.TheVariants as visitor;
ghost use Rattle.room_door.specs.Visiting.{AfterCalls, IsVisit, StillTakes};

use crate::ending::Ending;
use room_requests::Answering;
use std::alloc::Global;
use std::io::{ErrorKind, Read};
use visitors::{Taking, Turn, Visitor};

/// How many calls a turn has: who could go on after them has another turn, after the others.
const CALLS: u32 = 64;

/// Goes on with a visit, as far as its connection and its calls reach.
///
/// What the writer has got since the visit began is a prefix of an answer to all that the reader gives in it.
pub(crate) fn go_on<A: Answering, R: Read, W: Ending>(
    alloc: Global,
    room: &A,
    reader: &mut R,
    writer: &mut W,
    visitor: Visitor,
    now: u64,
) -> Turn<Visitor>
    ensures visit { (input start : Option (List ℕ)) → A.is_honest room.now
        → IsVisit (A.answers room.now) input start (R.remaining reader.old) (W.contents writer.old) visitor
        → AfterCalls (A.answers room.now) input start (R.remaining reader.new) (W.contents writer.new) result }
    ensures right { A.is_honest room.now → IsRight (A.answers room.now) visitor
        → AfterTurn result (IsRight (A.answers room.now)) }
{
    let mut next = visitor;
    'calls: for _ in 0..CALLS {
        match call(alloc, room, reader, writer, next, now) {
            Turn::On(later) => next = later,
            Turn::Waits(later) => return Turn::Waits(later),
            Turn::Lost => return Turn::Lost,
        }
    }
    Turn::On(next)
}

/// One read or write.
fn call<A: Answering, R: Read, W: Ending>(
    alloc: Global,
    room: &A,
    reader: &mut R,
    writer: &mut W,
    visitor: Visitor,
    now: u64,
) -> Turn<Visitor>
    ensures visit { (input start : Option (List ℕ)) → A.is_honest room.now
        → IsVisit (A.answers room.now) input start (R.remaining reader.old) (W.contents writer.old) visitor
        → AfterCalls (A.answers room.now) input start (R.remaining reader.new) (W.contents writer.new) result }
    ensures right { A.is_honest room.now → IsRight (A.answers room.now) visitor
        → AfterTurn result (IsRight (A.answers room.now)) }
{
    match visitor {
        Visitor::Asks(asking) => asking.read(alloc, room, reader, now),
        Visitor::Takes(taking) => take(reader, writer, taking, now),
    }
}

/// One write of the answer, or, where all of it is written, one read.
fn take<R: Read, W: Ending>(
    reader: &mut R,
    writer: &mut W,
    taking: Taking,
    now: u64,
) -> Turn<Visitor>
    ensures { (start : Option (List ℕ)) → HasGot start (W.contents writer.old) taking
        → MatchTurn result (StillTakes taking start (W.contents writer.new))
        (AppendsBeginning start (W.contents writer.new) taking.answer.items) }
{
    if taking.is_told() {
        leave(reader, taking)
    } else {
        tell(writer, taking, now)
    }
}

/// Writes to a visitor. Where that was the last of the answer, nothing more is written.
fn tell<W: Ending>(writer: &mut W, taking: Taking, now: u64) -> Turn<Visitor>
    ensures { (start : Option (List ℕ)) → HasGot start (W.contents writer.old) taking
        → MatchTurn result (StillTakes taking start (W.contents writer.new))
        (AppendsBeginning start (W.contents writer.new) taking.answer.items) }
{
    match taking.write(writer, now) {
        Turn::On(later) => end_told(writer, later),
        Turn::Waits(later) => Turn::Waits(Visitor::Takes(later)),
        Turn::Lost => Turn::Lost,
    }
}

/// Ends the writing to a visitor who has all of the answer.
fn end_told<W: Ending>(writer: &mut W, taking: Taking) -> Turn<Visitor>
    ensures { (start : Option (List ℕ)) → HasGot start (W.contents writer.old) taking
        → MatchTurn result (StillTakes taking start (W.contents writer.new))
        (AppendsBeginning start (W.contents writer.new) taking.answer.items) }
{
    if taking.is_told() && writer.end().is_err() {
        return Turn::Lost;
    }
    Turn::On(Visitor::Takes(taking))
}

/// Reads what a visitor still sends who has the answer, until the visitor closes: a close with bytes unread would take
/// the answer back (RFC 9112, section 9.6).
fn leave<R: Read>(reader: &mut R, taking: Taking) -> Turn<Visitor>
    ensures { AfterTurn result (λ v. v ≡ visitor.Takes taking) }
{
    let mut piece = [0u8; 4_096];
    match reader.read(&mut piece) {
        Ok(0) => Turn::Lost,
        Ok(_) => Turn::On(Visitor::Takes(taking)),
        Err(e) if e.kind() == ErrorKind::WouldBlock => Turn::Waits(Visitor::Takes(taking)),
        Err(_) => Turn::Lost,
    }
}
