//! A visitor of whose request no whole head has come.

ghost use Rattle.std.specs.Prelude.{◌<◌, length};
ghost use Rattle.httparse.specs.Grammar.{HasNoRequest};

use crate::taking::Taking;
use crate::turn::Turn;
use crate::visitor::Visitor;
use room_requests::{Answering, answer_at_end, answer_so_far};
use std::alloc::{AllocError, Global};
use std::io::{ErrorKind, Read};

/// The most bytes that are read of a request.
const HEAD_LIMIT: usize = 8_192;

/// A visitor whose bytes are no whole head, and may become one.
#[derive(Drop)]
pub struct Asking {
    came: Vec<u8>,
    since: u64,
    heard: u64,
    ghost short: { length came.items < 8192 },
    ghost open: { HasNoRequest came.items },
}

impl Asking {
    ghost use Rattle.std.specs.Prelude.{
      ◌≡◌,
      ◌+◌,
      ◌≤◌,
      ◌++◌,
      ℕ,
      List,
      [],
      Option,
      IfOk,
      length,
    };
    ghost use Rattle.std.specs.Io.KnownBytes.{Consumes};
    ghost use Rattle.visitors.specs.Lives.{AsksSince, EndsAt, IsRight, StaysOpen, TakesAll, TakesSince};
    ghost use Rattle.visitors.specs.Lives.{came_of, is_late_asking};
    ghost use Rattle.visitors.specs.Turns.{AfterTurn};

    /// A visitor who comes at that time, in thousandths of a second.
    #[tactic(auto, using(room_requests::proofs::Undecided::empty_has_no_head))]
    pub fn new(alloc: Global, now: u64) -> Asking
        ensures none { result.came.items ≡ [] }
        ensures since { result.since ≡ now }
        ensures heard { result.heard ≡ now }
    {
        Asking {
            came: Vec::new(alloc),
            since: now,
            heard: now,
        }
    }

    /// Whether the visitor has sent nothing for 2 seconds, or no whole head in 10.
    pub fn is_late(&self, now: u64) -> bool
        ensures { result ≡ is_late_asking self.now now }
    {
        now.saturating_sub(self.heard) >= 2_000 || now.saturating_sub(self.since) >= 10_000
    }

    /// Takes what one read gives. Without a byte the visitor has sent all.
    ///
    /// Where that decides the answer, it is worked out.
    pub fn read<A: Answering, R: Read>(
        self,
        alloc: Global,
        room: &A,
        reader: &mut R,
        now: u64,
    ) -> Turn<Visitor>
        ensures right { A.is_honest room.now → AfterTurn result (IsRight (A.answers room.now)) }
        ensures given { (start : Option (List ℕ)) → Consumes start (R.remaining reader.old) self.came.items
            → AfterTurn result (λ v. Consumes start (R.remaining reader.new) (came_of v)) }
        ensures ended { AfterTurn result (EndsAt (R.remaining reader.new)) }
        ensures takes { AfterTurn result (TakesSince now) }
    {
        let mut piece = [0u8; HEAD_LIMIT];
        let most = HEAD_LIMIT - self.came.len();
        self.read_piece(alloc, room, reader, &mut piece[..most], now)
    }

    /// The same, of at most so many bytes.
    #[tactic(auto, using(crate::proofs::Moved::gave_more, crate::proofs::Moved::gave_none))]
    fn read_piece<A: Answering, R: Read>(
        self,
        alloc: Global,
        room: &A,
        reader: &mut R,
        piece: &mut [u8],
        now: u64,
    ) -> Turn<Visitor>
        requires some { 0 < length piece.old }
        requires fits { length self.came.items + length piece.old ≤ 8192 }
        ensures right { A.is_honest room.now → AfterTurn result (IsRight (A.answers room.now)) }
        ensures given { (start : Option (List ℕ)) → Consumes start (R.remaining reader.old) self.came.items
            → AfterTurn result (λ v. Consumes start (R.remaining reader.new) (came_of v)) }
        ensures ended { AfterTurn result (EndsAt (R.remaining reader.new)) }
        ensures takes { AfterTurn result (TakesSince now) }
    {
        match reader.read(piece) {
            Ok(0) => self.end_turn(alloc, room, now),
            Ok(n) => self.hear_turn(alloc, room, &piece[..n], now),
            Err(e) if e.kind() == ErrorKind::WouldBlock => Turn::Waits(Visitor::Asks(self)),
            Err(_) => Turn::Lost,
        }
    }

    fn end_turn<A: Answering>(self, alloc: Global, room: &A, now: u64) -> Turn<Visitor>
        ensures right { A.is_honest room.now → AfterTurn result (IsRight (A.answers room.now)) }
        ensures came { AfterTurn result (λ v. came_of v ≡ self.came.items) }
        ensures takes { AfterTurn result (TakesSince now) }
    {
        match self.end(alloc, room, now) {
            Ok(visitor) => Turn::On(visitor),
            Err(_) => Turn::Lost,
        }
    }

    fn hear_turn<A: Answering>(
        self,
        alloc: Global,
        room: &A,
        bytes: &[u8],
        now: u64,
    ) -> Turn<Visitor>
        requires fits { length self.came.items + length bytes.now ≤ 8192 }
        ensures right { A.is_honest room.now → AfterTurn result (IsRight (A.answers room.now)) }
        ensures came { AfterTurn result (λ v. came_of v ≡ self.came.items ++ bytes.now) }
        ensures open { AfterTurn result StaysOpen }
        ensures takes { AfterTurn result (TakesSince now) }
    {
        match self.hear(alloc, room, bytes, now) {
            Ok(visitor) => Turn::On(visitor),
            Err(_) => Turn::Lost,
        }
    }

    /// The visitor after further bytes. Refused only if out of memory.
    fn hear<A: Answering>(
        self,
        alloc: Global,
        room: &A,
        bytes: &[u8],
        now: u64,
    ) -> Result<Visitor, AllocError>
        requires fits { length self.came.items + length bytes.now ≤ 8192 }
        ensures came { IfOk result (λ v. came_of v ≡ self.came.items ++ bytes.now) }
        ensures right { A.is_honest room.now → IfOk result (IsRight (A.answers room.now)) }
        ensures asks { IfOk result (AsksSince self.since now) }
        ensures takes { IfOk result (TakesSince now) }
        ensures open { IfOk result StaysOpen }
    {
        let Asking {
            mut came,
            since,
            heard: _,
        } = self;
        came.extend_from_slice(bytes)?;
        match answer_so_far(alloc, room, came.as_slice())? {
            None => Ok(Visitor::Asks(Asking {
                came,
                since,
                heard: now,
            })),
            Some(answer) => Ok(Visitor::Takes(Taking {
                came,
                is_ended: false,
                answer,
                written: 0,
                since: now,
            })),
        }
    }

    /// The visitor who has sent all, which is no whole head. Refused only if out of memory.
    fn end<A: Answering>(self, alloc: Global, room: &A, now: u64) -> Result<Visitor, AllocError>
        ensures came { IfOk result (λ v. came_of v ≡ self.came.items) }
        ensures right { A.is_honest room.now → IfOk result (IsRight (A.answers room.now)) }
        ensures takes { IfOk result (TakesSince now) }
        ensures all { IfOk result TakesAll }
    {
        let Asking {
            came,
            since: _,
            heard: _,
        } = self;
        let answer = answer_at_end(alloc, room, came.as_slice())?;
        Ok(Visitor::Takes(Taking {
            came,
            is_ended: true,
            answer,
            written: 0,
            since: now,
        }))
    }
}
