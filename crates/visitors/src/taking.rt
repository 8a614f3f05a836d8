//! A visitor who is answered.

ghost use Rattle.std.specs.Prelude.{◌≤◌, length};

use crate::turn::Turn;
use std::io::{ErrorKind, Write};

/// A visitor whose answer is worked out, and written as far as it was taken.
#[derive(Drop)]
pub struct Taking {
    pub(crate) came: Vec<u8>,
    pub(crate) is_ended: bool,
    pub(crate) answer: Vec<u8>,
    pub(crate) written: usize,
    pub(crate) since: u64,
    ghost within: { written ≤ length answer.items },
}

impl Taking {
    ghost use Rattle.std.specs.Prelude.{◌≡◌, ◌+◌, ◌≤◌, ℕ, List, Option, length};
    ghost use Rattle.devices.specs.Devices.{AppendsBeginning};
    ghost use Rattle.visitors.specs.Lives.{HasGot, StaysAnswered, is_late_taking, is_told};
    ghost use Rattle.visitors.specs.Turns.{AfterTurn, MatchTurn};

    /// Whether all of the answer was taken.
    pub fn is_told(&self) -> bool
        ensures { result ≡ is_told self.now }
    {
        self.written == self.answer.len()
    }

    /// Whether the visitor has not taken the answer in 30 seconds, or has had all of it for 2.
    pub fn is_late(&self, now: u64) -> bool
        ensures { result ≡ is_late_taking self.now now }
    {
        let time = now.saturating_sub(self.since);
        if self.is_told() {
            time >= 2_000
        } else {
            time >= 30_000
        }
    }

    /// Writes of what is left as much as one write takes.
    #[tactic(auto, using(crate::proofs::Moved::got_more, crate::proofs::Moved::lost_beginning))]
    pub fn write<W: Write>(self, writer: &mut W, now: u64) -> Turn<Taking>
        ensures same { AfterTurn result (StaysAnswered self) }
        ensures got { (start : Option (List ℕ)) → HasGot start (W.contents writer.old) self
            → MatchTurn result (HasGot start (W.contents writer.new))
            (AppendsBeginning start (W.contents writer.new) self.answer.items) }
    {
        match writer.write(&self.answer.as_slice()[self.written..]) {
            Ok(0) => Turn::Lost,
            Ok(n) => Turn::On(self.took(n, now)),
            Err(e) if e.kind() == ErrorKind::WouldBlock => Turn::Waits(self),
            Err(_) => Turn::Lost,
        }
    }

    /// The visitor who took so many bytes more.
    fn took(self, n: usize, now: u64) -> Taking
        requires { self.written + n ≤ length self.answer.items }
        ensures same { StaysAnswered self result }
        ensures more { result.written ≡ self.written + n }
    {
        let Taking {
            came,
            is_ended,
            answer,
            written,
            since,
        } = self;
        let written = written + n;
        let since = if written == answer.len() { now } else { since };
        Taking {
            came,
            is_ended,
            answer,
            written,
            since,
        }
    }
}
