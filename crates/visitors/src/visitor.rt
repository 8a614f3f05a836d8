//! One visitor.

ghost use Rattle.std.specs.Prelude.{◌≡◌, []};
ghost use Rattle.room_requests.specs.Visits.{Answering};
ghost use Rattle.visitors.specs.Lives.{IsRight, came_of, is_late as is_late_at, is_over as is_told_all};

use crate::asking::Asking;
use crate::taking::Taking;
use std::alloc::Global;

/// A visitor who asks, or one who is answered.
#[derive(Drop)]
pub enum Visitor {
    Asks(Asking),
    Takes(Taking),
}

impl Visitor {
    /// One who comes at that time, in thousandths of a second, and has sent nothing.
    pub fn new(alloc: Global, now: u64) -> Visitor
        ensures came { came_of result ≡ [] }
        ensures right { (answer : Answering) → IsRight answer result }
    {
        Visitor::Asks(Asking::new(alloc, now))
    }

    /// Whether the time of this part of the visit is over.
    pub fn is_late(&self, now: u64) -> bool
        ensures { result ≡ is_late_at self.now now }
    {
        match self {
            Visitor::Asks(asking) => asking.is_late(now),
            Visitor::Takes(taking) => taking.is_late(now),
        }
    }

    /// Whether the visitor has all of the answer.
    pub fn is_told(&self) -> bool
        ensures { result ≡ is_told_all self.now }
    {
        match self {
            Visitor::Asks(_) => false,
            Visitor::Takes(taking) => taking.is_told(),
        }
    }
}
