//! Those who are there at once.

ghost use Rattle.std.specs.Prelude.{◌≤◌};
ghost use Rattle.slab.specs.Slab.{slab_len};

use crate::visitor::Visitor;
use slab::Slab;
use std::alloc::{AllocError, Global};

/// The most visitors at once. Their places are below it.
pub const PLACES: usize = 256;

/// A visitor and the line that leads there.
#[derive(Drop)]
pub struct Seat<S> {
    pub line: S,
    pub visitor: Visitor,
}

/// Those who are there at once, each at a place: at most 256.
#[derive(Drop)]
pub struct Visitors<S> {
    seats: Slab<Seat<S>>,
    ghost few: { slab_len seats ≤ 256 },
}

impl<S: Drop> Visitors<S> {
    ghost use Rattle.std.specs.Prelude.{◌≡◌, ◌+◌, ◌<◌, ℕ, None, Some, IfOk, IfSome, OnErr, OnOk, OnSome};
    ghost use Rattle.room_requests.specs.Visits.{Answering};
    ghost use Rattle.visitors.specs.Lives.{IsRight};
    ghost use Rattle.visitors.specs.Places.{
      AreRight,
      KeepsOthers,
      Left,
      Sits,
      at,
      count_of,
      is_late_there,
      next_of,
      unless_late,
    };

    /// Nobody.
    pub fn new(alloc: Global) -> Visitors<S>
        ensures empty { count_of result ≡ 0 }
        ensures right { (answer : Answering) → AreRight answer result }
    {
        Visitors {
            seats: Slab::new(alloc),
        }
    }

    /// How many are there.
    pub fn count(&self) -> usize
        ensures value { result ≡ count_of self.now }
        ensures few { result ≤ 256 }
    {
        self.seats.len()
    }

    /// The place of the next who comes.
    pub fn next_place(&self) -> usize
        ensures value { result ≡ next_of self.now }
        ensures vacant { at self.now result ≡ None }
    {
        self.seats.vacant_key()
    }

    /// Gives a visitor the next place. Refused only if out of memory: then the line is closed.
    #[tactic(auto, using(crate::proofs::Seated::comes))]
    pub fn admit(&mut self, seat: Seat<S>) -> Result<usize, AllocError>
        requires { count_of self.old < 256 }
        ensures place { IfOk result (λ place. place ≡ next_of self.old) }
        ensures sits { IfOk result (λ place. Sits self.old self.new place seat) }
        ensures refused { OnErr result ((place : ℕ) → at self.new place ≡ at self.old place) }
        ensures count { OnOk result (count_of self.new ≡ count_of self.old + 1) }
        ensures right { (answer : Answering) → AreRight answer self.old → IsRight answer seat.visitor
            → AreRight answer self.new }
    {
        match self.seats.insert(seat) {
            Ok(place) => Ok(place),
            Err(_) => Err(AllocError),
        }
    }

    /// Takes a visitor from a place, which is the next one then. `None`: nobody is there.
    #[tactic(auto, using(crate::proofs::Seated::goes))]
    pub fn take(&mut self, place: usize) -> Option<Seat<S>>
        ensures value { result ≡ at self.old place }
        ensures left { Left self.old self.new place }
        ensures count { OnSome result (count_of self.new + 1 ≡ count_of self.old) }
        ensures next { OnSome result (next_of self.new ≡ place) }
        ensures right { (answer : Answering) → AreRight answer self.old → AreRight answer self.new }
        ensures taken { (answer : Answering) → AreRight answer self.old
            → IfSome result (λ seat. IsRight answer seat.visitor) }
    {
        self.seats.try_remove(place)
    }

    /// Closes the lines of those whose time is over.
    pub fn close_late(&mut self, now: u64)
        ensures gone { (place : ℕ) → place < 256 → at self.new place ≡ unless_late (at self.old place) now }
        ensures right { (answer : Answering) → AreRight answer self.old → AreRight answer self.new }
    {
        'places: for place in 0..PLACES {
            self.close_late_at(place, now);
        }
    }

    /// Closes the line of who is at the place, if that one's time is over.
    fn close_late_at(&mut self, place: usize, now: u64)
        ensures gone { at self.new place ≡ unless_late (at self.old place) now }
        ensures others { KeepsOthers self.old self.new place }
        ensures right { (answer : Answering) → AreRight answer self.old → AreRight answer self.new }
    {
        if self.is_late_at(place, now) {
            let _ = self.take(place);
        }
    }

    /// Whether there is somebody at the place whose time is over.
    fn is_late_at(&self, place: usize, now: u64) -> bool
        ensures { result ≡ is_late_there self.now place now }
    {
        match self.seats.get(place) {
            Some(seat) => seat.visitor.is_late(now),
            None => false,
        }
    }
}
