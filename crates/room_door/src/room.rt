//! Who is let in, whose turn it is, and who has to go.

ghost use Rattle.std.specs.Prelude.{◌≡◌, IfOk, IfSome};

use crate::turns::go_on;
use mio::net::{TcpListener, TcpStream};
use mio::{Events, Interest, Poll, Token};
use room_requests::Answering;
use std::alloc::Global;
use std::io;
use std::io::ErrorKind;
use std::net::Net;
use std::time::{Clock, Duration, Instant};
use visitors::{PLACES, Seat, Turn, Visitor, Visitors};

/// The token of the listener; those of visitors are their places.
const DOOR: Token = Token(PLACES);

/// The most events that one wait gives: one of each visitor, and that of the door.
const EVENTS: usize = PLACES + 1;

/// How long a wait is if somebody is there, in thousandths of a second: then it is seen whose time is over.
const WAIT: u64 = 100;

/// How long it is if nobody is there. It has an end, since who comes to the door is reported once: who is still there
/// when letting in stops would otherwise wait until somebody else comes. Once a second costs nothing.
const IDLE_WAIT: u64 = 1_000;

/// A room, how many came, and who is there.
#[derive(Drop)]
struct OpenRoom<'a, C, A> {
    alloc: Global,
    clock: &'a C,
    room: &'a A,
    door: TcpListener,
    begun: Instant,
    came: u32,
    visitors: Visitors<TcpStream>,
}

/// Serves visitors, up to 256 at once, until so many came and the last of them left; without a limit there is no end.
/// It gives how many came.
///
/// What fails on one connection ends that one. An error: accepting, waiting or the clock failed, or memory was refused
/// to the list of visitors.
pub fn serve_visitors<N: Net + Clock, A: Answering>(
    alloc: Global,
    net: &N,
    room: &A,
    door: TcpListener,
    limit: Option<u32>,
) -> io::Result<u32>
    ensures { IfSome limit (λ count. IfOk result (λ came. came ≡ count)) }
{
    let mut door = door;
    let mut poll = Poll::new(net)?;
    poll.registry()
        .register(&mut door, DOOR, Interest::READABLE)?;
    let mut events = Events::with_capacity(alloc, EVENTS)?;
    let mut open = OpenRoom {
        alloc,
        clock: net,
        room,
        door,
        begun: Instant::now(net)?,
        came: 0,
        visitors: Visitors::new(alloc),
    };
    for _ in 0..u64::MAX {
        if open.is_over(limit) {
            return Ok(open.came);
        }
        poll.poll(&mut events, Some(open.wait()))?;
        let looked = open.now()?;
        open.go_round(&poll, &events, looked, limit)?;
    }
    Err(io::Error::from(ErrorKind::TimedOut))
}

impl<'a, C: Clock, A: Answering> OpenRoom<'a, C, A> {
    ghost use Rattle.std.specs.Prelude.{◌≡◌, ◌<◌, true, IfSome};
    ghost use Rattle.std.specs.Duration.{as_nanos};
    ghost use Rattle.room_requests.specs.Visits.{Answering as Answers};
    ghost use Rattle.visitors.specs.Lives.{IsRight};
    ghost use Rattle.visitors.specs.Places.{AreRight, count_of};
    ghost use Rattle.room_door.specs.Sitting.{ComesBack, IsTurn, MaySit};
    ghost use Rattle.room_door.specs.Waiting.{wait_of};

    /// Whether so many came as may, and nobody is there.
    fn is_over(&self, limit: Option<u32>) -> bool
        ensures { result ≡ true → IfSome limit (λ count. self.now.came ≡ count) }
    {
        match limit {
            Some(count) => self.came == count && self.visitors.count() == 0,
            None => false,
        }
    }

    /// Whether another visitor may come in now.
    fn has_place(&self, limit: Option<u32>) -> bool
        ensures { result ≡ true → count_of self.now.visitors < 256 }
    {
        match limit {
            Some(count) => self.came < count && self.visitors.count() < PLACES,
            None => self.visitors.count() < PLACES,
        }
    }

    /// How long to wait until something is reported: a tenth of a second if somebody is there, else a second.
    fn wait(&self) -> Duration
        ensures { as_nanos result ≡ wait_of (count_of self.now.visitors) }
    {
        if self.visitors.count() == 0 {
            Duration::from_millis(IDLE_WAIT)
        } else {
            Duration::from_millis(WAIT)
        }
    }

    /// The thousandths of a second since the room opened.
    fn now(&self) -> io::Result<u64> {
        let time = self.begun.elapsed(self.clock)?;
        Ok(u64::try_from(time.as_millis()).unwrap_or(u64::MAX))
    }

    /// Gives a turn to each visitor who can go on, closes the lines of those whose time is over, and lets in who waits
    /// at the door. Who is there is answered rightly still.
    ///
    /// A time is over if it was when the events were looked for: who sent something before that is among them. What
    /// came while others had their turns is heard in the next round, however long these took.
    fn go_round(
        &mut self,
        poll: &Poll,
        events: &Events,
        looked: u64,
        limit: Option<u32>,
    ) -> io::Result<()>
        ensures right { A.is_honest self.old.room.now → AreRight (A.answers self.old.room.now) self.old.visitors
            → AreRight (A.answers self.old.room.now) self.new.visitors }
    {
        'turns: for event in events {
            self.hear(poll, event.token())?;
        }
        self.visitors.close_late(looked);
        self.let_in(poll, limit)
    }

    /// Gives a turn to whom an event names, and none to who waits at the door.
    fn hear(&mut self, poll: &Poll, token: Token) -> io::Result<()>
        ensures same { self.new.room ≡ self.old.room }
        ensures right { A.is_honest self.old.room.now → AreRight (A.answers self.old.room.now) self.old.visitors
            → AreRight (A.answers self.old.room.now) self.new.visitors }
    {
        if token == DOOR {
            Ok(())
        } else {
            self.give_turn(poll, token.0)
        }
    }

    /// Gives a turn to who is at the place, whose line stays. Nobody else is touched.
    fn give_turn(&mut self, poll: &Poll, place: usize) -> io::Result<()>
        ensures turn { IsTurn self.old.visitors self.new.visitors place }
        ensures same { self.new.room ≡ self.old.room }
        ensures right { A.is_honest self.old.room.now → AreRight (A.answers self.old.room.now) self.old.visitors
            → AreRight (A.answers self.old.room.now) self.new.visitors }
    {
        let now = self.now()?;
        match self.visitors.take(place) {
            Some(seat) => {
                self.turn(poll, seat, now);
                Ok(())
            }
            None => Ok(()),
        }
    }

    /// The turn of a visitor, who then has the next place, on the same line, or is gone.
    fn turn(&mut self, poll: &Poll, seat: Seat<TcpStream>, now: u64)
        requires { count_of self.old.visitors < 256 }
        ensures back { ComesBack self.old.visitors self.new.visitors seat }
        ensures same { self.new.room ≡ self.old.room }
        ensures right { A.is_honest self.old.room.now → AreRight (A.answers self.old.room.now) self.old.visitors
            → IsRight (A.answers self.old.room.now) seat.visitor
            → AreRight (A.answers self.old.room.now) self.new.visitors }
    {
        let Seat { line, visitor } = seat;
        let mut reader = &line;
        let mut writer = &line;
        match go_on(
            self.alloc,
            self.room,
            &mut reader,
            &mut writer,
            visitor,
            now,
        ) {
            Turn::On(visitor) => self.sit_again(poll, Seat { line, visitor }),
            Turn::Waits(visitor) => self.sit(Seat { line, visitor }),
            Turn::Lost => {}
        }
    }

    /// Lets in those who wait at the door, while there are places.
    fn let_in(&mut self, poll: &Poll, limit: Option<u32>) -> io::Result<()>
        ensures right { (answer : Answers) → AreRight answer self.old.visitors → AreRight answer self.new.visitors }
    {
        let now = self.now()?;
        'places: for _ in 0..PLACES {
            if !self.has_place(limit) {
                return Ok(());
            }
            if !self.let_one_in(poll, now)? {
                return Ok(());
            }
        }
        Ok(())
    }

    /// Lets in who waits at the door. Whether somebody else may wait there.
    fn let_one_in(&mut self, poll: &Poll, now: u64) -> io::Result<bool>
        requires { count_of self.old.visitors < 256 }
        ensures right { (answer : Answers) → AreRight answer self.old.visitors → AreRight answer self.new.visitors }
    {
        match self.door.accept() {
            Ok((line, _)) => {
                self.came = self.came.saturating_add(1);
                self.welcome(poll, line, now);
                Ok(true)
            }
            Err(e) if e.kind() == ErrorKind::WouldBlock => Ok(false),
            Err(e) if e.kind() == ErrorKind::ConnectionAborted => Ok(true),
            Err(e) => Err(e),
        }
    }

    /// Gives a connection its place. Where the system or the memory refuses that, it is closed.
    fn welcome(&mut self, poll: &Poll, line: TcpStream, now: u64)
        requires { count_of self.old.visitors < 256 }
        ensures right { (answer : Answers) → AreRight answer self.old.visitors → AreRight answer self.new.visitors }
    {
        let mut line = line;
        let place = Token(self.visitors.next_place());
        let both = Interest::READABLE | Interest::WRITABLE;
        if poll.registry().register(&mut line, place, both).is_ok() {
            let visitor = Visitor::new(self.alloc, now);
            self.sit(Seat { line, visitor });
        }
    }

    /// Gives a visitor who could go on the next place, and has that reported. If the system refuses it, the visit is
    /// over.
    fn sit_again(&mut self, poll: &Poll, seat: Seat<TcpStream>)
        requires { count_of self.old.visitors < 256 }
        ensures sits { MaySit self.old.visitors self.new.visitors seat }
        ensures same { self.new.room ≡ self.old.room }
    {
        let mut seat = seat;
        let place = Token(self.visitors.next_place());
        let both = Interest::READABLE | Interest::WRITABLE;
        let again = poll.registry().reregister(&mut seat.line, place, both);
        if again.is_ok() {
            self.sit(seat);
        }
    }

    /// Gives a visitor the next place. Where memory is refused to the list, the visit is over.
    fn sit(&mut self, seat: Seat<TcpStream>)
        requires { count_of self.old.visitors < 256 }
        ensures sits { MaySit self.old.visitors self.new.visitors seat }
        ensures same { self.new.room ≡ self.old.room }
    {
        let _ = self.visitors.admit(seat);
    }
}
