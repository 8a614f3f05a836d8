//! Who visits a room, from the first byte of a connection to the last of its answer, with a clock that is given. It
//! knows no socket.
//!
//! - `asking`, `taking`, `visitor`: a visitor who asks, one who is answered, and either.
//! - `turn`: what one call on a connection did.
//! - `visitors`: those who are there at once.
//!
//! Callers may rely on: no more than 8,192 bytes are kept of a request, and the answer is worked out as soon as these
//! decide it; it is the one of all bytes of the connection, whatever follows those that were read; what a visitor gets
//! is a prefix of it; whose time is over is a function of the clock; at most 256 are there at once.
#![tactic(auto)]

mod asking;
mod taking;
mod turn;
mod visitor;
mod visitors;

pub use asking::Asking;
pub use taking::Taking;
pub use turn::Turn;
pub use visitor::Visitor;
pub use visitors::{PLACES, Seat, Visitors};
