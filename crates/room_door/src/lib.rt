//! A room that is open to many visitors at once, over the sockets of `mio`.
//!
//! - `room`: who is let in, whose turn it is, and who has to go.
//! - `turns`: what a turn does: reads and writes until the connection would wait.
//! - `ending`: the end of what is written.
//!
//! Callers may rely on: a room with a limit ends only after so many connections; nobody is waited for; by any reader
//! and writer, what is written in a visit is a prefix of an answer to all that is read in it.
#![tactic(auto)]

mod ending;
mod room;
mod turns;

pub use room::serve_visitors;
