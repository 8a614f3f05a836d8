//! The reading room of a society: what is shown of an archive, for visitors over HTTP.
//!
//! It stands on `sheets`, whose pages it shows, and on `room_requests`, which reads a request and writes its answer.
//!
//! Callers may rely on: an answer is a function of the bytes of the request and of the masked records, but for a
//! head that is malformed or cut, and too large; nothing is written before an answer is whole; a visitor who is slow or
//! silent holds up nobody.
#![tactic(auto)]

pub mod laws;
mod listening;
mod room;
mod visit;

pub use listening::serve;
pub use room::Room;
pub use visit::serve_one;
