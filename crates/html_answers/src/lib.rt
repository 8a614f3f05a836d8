//! What a reading room answers to browsers: pages of HTML of the masked records.
//!
//! It uses `html_pages` and `html_lists` for the pages, and `room_requests` for heads, routes, queries and the parts of
//! an answer that pages of text have too.
//!
//! - `hosts`, `asked`: which hosts a room is asked for, and what the head of a request asks for.
//! - `showing`: what the room shows of a page with its query.
//! - `replies`, `room`: answers as bytes, and the room that gives them.
//! - `laws`: what holds of the answers.
//!
//! Callers may rely on: an answer is that of its definition over the masked records, the name of the society, the name
//! of the room and the bytes of the request. An `AllocError` comes only where memory was refused.
#![tactic(auto)]

mod asked;
mod hosts;
pub mod laws;
mod replies;
mod room;
mod showing;

pub use room::HtmlRoom;
