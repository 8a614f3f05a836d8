//! One visit of the reading room, from the bytes of a request to those of its reply. It knows no record.
//!
//! - `head`, `laws`, `reading`: the head of a request, read from any reader, and what is looked at of it.
//! - `asked`, `laws`, `number`, `page`, `query`, `target`: what the head of a request asks for: a page of the reading
//!   room with its query, or what is refused whatever the records are.
//! - `laws`, `replies`, `sending`: answers of the reading room, as bytes, and their way to a visitor.
//! - `answering`, `laws`, `pages`, `visit`: one visit: one request read, and one answer written, over any reader and
//!   writer and whoever answers, by pages or otherwise.
//! - `arriving`: the answer to a connection of which bytes come now and then, as soon as they decide it.
//!
//! Callers may rely on:
//! - no more than 8,192 bytes are taken, and none once the head has ended or is ruled out; what is answered depends on
//!   the bytes and not on the pieces in which they come, but for a head that is malformed or cut, and too large: it may
//!   be called either.
//! - what a head asks for is a function only of the head; 400 comes before 405, and this before 404; a query is judged
//!   by whoever knows whether its page is there, since 404 comes before the query's 400.
//! - `Content-Length` is that of the page in bytes, also where the page is left out; an answer is whole before its
//!   first byte is written; after a write that failed the writer has got a beginning of it.
//! - the answer is a function of the bytes of the request and of what the pages show, but for a head that is malformed
//!   or cut, and too large; nothing is written before the answer is whole.
#![tactic(auto)]

mod answering;
mod arriving;
mod asked;
mod head;
pub mod laws;
mod number;
mod page;
mod pages;
mod query;
mod reading;
mod replies;
mod sending;
mod target;
mod visit;

pub use answering::Answering;
pub use arriving::{answer_at_end, answer_so_far};
pub use asked::{has_right_hosts, is_head, only_reads};
pub use head::{Head, HeadRead};
pub use number::number_in;
pub use page::{Page, find_page};
pub use pages::{PageFound, PageText, Pages};
pub use query::Query;
pub use replies::{push_allow, push_size, push_status};
pub use target::{local_target, split_query};
pub use visit::{VisitError, answer_one, answer_to};
