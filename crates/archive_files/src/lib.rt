//! The two files of an archive, made or opened, and closed.
//!
//! - `database_opening`, `laws`, `left`: the two files of a database, which are a file and the log beside it: opened
//!   once, closed, and what is left of them.
//! - `beside`, `making`, `opening`: an archive in a file and the log beside it: made, or opened.
//! - `causes`: why a file is neither.
//!
//! Callers may rely on:
//! - a function that is given a value of an `Openable` type opens its files at most once, and hands back what is left
//!   of them: the value itself, where it did not open them; what an opening that failed has left; or the connection. So
//!   a contract can say what the files hold then, whatever the function did.
//! - what is left of the two files is handed back in any case, so that a contract can say what they hold then; the
//!   caller closes them.
#![tactic(auto)]

mod beside;
mod causes;
mod database_opening;
pub mod laws;
mod left;
mod making;
mod opening;

pub use causes::Cause;
pub use database_opening::Openable;
pub use left::{Closed, ClosedFile, Left, LeftFile};
pub use making::{Made, init};
pub use opening::{ArchiveFile, Refused, open};
