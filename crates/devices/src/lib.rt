//! Readers and writers that count their failures, and whole reads and writes over them.
//!
//! It uses nothing but the standard library.
//!
//! Callers may rely on: an error of a reader or a writer is blamed on it only where its count of failures
//! has risen in that call; a read takes all bytes up to a limit, and none after it; after a write that
//! failed the writer has got a beginning of the bytes.
#![tactic(auto)]

mod device;
mod transfer;

pub use device::{Counted, Device, has_risen};
pub use transfer::{TransferError, read_up_to, write_bytes, write_flushed};
