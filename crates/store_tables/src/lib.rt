//! The tables of an archive in one SQLite file: made, written a row at a time inside a transaction, and read.
#![tactic(auto)]

pub mod batches;
pub mod connection;
mod creating;
pub mod keyed;
pub mod laws;
pub mod lines;
pub mod links;
mod pairs;
pub mod pasts;
mod reading;
pub mod records;
pub mod rows;
pub mod sides;
pub mod soughts;
pub mod spans;
mod stored;
mod typing;
mod version;

pub use creating::{create, create_later_tables};
pub use pairs::integer_of;
pub use reading::{count_receipts, read_batches, read_records_by_batch, read_rows, society};
pub use stored::{
    BatchRow, LineRow, LinkRow, PackRow, PastRow, ReceiptRow, RecordRow, SlipLineRow, SlipRow,
    SlipSide, SoughtRow, SpanRow, StoredRows,
};
pub use version::{Version, check_tables, check_version};
