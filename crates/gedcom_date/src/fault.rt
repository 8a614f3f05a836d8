//! Why a date is not read or written.

/// What is wrong.
#[derive(Clone, Copy, Debug, PartialEq, Eq)]
pub enum DateKind {
    /// The memory that the value or its text needs is not given.
    OutOfMemory,
}

/// Why a date is not read or written: only if out of memory, as each text has a value.
#[derive(Clone, Copy, Debug, PartialEq, Eq)]
pub struct DateFault {
    /// What is wrong.
    pub kind: DateKind,
}
