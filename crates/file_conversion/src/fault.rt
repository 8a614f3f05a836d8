//! Why a file was not converted.

use std::alloc::AllocError;

/// Why a file was not converted.
#[derive(Clone, Copy, Debug, PartialEq, Eq)]
pub enum ConversionError {
    /// A growth of memory was refused.
    OutOfMemory,
    /// The reader failed.
    ReadFailed,
    /// The writer failed.
    WriteFailed,
    /// More than 134,217,728 bytes were read, or more than 67,108,864 would be written.
    TooLarge,
    /// The file leaves its set open at the line of this number, counted from 1 without blank lines.
    UnknownSet(usize),
}

impl From<AllocError> for ConversionError {
    ghost use Rattle.std.specs.Prelude.{◌≡◌};
    ghost use Rattle.file_conversion.specs.declared.fault.ConversionError.TheVariants.{OutOfMemory};

    ghost from_gives = { λ _ e. e ≡ OutOfMemory };

    fn from(_e: AllocError) -> ConversionError {
        Self::OutOfMemory
    }
}
