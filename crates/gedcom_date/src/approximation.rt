//! Why a date is not sure.

/// Why a date is not sure.
#[derive(Clone, Copy, Debug, PartialEq, Eq)]
pub enum Approximation {
    /// `ABT`: about that date.
    About,
    /// `CAL`: calculated, as from an age.
    Calculated,
    /// `EST`: estimated from the date of another event.
    Estimated,
}
