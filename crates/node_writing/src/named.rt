//! What the lines of a record show of other records.

ghost use Rattle.std.specs.Prelude.{◌≡◌, ℕ, List, IfOk, string_bytes};
ghost use Rattle.record_shapes.specs.Shapes.{Around};

use std::alloc::{AllocError, Global};

/// What has the cross references of records, and the paths of places, by their numbers.
pub trait Named {
    ghost names: { Self → ℕ → List ℕ };

    ghost around: { Self → Around };

    /// The cross reference of a number, with its two `@`.
    fn name(&self, alloc: Global, number: u32) -> Result<String, AllocError>
        ensures { IfOk result (λ s. string_bytes s ≡ names self.now number) };

    /// The path of a place.
    fn path(&self, alloc: Global, place: u32) -> Result<String, AllocError>
        ensures { IfOk result (λ s. string_bytes s ≡ (around self.now).path place) };
}
