//! What a connection is answered, as a function of what its bytes begin with.

ghost use Rattle.std.specs.Prelude.{◌≡◌, ℕ, List, IfOk};
ghost use Rattle.room_requests.specs.declared.head.HeadRead.{HeadRead as SpecRead};

use crate::head::HeadRead;
use std::alloc::{AllocError, Global};

/// Whoever answers visitors.
pub trait Answering {
    /// The answer to what the bytes of a connection begin with.
    ghost answers: { Self → SpecRead → List ℕ };

    /// Whether it answers just that.
    ghost is_honest: { Self → Type 0 };

    /// The answer to what the bytes of a connection begin with. Refused only if out of memory.
    fn answer(&self, alloc: Global, shown: HeadRead) -> Result<Vec<u8>, AllocError>
        ensures { is_honest self.now → IfOk result (λ bytes. bytes.items ≡ answers self.now shown) };
}
