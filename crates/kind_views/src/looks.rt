//! The look for the numbers of some kinds.

ghost use Rattle.std.specs.Prelude.{◌≡◌};
ghost use Rattle.archive_state.specs.Looks.{CountsOne, Looked};
ghost use Rattle.archive_state.specs.Views.{On};
ghost use Rattle.kind_views.specs.Kinds.{numbers_of};

use crate::kinds::Kinds;
use archive_state::View;
use record_text::RefusalKind;
use std::alloc::Global;

/// A view that finds the records of some kinds. Refusals and failures are those of its other looks.
pub trait KindView: View {
    /// The numbers of the records of these kinds, ascending. No record is read.
    fn numbers_of(&mut self, alloc: Global, kinds: Kinds) -> Result<Vec<u32>, RefusalKind>
        ensures shows { On Self.View self.old self.new (λ c. Looked result
            (λ found. found.items ≡ numbers_of kinds c)) }
        ensures counts { CountsOne (Self.View.failed self.old) (Self.View.failed self.new) result };
}
