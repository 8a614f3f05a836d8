//! Looks at the next number.

ghost use Rattle.archive_state.specs.Looks.{Agrees, CountsFailures, is_stop};
ghost use Rattle.archive_state.specs.Views.{On};
ghost use Rattle.command_checks.specs.Checks as checks;

use archive_state::View;
use record_text::RefusalKind;
use std::alloc::Global;

/// The next number, where one is left.
pub fn next_free<V: View>(alloc: Global, view: &mut V) -> Result<u32, RefusalKind>
    ensures decides { On V.View view.old view.new (λ c. Agrees is_stop result (checks.next_free c)) }
    ensures counts { CountsFailures (V.failed view.old) (V.failed view.new) result }
{
    let next = view.next(alloc)?;
    if next > 4_294_967_295 {
        return Err(RefusalKind::Full);
    }
    Ok(next as u32)
}
