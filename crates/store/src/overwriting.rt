//! Which requests keep the values of before that they overwrite, and what they overwrite.

ghost use Rattle.std.specs.Prelude.{◌≡◌};
ghost use Rattle.archive_state.specs.Looks.{CountsFailures, Looked};
ghost use Rattle.archive_state.specs.Views.{On};
ghost use Rattle.store.specs.Overwritten as overwritten;

use archive_state::{Changes, Numbered, View};
use commands::{Command, RowCommand};
use earlier_values::overwritten;
use record_text::RefusalKind;
use std::alloc::Global;

/// The records of before whose values a request keeps: those that its changes overwrite or remove, in their order. Of a
/// request that only adds something, or that has a slip, there are none.
pub(crate) fn kept_values<V: View>(
    alloc: Global,
    view: &mut V,
    command: &Command,
    changes: &Changes,
) -> Result<Vec<Numbered>, RefusalKind>
    ensures shows { On V.View view.old view.new (λ c. Looked result (λ values. values.items
        ≡ overwritten.kept_values c «command».now changes.now)) }
    ensures counts { CountsFailures (V.failed view.old) (V.failed view.new) result }
{
    if keeps_past(command) {
        overwritten(alloc, view, changes)
    } else {
        Ok(Vec::new(alloc))
    }
}

/// Whether the values of before are kept of what a command overwrites.
fn keeps_past(command: &Command) -> bool
    ensures { result ≡ overwritten.keeps_past «command».now }
{
    match command {
        Command::Row(row) => mends(row),
        _ => false,
    }
}

/// Whether a row puts something right, or takes it away.
fn mends(row: &RowCommand) -> bool
    ensures { result ≡ overwritten.mends «row».now }
{
    match row {
        RowCommand::Sex { .. }
        | RowCommand::Amend { .. }
        | RowCommand::Link { .. }
        | RowCommand::Unlink { .. }
        | RowCommand::Remove { .. }
        | RowCommand::Unpartner { .. }
        | RowCommand::Unchild { .. }
        | RowCommand::Unparticipant { .. }
        | RowCommand::Correct { .. } => true,
        _ => false,
    }
}
