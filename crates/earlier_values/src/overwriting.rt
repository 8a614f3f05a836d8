//! What a request overwrites.

ghost use Rattle.std.specs.Prelude.{◌≡◌, ◌++◌, ◌∷◌, [], IfOk};
ghost use Rattle.std.specs.FinMap as map;
ghost use Rattle.archive_state.specs.Looks.{CountsFailures, Looked};
ghost use Rattle.archive_state.specs.Views.{On};
ghost use Rattle.command_checks.specs.Exact.{put_numbers};
ghost use Rattle.earlier_values.specs.Earlier as earlier;

use archive_state::{Changes, Numbered, View};
use record_kinds::Record;
use record_text::RefusalKind;
use std::alloc::{AllocError, Global};

/// The records that stand, before changes are made, at the numbers that get another record, and then at those that
/// lose theirs. At a number that gets its first record none stands.
pub fn overwritten<V: View>(
    alloc: Global,
    view: &mut V,
    changes: &Changes,
) -> Result<Vec<Numbered>, RefusalKind>
    ensures shows { On V.View view.old view.new
        (λ c. Looked result (λ rows. rows.items ≡ earlier.earlier c.records changes.now)) }
    ensures counts { CountsFailures (V.failed view.old) (V.failed view.new) result }
{
    let mut rows = Vec::new(alloc);
    push_replaced(alloc, view, &mut rows, &changes.puts)?;
    push_removed(alloc, view, &mut rows, &changes.removals)?;
    Ok(rows)
}

/// Adds the records that stand at the numbers that get another one.
fn push_replaced<V: View>(
    alloc: Global,
    view: &mut V,
    rows: &mut Vec<Numbered>,
    puts: &[Numbered],
) -> Result<(), RefusalKind>
    ensures shows { On V.View view.old view.new (λ c. Looked result (λ _. rows.new.items ≡ rows.old.items
        ++ earlier.replaced c.records puts.now)) }
    ensures counts { CountsFailures (V.failed view.old) (V.failed view.new) result }
{
    'puts: for put in puts {
        push_standing(alloc, view, rows, put.number)?;
    }
    Ok(())
}

/// Adds the records that stand at these numbers.
fn push_removed<V: View>(
    alloc: Global,
    view: &mut V,
    rows: &mut Vec<Numbered>,
    numbers: &[u32],
) -> Result<(), RefusalKind>
    ensures shows { On V.View view.old view.new (λ c. Looked result (λ _. rows.new.items ≡ rows.old.items
        ++ earlier.standing c.records numbers.now)) }
    ensures counts { CountsFailures (V.failed view.old) (V.failed view.new) result }
{
    'numbers: for number in numbers {
        push_standing(alloc, view, rows, *number)?;
    }
    Ok(())
}

/// Adds the record of a number, where one stands.
fn push_standing<V: View>(
    alloc: Global,
    view: &mut V,
    rows: &mut Vec<Numbered>,
    number: u32,
) -> Result<(), RefusalKind>
    ensures shows { On V.View view.old view.new (λ c. Looked result (λ _. rows.new.items ≡ rows.old.items
        ++ earlier.standing_at c.records number)) }
    ensures counts { CountsFailures (V.failed view.old) (V.failed view.new) result }
{
    let found = view.record_at(alloc, number)?;
    Ok(push_found(rows, number, found)?)
}

/// Adds what was found at a number.
fn push_found(
    rows: &mut Vec<Numbered>,
    number: u32,
    found: Option<Record>,
) -> Result<(), AllocError>
    ensures { IfOk result (λ _. rows.new.items ≡ rows.old.items ++ earlier.found_at number found) }
{
    if let Some(record) = found {
        rows.push(Numbered { number, record })?;
    }
    Ok(())
}
