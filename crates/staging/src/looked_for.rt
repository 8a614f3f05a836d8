//! What the records are looked for by that an import puts.

ghost use Rattle.std.specs.Prelude.{◌≡◌, ◌++◌, IfOk, OnOk, map};
ghost use Rattle.std.specs.List.{flat_map};
ghost use Rattle.staged_rows.specs.Staging.{row_of_sought, sought_row};
ghost use Rattle.staging.specs.Opened.{row_of_sought_row};

use archive_state::Numbered;
use std::alloc::{AllocError, Global};
use store_rows::{SoughtText, sought_of};
use store_tables::SoughtRow;

/// What these records are looked for by, in their order: of those that are looked for.
pub(crate) fn soughts_of_puts(
    alloc: Global,
    puts: &[Numbered],
) -> Result<Vec<SoughtRow>, AllocError>
    ensures { IfOk result (λ found. map row_of_sought_row found.items ≡ flat_map sought_row puts.now) }
{
    let mut found = Vec::new(alloc);
    'puts: for put in puts {
        push_sought(alloc, put, &mut found)?;
    }
    Ok(found)
}

/// Adds what a record is looked for by, where it is looked for.
fn push_sought(alloc: Global, put: &Numbered, found: &mut Vec<SoughtRow>) -> Result<(), AllocError>
    ensures { OnOk result (map row_of_sought_row found.new.items
        ≡ map row_of_sought_row found.old.items ++ sought_row put.now) }
{
    let sought = sought_of(alloc, &put.record)?;
    push_if(found, put.number, sought)
}

/// Adds what a number is looked for by, where there is something.
fn push_if(
    found: &mut Vec<SoughtRow>,
    number: u32,
    sought: Option<SoughtText>,
) -> Result<(), AllocError>
    ensures { OnOk result (map row_of_sought_row found.new.items
        ≡ map row_of_sought_row found.old.items ++ row_of_sought number sought) }
{
    if let Some(sought) = sought {
        found.push(SoughtRow {
            number,
            text: sought.text,
            target: sought.target,
        })?;
    }
    Ok(())
}
