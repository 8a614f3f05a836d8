//! What records add to other records.

ghost use Rattle.std.specs.Prelude.{◌≡◌, ◌==◌, ◌++◌, ◌∷◌, [], map, IfOk, OnOk};
ghost use Rattle.std.specs.List.{filter};
ghost use Rattle.std.specs.List.Sorted.{IsNonDecreasingBy};
ghost use Rattle.gedcom_export.specs.Owned.{IsArrangedBy};
ghost use Rattle.plain_export.specs.Added as adding;
ghost use Rattle.plain_export.specs.declared.added.Added as declared;

use std::alloc::{AllocError, Global};
use stored_lines::Carried;

/// A line that is added to a record.
pub struct Added {
    /// The number of the record.
    pub number: u32,
    pub line: Carried,
}

// It is written out, so that no function above proves again how each part is dropped.
impl Drop for Added {
    fn drop(self) {
        let Added { number: _, line: _ } = self;
    }
}

/// Adds a line to a record.
pub(crate) fn add(added: &mut Vec<Added>, number: u32, line: Carried) -> Result<(), AllocError>
    ensures { OnOk result (added.new.items ≡ added.old.items ++ adding.add number line ∷ []) }
{
    added.push(Added { number, line })?;
    Ok(())
}

/// Puts the numbers in ascending order; what is added to one of them stays in its order.
pub(crate) fn sort_added(added: &mut Vec<Added>) -> Result<(), AllocError>
    ensures { OnOk result (IsArrangedBy (λ (x : declared.Added). x.number) added.old.items added.new.items) }
{
    added.sort_by_key(|x| x.number)?;
    Ok(())
}

/// What is added to a record. Takes no memory.
fn added_to(added: &[Added], number: u32) -> &[Added]
    ensures { IsNonDecreasingBy (λ (x : declared.Added). x.number) added.now
        → result.now ≡ filter (λ (x : declared.Added). x.number == number) added.now }
{
    let from = added.partition_point(|x| x.number < number);
    let rest = &added[from..];
    let count = rest.partition_point(|x| x.number <= number);
    &rest[..count]
}

/// The lines that are added to a record.
pub(crate) fn lines_of(
    alloc: Global,
    added: &[Added],
    number: u32,
) -> Result<Vec<Carried>, AllocError>
    ensures { IsNonDecreasingBy (λ (x : declared.Added). x.number) added.now
        → IfOk result (λ made. made.items ≡ adding.lines_of number added.now) }
{
    copied(alloc, added_to(added, number))
}

/// The lines of what is added, in memory of their own.
fn copied(alloc: Global, added: &[Added]) -> Result<Vec<Carried>, AllocError>
    ensures { IfOk result (λ made. made.items ≡ map (λ (x : declared.Added). x.line) added.now) }
{
    let mut made = Vec::new(alloc);
    'added: for x in added {
        made.push(x.line.copy(alloc)?)?;
    }
    Ok(made)
}
