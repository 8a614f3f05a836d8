//! What a record owns.

ghost use Rattle.std.specs.Prelude.{◌≡◌, ◌==◌, OnOk};
ghost use Rattle.std.specs.List.{filter};
ghost use Rattle.std.specs.List.Sorted.{IsNonDecreasingBy};
ghost use Rattle.gedcom_export.specs.Owned.{IsArrangedBy};
ghost use Rattle.gedcom_export.specs.declared.index_owned.Owned as declared;

use std::alloc::AllocError;

/// An event or a citation, with the record that it is of.
#[derive(Clone, Copy)]
pub struct Owned {
    /// The number of the record that it is of.
    pub owner: u32,
    pub number: u32,
}

/// Puts the owners in ascending order; what one of them owns stays in its order.
pub(crate) fn sort_owned(owned: &mut Vec<Owned>) -> Result<(), AllocError>
    ensures { OnOk result (IsArrangedBy (λ (o : declared.Owned). o.owner) owned.old.items owned.new.items) }
{
    owned.sort_by_key(|o| o.owner)?;
    Ok(())
}

/// What a record owns. Takes no memory.
pub(crate) fn owned_by(owned: &[Owned], owner: u32) -> &[Owned]
    ensures { IsNonDecreasingBy (λ (o : declared.Owned). o.owner) owned.now
        → result.now ≡ filter (λ (o : declared.Owned). o.owner == owner) owned.now }
{
    let from = owned.partition_point(|o| o.owner < owner);
    let rest = &owned[from..];
    let count = rest.partition_point(|o| o.owner <= owner);
    &rest[..count]
}
