//! Maps under numbers, seen as the finite maps of their entries.

ghost use Rattle.std.specs.Prelude.{◌≡◌, OnOk};
ghost use Rattle.std.specs.FinMap as map;
ghost use Rattle.gedcom_export.specs.Keyed.{keyed};

use crate::place_name::PlaceName;
use crate::rank::Rank;
use std::alloc::AllocError;
use std::collections::BTreeMap;

pub(crate) fn put_rank(
    ranks: &mut BTreeMap<u32, Rank>,
    number: u32,
    rank: Rank,
) -> Result<(), AllocError>
    ensures { OnOk result (keyed ranks.new.entries
        ≡ map.insert (keyed ranks.old.entries) number rank) }
{
    ranks.insert(number, rank)?;
    Ok(())
}

pub(crate) fn put_name(
    names: &mut BTreeMap<u32, PlaceName>,
    number: u32,
    name: PlaceName,
) -> Result<(), AllocError>
    ensures { OnOk result (keyed names.new.entries
        ≡ map.insert (keyed names.old.entries) number name) }
{
    names.insert(number, name)?;
    Ok(())
}
