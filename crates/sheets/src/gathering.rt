//! What belongs to each record of a masked state.

ghost use Rattle.std.specs.Prelude.{IfOk};
ghost use Rattle.std.specs.FinMap as map;
ghost use Rattle.archive_state.specs.Sound.{IsSound};
ghost use Rattle.gedcom_export.specs.Index.{IsArranged, IsIndexOf};

use gedcom_export::Index;
use masking::Shown;
use std::alloc::{AllocError, Global};

/// The index of all masked records, none of which is copied.
pub(crate) fn index_of(alloc: Global, shown: &Shown) -> Result<Index, AllocError>
    ensures shows { IsSound shown.now → IfOk result (λ index. IsIndexOf (map.entries shown.now.records) index) }
    ensures arranged { IfOk result (λ index. IsArranged index) }
{
    gedcom_export::index_of(alloc, shown.as_state())
}
