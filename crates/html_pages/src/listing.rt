//! Lists of items: how those of each kind stand in a page, and a section with such a list.

ghost use Rattle.std.specs.Prelude.{◌≡◌, ◌++◌, List, OnOk};
ghost use Rattle.std.specs.List.{flat_map};
ghost use Rattle.sheets.specs.Gathered.{Gathered, gathered};
ghost use Rattle.html_parts.specs.declared.part.Part.{Part};
ghost use Rattle.html_pages.specs.Items.{section};

use crate::library::HtmlLibrary;
use html_parts::Parts;
use std::alloc::{AllocError, Global};

/// How the items of a kind stand in a list.
pub trait Listing<T> {
    ghost parts: { Self → Gathered → T → List Part };

    /// Appends an item. Refused only if out of memory, as are all calls.
    fn push(
        &self,
        alloc: Global,
        out: &mut Parts,
        library: &HtmlLibrary,
        item: &T,
    ) -> Result<(), AllocError>
        ensures { OnOk result (out.new ≡ out.old
            ++ parts self.now (gathered library.now.records) item.now) };
}

/// Appends items, in their order.
pub fn push_items<T, L: Listing<T>>(
    alloc: Global,
    out: &mut Parts,
    library: &HtmlLibrary,
    listing: &L,
    items: &[T],
) -> Result<(), AllocError>
    ensures { OnOk result (out.new ≡ out.old
        ++ flat_map (L.parts listing.now (gathered library.now.records)) items.now) }
{
    'items: for item in items {
        listing.push(alloc, out, library, item)?;
    }
    Ok(())
}

/// Appends a heading and a list of items, where they have parts.
pub fn push_section<T, L: Listing<T>>(
    alloc: Global,
    out: &mut Parts,
    library: &HtmlLibrary,
    heading: &str,
    listing: &L,
    items: &[T],
) -> Result<(), AllocError>
    ensures { OnOk result (out.new ≡ out.old
        ++ section heading.now (L.parts listing.now (gathered library.now.records)) items.now) }
{
    let mut list = Parts::new(alloc);
    push_items(alloc, &mut list, library, listing, items)?;
    out.section(alloc, heading, list)
}
