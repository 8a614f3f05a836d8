//! Repositories, sources and places.

ghost use Rattle.std.specs.Prelude.{◌≡◌, ◌++◌, ◌∷◌, [], map, OnOk, string_bytes};
ghost use Rattle.record_shapes.specs.Shapes.{holding_line, loc_lines, place_lines, repo_lines, source_lines};
ghost use Rattle.node_writing.specs.Pages.{page};

use crate::lines::{push_carried, push_maybe, push_pointer, push_words};
use crate::named::Named;
use record_kinds::{Holding, Place, Repo, Source};
use std::alloc::{AllocError, Global};

/// Appends what is below a repository (GEDCOM 5.5.1, chapter 2, REPOSITORY_RECORD).
pub fn push_repo<N: Named>(
    alloc: Global,
    out: &mut String,
    index: &N,
    repo: &Repo,
) -> Result<(), AllocError>
    ensures { OnOk result (string_bytes out.new ≡ string_bytes out.old
        ++ page (N.names index.now) 1 (repo_lines repo.now)) }
{
    push_maybe(alloc, out, index, 1, "NAME", &repo.name)?;
    push_carried(alloc, out, index, 1, &repo.carried)
}

/// Appends where a source is kept.
fn push_holding<N: Named>(
    alloc: Global,
    out: &mut String,
    index: &N,
    holding: &Holding,
) -> Result<(), AllocError>
    ensures { OnOk result (string_bytes out.new ≡ string_bytes out.old
        ++ page (N.names index.now) 1 (holding_line holding.now ∷ [])) }
{
    push_pointer(alloc, out, index, 1, "REPO", holding.repo)?;
    push_maybe(alloc, out, index, 2, "CALN", &holding.call_number)?;
    push_carried(alloc, out, index, 2, &holding.carried)
}

/// Appends where a source is kept, for each place.
fn push_holdings<N: Named>(
    alloc: Global,
    out: &mut String,
    index: &N,
    holdings: &[Holding],
) -> Result<(), AllocError>
    ensures { OnOk result (string_bytes out.new ≡ string_bytes out.old
        ++ page (N.names index.now) 1 (map holding_line holdings.now)) }
{
    'holdings: for holding in holdings {
        push_holding(alloc, out, index, holding)?;
    }
    Ok(())
}

/// Appends what is below a source (GEDCOM 5.5.1, chapter 2, SOURCE_RECORD).
pub fn push_source<N: Named>(
    alloc: Global,
    out: &mut String,
    index: &N,
    source: &Source,
) -> Result<(), AllocError>
    ensures { OnOk result (string_bytes out.new ≡ string_bytes out.old
        ++ page (N.names index.now) 1 (source_lines source.now)) }
{
    push_maybe(alloc, out, index, 1, "TITL", &source.title)?;
    push_maybe(alloc, out, index, 1, "AUTH", &source.author)?;
    push_maybe(alloc, out, index, 1, "PUBL", &source.publisher)?;
    push_holdings(alloc, out, index, &source.holdings)?;
    push_carried(alloc, out, index, 1, &source.carried)
}

/// Appends the line of the place that a place is within, where there is one.
fn push_parent<N: Named>(
    alloc: Global,
    out: &mut String,
    index: &N,
    parent: Option<u32>,
) -> Result<(), AllocError>
    ensures { OnOk result (string_bytes out.new ≡ string_bytes out.old
        ++ page (N.names index.now) 1 (loc_lines parent)) }
{
    match parent {
        Some(parent) => push_pointer(alloc, out, index, 1, "_LOC", parent),
        None => Ok(()),
    }
}

/// Appends what is below a place: a record of our own.
pub fn push_place<N: Named>(
    alloc: Global,
    out: &mut String,
    index: &N,
    place: &Place,
) -> Result<(), AllocError>
    ensures { OnOk result (string_bytes out.new ≡ string_bytes out.old
        ++ page (N.names index.now) 1 (place_lines place.now)) }
{
    push_words(alloc, out, index, 1, "NAME", place.name.as_str())?;
    push_parent(alloc, out, index, place.parent)?;
    push_carried(alloc, out, index, 1, &place.carried)
}
