//! The fields of places, repositories, sources and citations.

ghost use Rattle.std.specs.Prelude.{◌≡◌, ◌++◌, OnOk, string_bytes};
ghost use Rattle.std.specs.List.{flat_map};
ghost use Rattle.showing.specs.Fields as fields;

use crate::fields::{push_below, push_maybe_number, push_number, push_option, push_text};
use record_fields::Quality;
use record_kinds::{Citation, Holding, Place, Repo, Source};
use std::alloc::{AllocError, Global};

pub(crate) fn push_place(alloc: Global, out: &mut String, place: &Place) -> Result<(), AllocError>
    ensures { OnOk result (string_bytes out.new ≡ string_bytes out.old ++ fields.place_fields place.now) }
{
    push_text(out, "name", place.name.as_str())?;
    push_maybe_number(out, "within", place.parent)?;
    push_below(alloc, out, 1, &place.carried)
}

pub(crate) fn push_repo(alloc: Global, out: &mut String, repo: &Repo) -> Result<(), AllocError>
    ensures { OnOk result (string_bytes out.new ≡ string_bytes out.old ++ fields.repo_fields repo.now) }
{
    push_option(out, "name", &repo.name)?;
    push_below(alloc, out, 1, &repo.carried)
}

pub(crate) fn push_source(
    alloc: Global,
    out: &mut String,
    source: &Source,
) -> Result<(), AllocError>
    ensures { OnOk result (string_bytes out.new ≡ string_bytes out.old ++ fields.source_fields source.now) }
{
    push_option(out, "title", &source.title)?;
    push_option(out, "author", &source.author)?;
    push_option(out, "publisher", &source.publisher)?;
    push_holdings(alloc, out, &source.holdings)?;
    push_below(alloc, out, 1, &source.carried)
}

fn push_holdings(alloc: Global, out: &mut String, holdings: &[Holding]) -> Result<(), AllocError>
    ensures { OnOk result (string_bytes out.new ≡ string_bytes out.old ++ flat_map fields.holding_field holdings.now) }
{
    'each: for holding in holdings {
        push_holding(alloc, out, holding)?;
    }
    Ok(())
}

fn push_holding(alloc: Global, out: &mut String, holding: &Holding) -> Result<(), AllocError>
    ensures { OnOk result (string_bytes out.new ≡ string_bytes out.old ++ fields.holding_field holding.now) }
{
    push_number(out, "repository", holding.repo)?;
    push_option(out, "call number", &holding.call_number)?;
    push_below(alloc, out, 2, &holding.carried)
}

pub(crate) fn push_citation(
    alloc: Global,
    out: &mut String,
    citation: &Citation,
) -> Result<(), AllocError>
    ensures { OnOk result (string_bytes out.new ≡ string_bytes out.old ++ fields.citation_fields citation.now) }
{
    push_number(out, "of", citation.owner)?;
    push_number(out, "source", citation.source)?;
    push_option(out, "page", &citation.page)?;
    push_quality(out, citation.quality)?;
    push_below(alloc, out, 2, &citation.carried)
}

fn push_quality(out: &mut String, quality: Option<Quality>) -> Result<(), AllocError>
    ensures { OnOk result (string_bytes out.new ≡ string_bytes out.old ++ fields.quality_field quality) }
{
    match quality {
        None => Ok(()),
        Some(quality) => push_text(out, "quality", quality.as_str()),
    }
}
