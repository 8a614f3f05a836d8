//! What is put back of places, repositories, sources and citations.

ghost use Rattle.std.specs.Prelude.{◌≡◌, ◌++◌, OnOk};
ghost use Rattle.put_back.specs.Sources as sources;

use crate::row::{Row, put, put_number, text_cell};
use record_fields::Quality;
use record_kinds::{Citation, Holding, Place, Repo, Source};
use record_text::Text;
use std::alloc::{AllocError, Global};

pub(crate) fn push_place(
    alloc: Global,
    out: &mut Vec<Row>,
    number: u32,
    old: &Place,
    now: &Place,
) -> Result<(), AllocError>
    ensures { OnOk result (out.new.items ≡ out.old.items ++ sources.place_back number old.now now.now) }
{
    put(
        alloc,
        out,
        number,
        "name",
        old.name.as_str(),
        now.name.as_str(),
    )
}

/// A text that may be missing: no row takes it away where it was missing before.
fn push_some(
    alloc: Global,
    out: &mut Vec<Row>,
    number: u32,
    word: &str,
    old: &Option<Text>,
    now: &Option<Text>,
) -> Result<(), AllocError>
    ensures { OnOk result (out.new.items ≡ out.old.items ++ sources.some_back number word.now old.now now.now) }
{
    match old {
        None => Ok(()),
        Some(old) => put(alloc, out, number, word, old.as_str(), text_cell(now)),
    }
}

pub(crate) fn push_repo(
    alloc: Global,
    out: &mut Vec<Row>,
    number: u32,
    old: &Repo,
    now: &Repo,
) -> Result<(), AllocError>
    ensures { OnOk result (out.new.items ≡ out.old.items ++ sources.repo_back number old.now now.now) }
{
    push_some(alloc, out, number, "name", &old.name, &now.name)
}

pub(crate) fn push_source(
    alloc: Global,
    out: &mut Vec<Row>,
    number: u32,
    old: &Source,
    now: &Source,
) -> Result<(), AllocError>
    ensures { OnOk result (out.new.items ≡ out.old.items ++ sources.source_back number old.now now.now) }
{
    push_some(alloc, out, number, "title", &old.title, &now.title)?;
    put(
        alloc,
        out,
        number,
        "author",
        text_cell(&old.author),
        text_cell(&now.author),
    )?;
    put(
        alloc,
        out,
        number,
        "publisher",
        text_cell(&old.publisher),
        text_cell(&now.publisher),
    )?;
    push_holdings(alloc, out, number, &old.holdings, &now.holdings)
}

/// A call number needs a repository, so that one comes first, and is taken away last.
fn push_holdings(
    alloc: Global,
    out: &mut Vec<Row>,
    number: u32,
    old: &[Holding],
    now: &[Holding],
) -> Result<(), AllocError>
    ensures { OnOk result (out.new.items ≡ out.old.items ++ sources.holdings_back number old.now now.now) }
{
    if old.is_empty() {
        push_call(alloc, out, number, old, now)?;
        return push_held(alloc, out, number, old, now);
    }
    push_held(alloc, out, number, old, now)?;
    push_call(alloc, out, number, old, now)
}

fn push_held(
    alloc: Global,
    out: &mut Vec<Row>,
    number: u32,
    old: &[Holding],
    now: &[Holding],
) -> Result<(), AllocError>
    ensures { OnOk result (out.new.items ≡ out.old.items ++ sources.held_put number old.now now.now) }
{
    put_number(alloc, out, number, "repository", held(old), held(now))
}

fn push_call(
    alloc: Global,
    out: &mut Vec<Row>,
    number: u32,
    old: &[Holding],
    now: &[Holding],
) -> Result<(), AllocError>
    ensures { OnOk result (out.new.items ≡ out.old.items ++ sources.call_put number old.now now.now) }
{
    put(
        alloc,
        out,
        number,
        "call number",
        call_cell(old),
        call_cell(now),
    )
}

fn held(holdings: &[Holding]) -> Option<u32>
    ensures { result ≡ sources.held holdings.now }
{
    match holdings.first() {
        None => None,
        Some(holding) => Some(holding.repo),
    }
}

fn call_cell(holdings: &[Holding]) -> &str
    ensures { result.now ≡ sources.call_cell holdings.now }
{
    match holdings.first() {
        None => "",
        Some(holding) => text_cell(&holding.call_number),
    }
}

pub(crate) fn push_citation(
    alloc: Global,
    out: &mut Vec<Row>,
    number: u32,
    old: &Citation,
    now: &Citation,
) -> Result<(), AllocError>
    ensures { OnOk result (out.new.items ≡ out.old.items ++ sources.citation_back number old.now now.now) }
{
    put(
        alloc,
        out,
        number,
        "page",
        text_cell(&old.page),
        text_cell(&now.page),
    )?;
    put(
        alloc,
        out,
        number,
        "quality",
        quality_cell(old.quality),
        quality_cell(now.quality),
    )
}

fn quality_cell(quality: Option<Quality>) -> &'static str
    ensures { result.now ≡ sources.quality_cell quality }
{
    match quality {
        None => "",
        Some(quality) => quality.as_str(),
    }
}
