//! The rows of records, slips and doubts, and the table of register entries.

ghost use Rattle.std.specs.Prelude.{◌≡◌, ◌∷◌, ◌++◌, [], IfOk, OnOk, codes};
ghost use Rattle.std.specs.FinMap as map;
ghost use Rattle.std.specs.List.{flat_map};
ghost use Rattle.archive_state.specs.Looks.{CountsFailures, Looked};
ghost use Rattle.archive_state.specs.Views.{On};
ghost use Rattle.doubts.specs.Doubts as doubts;
ghost use Rattle.searching.specs.Lines as lines;
ghost use Rattle.showing.specs.SlipLists as slip_lists;
ghost use Rattle.record_lists.specs.Texts as texts;

use crate::lines::lines_text;
use crate::listed::{Chosen, Listed};
use archive_state::View;
use doubts::review_archive;
use entry_tables::{Numbered, table};
use kind_views::KindView;
use list_rows::{push_numbered, push_pair};
use record_kinds::{Entry, Record};
use record_text::RefusalKind;
use searching::{Found, Line, Listing, page, page_and_others};
use showing::slip_page;
use std::alloc::{AllocError, Global};

/// What is listed, as lines or as rows of CSV. Nothing is changed.
pub fn list_text<V: KindView>(
    alloc: Global,
    view: &mut V,
    listed: &Listed,
) -> Result<Vec<u8>, RefusalKind>
    ensures shows { On V.View view.old view.new (λ c. Looked result
        (λ text. text.items ≡ texts.list_text listed.now c)) }
    ensures counts { CountsFailures (V.View.failed view.old) (V.View.failed view.new) result }
{
    if listed.is_csv {
        rows_text(alloc, view, &listed.of)
    } else {
        lines_bytes(alloc, view, &listed.of)
    }
}

/// The lines of what is listed.
fn lines_bytes<V: KindView>(
    alloc: Global,
    view: &mut V,
    chosen: &Chosen,
) -> Result<Vec<u8>, RefusalKind>
    ensures shows { On V.View view.old view.new (λ c. Looked result
        (λ text. text.items ≡ texts.lines_text chosen.now c)) }
    ensures counts { CountsFailures (V.View.failed view.old) (V.View.failed view.new) result }
{
    let text = lines_text(alloc, view, chosen)?;
    Ok(text.into_bytes())
}

/// The rows of what is listed.
fn rows_text<V: KindView>(
    alloc: Global,
    view: &mut V,
    chosen: &Chosen,
) -> Result<Vec<u8>, RefusalKind>
    ensures shows { On V.View view.old view.new (λ c. Looked result
        (λ text. text.items ≡ texts.rows_text chosen.now c)) }
    ensures counts { CountsFailures (V.View.failed view.old) (V.View.failed view.new) result }
{
    match chosen {
        Chosen::Records { listing } => records_rows(alloc, view, listing),
        Chosen::Slips { after, limit } => slip_rows(alloc, view, *after, *limit),
        Chosen::Doubts => doubt_rows(alloc, view),
    }
}

/// The rows of slips.
fn slip_rows<V: View>(
    alloc: Global,
    view: &mut V,
    after: u32,
    limit: usize,
) -> Result<Vec<u8>, RefusalKind>
    ensures shows { On V.View view.old view.new (λ c. Looked result
        (λ text. text.items ≡ texts.line_rows (codes "description") (slip_lists.slip_page after limit c))) }
    ensures counts { CountsFailures (V.failed view.old) (V.failed view.new) result }
{
    let lines = slip_page(alloc, view, after, limit)?;
    Ok(line_rows(alloc, b"description", &lines)?)
}

/// The rows of what is doubtful.
fn doubt_rows<V: View>(alloc: Global, view: &mut V) -> Result<Vec<u8>, RefusalKind>
    ensures shows { On V.View view.old view.new (λ c. Looked result
        (λ text. text.items ≡ texts.line_rows (codes "doubt") (doubts.review c))) }
    ensures counts { CountsFailures (V.failed view.old) (V.failed view.new) result }
{
    let lines = review_archive(alloc, view)?;
    Ok(line_rows(alloc, b"doubt", &lines)?)
}

/// The rows of records: those of a source are a table.
fn records_rows<V: KindView>(
    alloc: Global,
    view: &mut V,
    listing: &Listing,
) -> Result<Vec<u8>, RefusalKind>
    ensures shows { On V.View view.old view.new (λ c. Looked result
        (λ text. text.items ≡ texts.records_rows listing.now c)) }
    ensures counts { CountsFailures (V.View.failed view.old) (V.View.failed view.new) result }
{
    if listing.wanted.source.is_some() {
        entry_table(alloc, view, listing)
    } else {
        described_rows(alloc, view, listing)
    }
}

/// A row for each record, and how many are left out where that is asked for.
fn described_rows<V: KindView>(
    alloc: Global,
    view: &mut V,
    listing: &Listing,
) -> Result<Vec<u8>, RefusalKind>
    ensures shows { On V.View view.old view.new (λ c. Looked result
        (λ text. text.items ≡ texts.described_rows listing.now c)) }
    ensures counts { CountsFailures (V.View.failed view.old) (V.View.failed view.new) result }
{
    if listing.counts_others {
        counted_rows(alloc, view, listing)
    } else {
        page_rows(alloc, view, listing)
    }
}

/// The rows, whatever is left out.
fn page_rows<V: KindView>(
    alloc: Global,
    view: &mut V,
    listing: &Listing,
) -> Result<Vec<u8>, RefusalKind>
    ensures shows { On V.View view.old view.new (λ c. Looked result (λ text. text.items ≡ texts.line_rows
        (codes "description")
        (lines.page listing.now.wanted listing.now.after listing.now.limit (map.entries c.records)))) }
    ensures counts { CountsFailures (V.View.failed view.old) (V.View.failed view.new) result }
{
    let lines = page(alloc, view, &listing.wanted, listing.after, listing.limit)?;
    Ok(line_rows(alloc, b"description", &lines)?)
}

/// The rows, and how many records are left out.
fn counted_rows<V: KindView>(
    alloc: Global,
    view: &mut V,
    listing: &Listing,
) -> Result<Vec<u8>, RefusalKind>
    ensures shows { On V.View view.old view.new (λ c. Looked result (λ text. text.items ≡ texts.counted_rows
        (lines.page_and_others listing.now.wanted listing.now.after listing.now.limit (map.entries c.records)))) }
    ensures counts { CountsFailures (V.View.failed view.old) (V.View.failed view.new) result }
{
    let found = page_and_others(alloc, view, &listing.wanted, listing.after, listing.limit)?;
    Ok(found_rows(alloc, &found)?)
}

fn found_rows(alloc: Global, found: &Found) -> Result<Vec<u8>, AllocError>
    ensures { IfOk result (λ text. text.items ≡ texts.counted_rows found.now) }
{
    let mut out = line_rows(alloc, b"description", &found.lines)?;
    push_more(alloc, &mut out, found.others.len())?;
    Ok(out)
}

/// How many records are left out, where there are some.
fn push_more(alloc: Global, out: &mut Vec<u8>, more: usize) -> Result<(), AllocError>
    ensures { OnOk result (out.new.items ≡ out.old.items ++ texts.more_row more) }
{
    if more > 0 {
        let words = format!(in alloc; "and {more} more")?;
        push_pair(alloc, out, b"", words.as_bytes())?;
    }
    Ok(())
}

/// A header, and a row for each line.
#[tactic(auto, unfolding(crate::specs::Texts::line_rows))]
fn line_rows(alloc: Global, said: &[u8], lines: &[Line]) -> Result<Vec<u8>, AllocError>
    ensures { IfOk result (λ text. text.items ≡ texts.line_rows said.now lines.now) }
{
    let mut out = Vec::new(alloc);
    push_pair(alloc, &mut out, b"number", said)?;
    push_rows(alloc, &mut out, lines)?;
    Ok(out)
}

fn push_rows(alloc: Global, out: &mut Vec<u8>, lines: &[Line]) -> Result<(), AllocError>
    ensures { OnOk result (out.new.items
        ≡ out.old.items ++ flat_map texts.line_row lines.now) }
{
    'each: for line in lines {
        push_line(alloc, out, line)?;
    }
    Ok(())
}

fn push_line(alloc: Global, out: &mut Vec<u8>, line: &Line) -> Result<(), AllocError>
    ensures { OnOk result (out.new.items ≡ out.old.items ++ texts.line_row line.now) }
{
    push_numbered(alloc, out, line.number, &line.text)
}

/// The register entries of a source, with the columns of a page.
fn entry_table<V: KindView>(
    alloc: Global,
    view: &mut V,
    listing: &Listing,
) -> Result<Vec<u8>, RefusalKind>
    ensures shows { On V.View view.old view.new (λ c. Looked result
        (λ text. text.items ≡ texts.entry_table listing.now c)) }
    ensures counts { CountsFailures (V.View.failed view.old) (V.View.failed view.new) result }
{
    let entries = listed_entries(alloc, view, listing)?;
    Ok(table(alloc, &entries)?)
}

/// The register entries among what is listed, in its order.
fn listed_entries<V: KindView>(
    alloc: Global,
    view: &mut V,
    listing: &Listing,
) -> Result<Vec<Numbered>, RefusalKind>
    ensures shows { On V.View view.old view.new (λ c. Looked result
        (λ found. found.items ≡ texts.listed_entries listing.now c)) }
    ensures counts { CountsFailures (V.View.failed view.old) (V.View.failed view.new) result }
{
    let lines = page(alloc, view, &listing.wanted, listing.after, listing.limit)?;
    let found = entries_of(alloc, view, &lines)?;
    Ok(found)
}

/// The register entries at the numbers of lines.
fn entries_of<V: View>(
    alloc: Global,
    view: &mut V,
    lines: &[Line],
) -> Result<Vec<Numbered>, RefusalKind>
    ensures shows { On V.View view.old view.new (λ c. Looked result
        (λ found. found.items ≡ texts.entries_of c.records lines.now)) }
    ensures counts { CountsFailures (V.failed view.old) (V.failed view.new) result }
{
    let mut found = Vec::new(alloc);
    'each: for line in lines {
        push_of(alloc, view, &mut found, line)?;
    }
    Ok(found)
}

/// Adds what stands at the number of a line, if it is a register entry.
fn push_of<V: View>(
    alloc: Global,
    view: &mut V,
    found: &mut Vec<Numbered>,
    line: &Line,
) -> Result<(), RefusalKind>
    ensures shows { On V.View view.old view.new (λ c. Looked result (λ _. found.new.items
        ≡ found.old.items ++ texts.entry_at line.now.0 (map.get c.records line.now.0))) }
    ensures counts { CountsFailures (V.failed view.old) (V.failed view.new) result }
{
    push_at(alloc, view, found, line.number)
}

/// Adds what stands at a number, if it is a register entry.
fn push_at<V: View>(
    alloc: Global,
    view: &mut V,
    found: &mut Vec<Numbered>,
    number: u32,
) -> Result<(), RefusalKind>
    ensures shows { On V.View view.old view.new (λ c. Looked result (λ _. found.new.items
        ≡ found.old.items ++ texts.entry_at number (map.get c.records number))) }
    ensures counts { CountsFailures (V.failed view.old) (V.failed view.new) result }
{
    let there = view.record_at(alloc, number)?;
    match push_entry(found, number, there) {
        Ok(()) => Ok(()),
        Err(_) => Err(RefusalKind::OutOfMemory),
    }
}

fn push_entry(
    found: &mut Vec<Numbered>,
    number: u32,
    there: Option<Record>,
) -> Result<(), AllocError>
    ensures { OnOk result (found.new.items ≡ found.old.items ++ texts.entry_at number there) }
{
    match there {
        None => Ok(()),
        Some(record) => push_record(found, number, record),
    }
}

fn push_record(found: &mut Vec<Numbered>, number: u32, record: Record) -> Result<(), AllocError>
    ensures { OnOk result (found.new.items ≡ found.old.items ++ texts.entry_of number «record») }
{
    match record {
        Record::Entry(entry) => push_numbered_entry(found, number, entry),
        _ => Ok(()),
    }
}

fn push_numbered_entry(
    found: &mut Vec<Numbered>,
    number: u32,
    entry: Entry,
) -> Result<(), AllocError>
    ensures { OnOk result (found.new.items ≡ found.old.items ++ (number, entry) ∷ []) }
{
    found.push(Numbered { number, entry })?;
    Ok(())
}
