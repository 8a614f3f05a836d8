//! The lines of records, slips and doubts, as a text.

ghost use Rattle.std.specs.Prelude.{◌≡◌, ◌++◌, IfOk, OnOk, string_bytes};
ghost use Rattle.std.specs.FinMap.{entries};
ghost use Rattle.std.specs.List.{flat_map};
ghost use Rattle.archive_state.specs.Looks.{CountsFailures, Looked};
ghost use Rattle.archive_state.specs.Views.{On};
ghost use Rattle.doubts.specs.Doubts as doubts;
ghost use Rattle.searching.specs.Lines as lines;
ghost use Rattle.showing.specs.SlipLists as slip_lists;
ghost use Rattle.record_lists.specs.Texts as texts;

use crate::listed::Chosen;
use archive_state::View;
use doubts::review_archive;
use kind_views::KindView;
use record_text::RefusalKind;
use searching::{Found, Line, Listing, page, page_and_others};
use showing::slip_page;
use std::alloc::{AllocError, Global};

/// The lines of what is listed, by number.
pub(crate) fn lines_text<V: KindView>(
    alloc: Global,
    view: &mut V,
    chosen: &Chosen,
) -> Result<String, RefusalKind>
    ensures shows { On V.View view.old view.new (λ c. Looked result
        (λ text. string_bytes text ≡ texts.lines_text chosen.now c)) }
    ensures counts { CountsFailures (V.View.failed view.old) (V.View.failed view.new) result }
{
    match chosen {
        Chosen::Records { listing } => records_text(alloc, view, listing),
        Chosen::Slips { after, limit } => slips_text(alloc, view, *after, *limit),
        Chosen::Doubts => doubts_text(alloc, view),
    }
}

/// The lines of slips.
fn slips_text<V: View>(
    alloc: Global,
    view: &mut V,
    after: u32,
    limit: usize,
) -> Result<String, RefusalKind>
    ensures shows { On V.View view.old view.new (λ c. Looked result
        (λ text. string_bytes text ≡ flat_map texts.ended (slip_lists.slip_page after limit c))) }
    ensures counts { CountsFailures (V.failed view.old) (V.failed view.new) result }
{
    let lines = slip_page(alloc, view, after, limit)?;
    Ok(text_of(alloc, &lines)?)
}

/// The lines of what is doubtful.
fn doubts_text<V: View>(alloc: Global, view: &mut V) -> Result<String, RefusalKind>
    ensures shows { On V.View view.old view.new (λ c. Looked result
        (λ text. string_bytes text ≡ flat_map texts.ended (doubts.review c))) }
    ensures counts { CountsFailures (V.failed view.old) (V.failed view.new) result }
{
    let lines = review_archive(alloc, view)?;
    Ok(text_of(alloc, &lines)?)
}

/// The lines of records, and how many more there are where that is asked for.
fn records_text<V: KindView>(
    alloc: Global,
    view: &mut V,
    listing: &Listing,
) -> Result<String, RefusalKind>
    ensures shows { On V.View view.old view.new (λ c. Looked result
        (λ text. string_bytes text ≡ texts.records_lines listing.now c)) }
    ensures counts { CountsFailures (V.View.failed view.old) (V.View.failed view.new) result }
{
    if listing.counts_others {
        counted_text(alloc, view, listing)
    } else {
        page_text(alloc, view, listing)
    }
}

/// The lines, whatever is left out.
fn page_text<V: KindView>(
    alloc: Global,
    view: &mut V,
    listing: &Listing,
) -> Result<String, RefusalKind>
    ensures shows { On V.View view.old view.new (λ c. Looked result (λ text. string_bytes text ≡ flat_map texts.ended
        (lines.page listing.now.wanted listing.now.after listing.now.limit (entries c.records)))) }
    ensures counts { CountsFailures (V.View.failed view.old) (V.View.failed view.new) result }
{
    let lines = page(alloc, view, &listing.wanted, listing.after, listing.limit)?;
    Ok(text_of(alloc, &lines)?)
}

/// The lines, and how many records are left out.
fn counted_text<V: KindView>(
    alloc: Global,
    view: &mut V,
    listing: &Listing,
) -> Result<String, RefusalKind>
    ensures shows { On V.View view.old view.new (λ c. Looked result (λ text. string_bytes text ≡ texts.counted_text
        (lines.page_and_others listing.now.wanted listing.now.after listing.now.limit (entries c.records)))) }
    ensures counts { CountsFailures (V.View.failed view.old) (V.View.failed view.new) result }
{
    let found = page_and_others(alloc, view, &listing.wanted, listing.after, listing.limit)?;
    Ok(found_text(alloc, &found)?)
}

fn found_text(alloc: Global, found: &Found) -> Result<String, AllocError>
    ensures { IfOk result (λ s. string_bytes s ≡ texts.counted_text found.now) }
{
    let mut out = text_of(alloc, &found.lines)?;
    push_more(&mut out, found.others.len())?;
    Ok(out)
}

/// How many records are left out, where there are some.
fn push_more(out: &mut String, more: usize) -> Result<(), AllocError>
    ensures { OnOk result (string_bytes out.new ≡ string_bytes out.old ++ texts.more_text more) }
{
    if more > 0 {
        write!(out, "and {more} more\n")?;
    }
    Ok(())
}

fn text_of(alloc: Global, lines: &[Line]) -> Result<String, AllocError>
    ensures { IfOk result (λ s. string_bytes s ≡ flat_map texts.ended lines.now) }
{
    let mut out = String::new(alloc);
    push_lines(&mut out, lines)?;
    Ok(out)
}

fn push_lines(out: &mut String, lines: &[Line]) -> Result<(), AllocError>
    ensures { OnOk result (string_bytes out.new ≡ string_bytes out.old ++ flat_map texts.ended lines.now) }
{
    'each: for line in lines {
        push_line(out, line)?;
    }
    Ok(())
}

fn push_line(out: &mut String, line: &Line) -> Result<(), AllocError>
    ensures { OnOk result (string_bytes out.new ≡ string_bytes out.old ++ texts.ended line.now) }
{
    out.push_str(&line.text)?;
    out.push_str("\n")
}
