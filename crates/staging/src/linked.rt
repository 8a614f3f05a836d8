//! The links of the records that an import puts.

ghost use Rattle.std.specs.Prelude.{◌≡◌, ◌++◌, ◌∷◌, [], IfOk, OnOk};
ghost use Rattle.records.specs.Stored.{stored};
ghost use Rattle.staged_rows.specs.Staging.{links_of, with_target, with_targets};
ghost use Rattle.staging.specs.Opened.{link_of, pairs_as_links};

use archive_state::Numbered;
use records::lines_of;
use std::alloc::{AllocError, Global};
use std::collections::BTreeSet;
use store_tables::LinkRow;
use stored_lines::StoredLine;

/// The links of these records, each once, in the order of the numbers that are named, and then in that of the records:
/// so the database gets them in the order in which it keeps them.
pub(crate) fn links_of_puts(alloc: Global, puts: &[Numbered]) -> Result<Vec<LinkRow>, AllocError>
    ensures { IfOk result (λ found. found.items ≡ links_of puts.now) }
{
    let mut pairs: BTreeSet<(u32, u32)> = BTreeSet::new(alloc);
    'puts: for put in puts {
        add_links(alloc, put, &mut pairs)?;
    }
    links_in(alloc, &pairs)
}

/// Adds the links of a record.
fn add_links(
    alloc: Global,
    put: &Numbered,
    pairs: &mut BTreeSet<(u32, u32)>,
) -> Result<(), AllocError>
    ensures { OnOk result (pairs_as_links pairs.new.keys
        ≡ with_targets put.now.number (stored put.now.«record») (pairs_as_links pairs.old.keys)) }
{
    let lines = lines_of(alloc, &put.record)?;
    add_targets(put.number, &lines, pairs)
}

/// Adds a link for each of these lines that names a number.
fn add_targets(
    number: u32,
    lines: &[StoredLine],
    pairs: &mut BTreeSet<(u32, u32)>,
) -> Result<(), AllocError>
    ensures { OnOk result (pairs_as_links pairs.new.keys
        ≡ with_targets number lines.now (pairs_as_links pairs.old.keys)) }
{
    'lines: for line in lines {
        add_target(number, line.target, pairs)?;
    }
    Ok(())
}

/// Adds the link to a number, where there is one.
fn add_target(
    number: u32,
    target: Option<u32>,
    pairs: &mut BTreeSet<(u32, u32)>,
) -> Result<(), AllocError>
    ensures { OnOk result (pairs_as_links pairs.new.keys
        ≡ with_target number target (pairs_as_links pairs.old.keys)) }
{
    if let Some(target) = target {
        pairs.insert((target, number))?;
    }
    Ok(())
}

/// The pairs as rows of links.
fn links_in(alloc: Global, pairs: &BTreeSet<(u32, u32)>) -> Result<Vec<LinkRow>, AllocError>
    ensures { IfOk result (λ links. links.items ≡ pairs_as_links pairs.now.keys) }
{
    let mut links = Vec::new(alloc);
    'pairs: for pair in pairs {
        push_link(&mut links, *pair)?;
    }
    Ok(links)
}

/// Adds a link at the end.
fn push_link(links: &mut Vec<LinkRow>, pair: (u32, u32)) -> Result<(), AllocError>
    ensures { OnOk result (links.new.items ≡ links.old.items ++ link_of pair ∷ []) }
{
    links.push(LinkRow {
        target: pair.0,
        number: pair.1,
    })?;
    Ok(())
}
