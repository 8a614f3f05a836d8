//! Drafts of records with what they own.

ghost use Rattle.std.specs.Prelude.{◌≡◌, None, IfOk, codes, if◌then◌else◌, bytes_eq};
ghost use Rattle.stored_lines.specs.Line.{Line, Lines};
ghost use Rattle.stored_lines.specs.Tree.{Tree};
ghost use Rattle.record_shapes.specs.Entries as entries;
ghost use Rattle.record_shapes.specs.Reading as reading;
ghost use Rattle.node_reading.specs.Trees as trees;

use crate::kinds::{NodeKind, kind_of};
use crate::owners::{FamilyDraft, PersonDraft, family_of, person_of};
use crate::places::place_of;
use crate::sources::{repo_of, source_of};
use entry_reading::entry_of;
use field_rows::Known;
use record_kinds::{Entry, Other, Place, Repo, Source};
use record_text::Tag;
use std::alloc::{AllocError, Global};
use stored_lines::{Carried, Value};

/// What a line of level 0 with all below it is read as.
#[derive(Drop)]
pub enum Draft {
    Place(Place),
    Repo(Repo),
    Source(Source),
    Person(PersonDraft),
    Family(FamilyDraft),
    Entry(Entry),
    Other(Other),
}

/// The draft of a line of level 0 with all below it. Known are only the places before it, and all records.
///
/// The value of a record of one of five kinds is not kept, nor are a person's lines that name its families.
pub fn draft_of<E: Known, K: Known>(
    alloc: Global,
    earlier: &E,
    known: &K,
    node: Carried,
) -> Result<Draft, AllocError>
    ensures { IfOk result (λ d. trees.draft_tree d ≡ reading.draft_of (E.known earlier.now) (K.known known.now) node) }
{
    let Carried {
        tag,
        value,
        children,
    } = node;
    match kind_of(&tag) {
        NodeKind::Place => place_draft(alloc, earlier, children),
        NodeKind::Repo => repo_draft(alloc, children),
        NodeKind::Source => source_draft(alloc, known, children),
        NodeKind::Person => person_draft(alloc, known, children),
        NodeKind::Family => family_draft(alloc, known, children),
        NodeKind::Other => other_draft(alloc, known, tag, value, children),
    }
}

fn place_draft<E: Known>(
    alloc: Global,
    earlier: &E,
    lines: Vec<Carried>,
) -> Result<Draft, AllocError>
    ensures { IfOk result (λ d. trees.draft_tree d ≡ trees.place_tree (E.known earlier.now) lines.items) }
{
    let (place, _) = place_of(alloc, earlier, lines)?;
    Ok(Draft::Place(place))
}

fn repo_draft(alloc: Global, lines: Vec<Carried>) -> Result<Draft, AllocError>
    ensures { IfOk result (λ d. trees.draft_tree d ≡ trees.repo_tree lines.items) }
{
    Ok(Draft::Repo(repo_of(alloc, lines)?))
}

fn source_draft<K: Known>(
    alloc: Global,
    known: &K,
    lines: Vec<Carried>,
) -> Result<Draft, AllocError>
    ensures { IfOk result (λ d. trees.draft_tree d ≡ trees.source_tree (K.known known.now) lines.items) }
{
    Ok(Draft::Source(source_of(alloc, known, lines)?))
}

fn person_draft<K: Known>(
    alloc: Global,
    known: &K,
    lines: Vec<Carried>,
) -> Result<Draft, AllocError>
    ensures { IfOk result (λ d. trees.draft_tree d ≡ trees.person_tree (K.known known.now) lines.items) }
{
    Ok(Draft::Person(person_of(alloc, known, lines)?))
}

fn family_draft<K: Known>(
    alloc: Global,
    known: &K,
    lines: Vec<Carried>,
) -> Result<Draft, AllocError>
    ensures { IfOk result (λ d. trees.draft_tree d ≡ trees.family_tree (K.known known.now) lines.items) }
{
    Ok(Draft::Family(family_of(alloc, known, lines)?))
}

fn other_draft<K: Known>(
    alloc: Global,
    known: &K,
    tag: Tag,
    value: Value,
    lines: Vec<Carried>,
) -> Result<Draft, AllocError>
    ensures { IfOk result (λ d. trees.draft_tree d ≡ trees.other_tree (K.known known.now) tag value lines.items) }
{
    match registered(alloc, known, &tag, &value, lines.as_slice())? {
        Some(entry) => Ok(Draft::Entry(entry)),
        None => Ok(Draft::Other(Other {
            tag,
            value,
            carried: lines,
        })),
    }
}

/// The register entry, where the tag is that of one.
fn registered<K: Known>(
    alloc: Global,
    known: &K,
    tag: &Tag,
    held: &Value,
    lines: &[Carried],
) -> Result<Option<Entry>, AllocError>
    ensures { IfOk result (λ e. e
        ≡ (if bytes_eq tag.now (codes "_REG") then entries.entry_of (K.known known.now) held.now lines.now else None)) }
{
    if tag.as_str() == "_REG" {
        entry_of(alloc, known, held, lines)
    } else {
        Ok(None)
    }
}
