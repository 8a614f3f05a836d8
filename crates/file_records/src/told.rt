//! What a line tells of a membership.

ghost use Rattle.std.specs.Prelude.{◌≡◌};
ghost use Rattle.stored_lines.specs.Tree.{label};
ghost use Rattle.field_rows.specs.Named.{named_tag};
ghost use Rattle.import_definitions.specs.Nodes.{tree_of};
ghost use Rattle.file_records.specs.Told as told;

use crate::known::is_of;
use field_rows::Named;
use gedcom_tree::{Node, NodeValue};
use import_definitions::Roots;

/// A membership that a line tells.
#[derive(Clone, Copy)]
pub(crate) struct Told {
    /// The position of the person that a family names, or of the family that a person does.
    pub other: usize,
    /// As a partner, and not as a child.
    pub as_partner: bool,
}

/// The position of the node of that kind that a line names.
fn named(roots: &Roots<'_>, kind: Named, line: &Node) -> Option<usize>
    ensures { result ≡ told.named roots.now (named_tag kind) (label (tree_of line.now)) }
{
    let NodeValue::Pointer(name) = &line.value else {
        return None;
    };
    match roots.position(name) {
        Some(position) if is_of(roots, position, kind) => Some(position as usize),
        _ => None,
    }
}

/// What is known where a node of the right kind is named.
fn told_as(other: Option<usize>, as_partner: bool) -> Option<Told>
    ensures { result ≡ told.told_as as_partner other }
{
    match other {
        Some(other) => Some(Told { other, as_partner }),
        None => None,
    }
}

/// What a line of a family tells: the person, and whether as a partner.
pub(crate) fn member_told(roots: &Roots<'_>, line: &Node) -> Option<Told>
    ensures { result ≡ told.member_told roots.now (tree_of line.now) }
{
    let tag = line.tag.as_str();
    if tag == "HUSB" || tag == "WIFE" || tag == "CHIL" {
        told_as(named(roots, Named::Person, line), tag != "CHIL")
    } else {
        None
    }
}

/// What a line of a person tells: the family, and whether the person is a partner in it.
pub(crate) fn side_told(roots: &Roots<'_>, line: &Node) -> Option<Told>
    ensures { result ≡ told.side_told roots.now (tree_of line.now) }
{
    let tag = line.tag.as_str();
    if tag == "FAMC" || tag == "FAMS" {
        told_as(named(roots, Named::Family, line), tag == "FAMS")
    } else {
        None
    }
}
