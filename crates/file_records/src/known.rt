//! What is known of the records of a file by their positions.

ghost use Rattle.std.specs.Prelude.{◌≡◌, bytes_eq, map, option_map};
ghost use Rattle.std.specs.List.{slice_get};
ghost use Rattle.stored_lines.specs.Tree.{label};
ghost use Rattle.import_definitions.specs.Kinds.{kind_named};
ghost use Rattle.import_definitions.specs.Nodes.{FileNode};
ghost use Rattle.import_definitions.specs.Lines.{roots as roots_in};
ghost use Rattle.field_rows.specs.Named.{named_tag};
ghost use Rattle.import_definitions.specs.Positions.{path_at, tag_at};
ghost use Rattle.file_records.specs.KnownViews.{is_kind_at, path_said};

use field_rows::{Known, Named};
use import_definitions::{RootKind, Roots};

/// The nodes of a file that become records, and the paths of the first of them.
#[derive(Clone, Copy)]
pub struct KnownRoots<'a> {
    pub roots: &'a Roots<'a>,
    pub paths: &'a [Option<String>],
}

impl<'a> Known for KnownRoots<'a> {
    ghost use Rattle.std.specs.Prelude.{map};
    ghost use Rattle.import_definitions.specs.Lines.{roots as roots_in};
    ghost use Rattle.import_definitions.specs.Positions.{known_by};
    ghost use Rattle.file_records.specs.KnownViews.{path_said};

    ghost known = { λ k. known_by (roots_in k.roots.now) (map path_said k.paths.now) };

    fn is_of(&self, number: u32, kind: Named) -> bool {
        is_of(self.roots, number, kind)
    }

    fn path(&self, number: u32) -> Option<&str> {
        path_of(self.paths, number)
    }
}

/// Whether the node at a position is a record of that kind.
pub fn is_of(roots: &Roots<'_>, position: u32, kind: Named) -> bool
    ensures { result ≡ bytes_eq (tag_at (roots_in roots.now) position) (named_tag kind) }
{
    is_kind(kind_at(roots, position), kind)
}

/// The kind of the node at a position, where there is one.
fn kind_at(roots: &Roots<'_>, position: u32) -> Option<RootKind>
    ensures { result ≡ slice_get (map (λ (t : FileNode). kind_named (label t).tag) roots.now) position }
{
    roots.kinds().get(position as usize).copied()
}

/// Whether a node of that kind, where there is one, is such a record.
fn is_kind(found: Option<RootKind>, kind: Named) -> bool
    ensures { result ≡ is_kind_at kind found }
{
    match (kind, found) {
        (Named::Repo, Some(RootKind::Repo)) => true,
        (Named::Source, Some(RootKind::Source)) => true,
        (Named::Person, Some(RootKind::Person)) => true,
        (Named::Family, Some(RootKind::Family)) => true,
        _ => false,
    }
}

/// The path at a position, of which these are the first.
fn path_of(paths: &[Option<String>], position: u32) -> Option<&str>
    ensures { option_map (λ p. p.now) result ≡ path_at (map path_said paths.now) position }
{
    match paths.get(position as usize) {
        Some(Some(path)) => Some(path.as_str()),
        _ => None,
    }
}
