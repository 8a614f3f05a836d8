//! What a tag of level 0 makes.

ghost use Rattle.std.specs.Prelude.{◌≡◌};
ghost use Rattle.import_definitions.specs.Kinds.{kind_named};

/// What a node of level 0 makes by its tag. The value of one of a kind of its own is not looked at.
#[derive(Clone, Copy, Debug, PartialEq, Eq)]
pub enum RootKind {
    Place,
    Repo,
    Source,
    Person,
    Family,
    /// Of no kind of its own: its value counts.
    Other,
}

/// The kind that a tag makes (GEDCOM 5.5.1, chapter 2, RECORD; `_LOC` is a rule of our own).
pub fn kind_of(tag: &str) -> RootKind
    ensures { result ≡ kind_named tag.now }
{
    match tag {
        "_LOC" => RootKind::Place,
        "REPO" => RootKind::Repo,
        "SOUR" => RootKind::Source,
        "INDI" => RootKind::Person,
        "FAM" => RootKind::Family,
        _ => RootKind::Other,
    }
}
