//! The kinds of records by their tags.

ghost use Rattle.std.specs.Prelude.{◌≡◌};
ghost use Rattle.node_reading.specs.Trees.{kind_named};

use record_text::Tag;

/// The kinds of records that lines of level 0 are by their tags.
pub(crate) enum NodeKind {
    Place,
    Repo,
    Source,
    Person,
    Family,
    /// A register entry, or a record of no other kind.
    Other,
}

/// The kind of the line with a tag: GEDCOM 5.5.1, chapter 2, RECORD. `_LOC` is ours.
pub(crate) fn kind_of(tag: &Tag) -> NodeKind
    ensures { result ≡ kind_named tag.now }
{
    kind_of_word(tag.as_str())
}

fn kind_of_word(word: &str) -> NodeKind
    ensures { result ≡ kind_named word.now }
{
    match word {
        "_LOC" => NodeKind::Place,
        "REPO" => NodeKind::Repo,
        "SOUR" => NodeKind::Source,
        "INDI" => NodeKind::Person,
        "FAM" => NodeKind::Family,
        _ => NodeKind::Other,
    }
}
