//! The kinds of records of level 0, in the order of an export.

ghost use Rattle.std.specs.Prelude.{◌≡◌};
ghost use Rattle.gedcom_export.specs.Index as index;

/// A kind of record of level 0.
#[derive(Clone, Copy)]
pub enum Rank {
    Places,
    Repos,
    Sources,
    Persons,
    Families,
    Entries,
    Others,
}

/// The letter of a kind in a cross reference.
pub(crate) fn letter_of(rank: Rank) -> &'static str
    ensures { result.now ≡ index.letter_of rank }
{
    match rank {
        Rank::Places => "P",
        Rank::Repos => "R",
        Rank::Sources => "S",
        Rank::Persons => "I",
        Rank::Families => "F",
        Rank::Entries => "E",
        Rank::Others => "X",
    }
}
