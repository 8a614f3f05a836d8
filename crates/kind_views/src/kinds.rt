//! Some kinds of records.

/// Some kinds of records.
#[derive(Clone, Copy, Debug, PartialEq, Eq)]
pub enum Kinds {
    Persons,
    Families,
    Events,
    Places,
    Repositories,
    Sources,
    Citations,
    Entries,
    Others,
    /// Those with names, by which they may be found: persons, entries, places, repositories and sources.
    Named,
}
