//! What holds of the lines of a record.

ghost use Rattle.record_shapes.specs.Laws.{IsReadAgain, FindsFamilies, FindsPath};

/// A record that is written at level 0 is read again from its lines, with the events and citations that it owns.
pub fn a_record_is_read_again()
    ensures { IsReadAgain }
{}

/// The lines of a person that name families are read as those that were written, children first.
pub fn the_families_of_a_person_are_found()
    ensures { FindsFamilies }
{}

/// The path of a place is found on its lines, by that of the place above it.
pub fn the_path_of_a_place_is_found()
    ensures { FindsPath }
{}
