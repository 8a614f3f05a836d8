//! Where a place is.

ghost use Rattle.std.specs.Prelude.{◌≡◌, option_map};
ghost use Rattle.import_definitions.specs.Numbers as numbers;
ghost use Rattle.import_numbers.specs.Views.{found_said};

/// Where a place is: in the archive, or made by this import, by its number; in the file by its position.
#[derive(Clone, Copy, Debug, PartialEq, Eq)]
pub enum Found {
    Number(u32),
    Position(u32),
}

/// The place of the archive; else the one of the file, where it counts; else the one that was made.
pub(crate) fn first_found(
    archive: Option<u32>,
    file: Option<u32>,
    made: Option<u32>,
) -> Option<Found>
    ensures { option_map found_said result ≡ numbers.or_else (option_map numbers.at_number archive)
        (numbers.or_else (option_map numbers.at_position file) (option_map numbers.at_number made)) }
{
    if let Some(number) = archive {
        return Some(Found::Number(number));
    }
    if let Some(position) = file {
        return Some(Found::Position(position));
    }
    match made {
        Some(number) => Some(Found::Number(number)),
        None => None,
    }
}

/// The position, where it stands before another or where any counts.
pub(crate) fn where_before(before: Option<u32>, found: Option<u32>) -> Option<u32>
    ensures { result ≡ numbers.where_before before found }
{
    match (before, found) {
        (None, found) => found,
        (Some(before), Some(position)) if position < before => Some(position),
        _ => None,
    }
}
