//! The bytes of commands about who belongs to a family or took part in an event.

ghost use Rattle.std.specs.Prelude.{◌≡◌, ◌∷◌, [], IfOk, decimal};
ghost use Rattle.csv.specs.Writing.{default_writer, row_text};
ghost use Rattle.commands.specs.Bytes.{bytes_of};
ghost use Rattle.commands.specs.Verbs.{verb_word};
ghost use Rattle.commands.specs.declared.command.Command.TheVariants as command;
ghost use Rattle.commands.specs.declared.row_command.RowCommand.TheVariants as row_command;

use crate::rows::verb_row;
use crate::verb::Verb;
use record_fields::Partnership;
use std::alloc::{AllocError, Global};

pub(crate) fn partner_bytes(
    alloc: Global,
    family: u32,
    partnership: Partnership,
    person: u32,
) -> Result<Vec<u8>, AllocError>
    ensures { IfOk result
        (λ bytes. bytes.items ≡ bytes_of (command.Row (row_command.Partner family partnership person))) }
{
    let family = family.to_string(alloc)?;
    let person = person.to_string(alloc)?;
    let fields = [family.as_str(), partnership.as_str(), person.as_str()];
    verb_row(alloc, Verb::Partner, &fields)
}

/// The bytes of a verb whose fields are two numbers.
pub(crate) fn two_numbers(
    alloc: Global,
    verb: Verb,
    first: u32,
    second: u32,
) -> Result<Vec<u8>, AllocError>
    ensures { IfOk result (λ bytes. bytes.items
        ≡ row_text default_writer (verb_word verb ∷ decimal first ∷ decimal second ∷ [])) }
{
    let first = first.to_string(alloc)?;
    let second = second.to_string(alloc)?;
    verb_row(alloc, verb, &[first.as_str(), second.as_str()])
}
