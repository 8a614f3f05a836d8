//! Rows about who belongs to a family or took part in an event, read as commands.

ghost use Rattle.std.specs.Prelude.{◌≡◌, ◌∷◌, []};
ghost use Rattle.commands.specs.Dated.{given_of};
ghost use Rattle.commands.specs.Rows.{partnership_in, read_fields};
ghost use Rattle.commands.specs.declared.verb.Verb.TheVariants as verb;

use crate::reading::number_in;
use crate::row_command::RowCommand;
use record_fields::Partnership;
use record_text::RefusalKind;

pub(crate) fn partner(family: &str, role: &str, person: &str) -> Result<RowCommand, RefusalKind>
    ensures { result ≡ read_fields given_of verb.Partner (family.now ∷ role.now ∷ person.now ∷ []) }
{
    let family = number_in(family)?;
    let partnership = partnership_in(role)?;
    let person = number_in(person)?;
    Ok(RowCommand::Partner {
        family,
        partnership,
        person,
    })
}

pub(crate) fn unpartner(family: &str, person: &str) -> Result<RowCommand, RefusalKind>
    ensures { result ≡ read_fields given_of verb.Unpartner (family.now ∷ person.now ∷ []) }
{
    let family = number_in(family)?;
    let person = number_in(person)?;
    Ok(RowCommand::Unpartner { family, person })
}

pub(crate) fn unchild(family: &str, person: &str) -> Result<RowCommand, RefusalKind>
    ensures { result ≡ read_fields given_of verb.Unchild (family.now ∷ person.now ∷ []) }
{
    let family = number_in(family)?;
    let person = number_in(person)?;
    Ok(RowCommand::Unchild { family, person })
}

pub(crate) fn unparticipant(event: &str, place: &str) -> Result<RowCommand, RefusalKind>
    ensures { result ≡ read_fields given_of verb.Unparticipant (event.now ∷ place.now ∷ []) }
{
    let event = number_in(event)?;
    let place = number_in(place)?;
    Ok(RowCommand::Unparticipant { event, place })
}

/// As what a person is a partner, of its word.
fn partnership_in(field: &str) -> Result<Partnership, RefusalKind>
    ensures { result ≡ partnership_in field.now }
{
    match Partnership::from_word(field) {
        Some(partnership) => Ok(partnership),
        None => Err(RefusalKind::BadRow),
    }
}
