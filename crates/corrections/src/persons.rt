//! Corrections of persons.

ghost use Rattle.std.specs.Prelude.{◌≡◌, ◌≤◌, length};
ghost use Rattle.corrections.specs.Corrections as corrections;
ghost use Rattle.corrections.specs.Lists.{changed_at};
ghost use Rattle.corrections.specs.declared.correction.Correction.TheVariants as value;
ghost use Rattle.corrections.specs.declared.field.TextField.TheVariants as text_field;

use crate::correction::Correction;
use crate::field::TextField;
use crate::position::Position;
use record_kinds::{Name, Person};
use record_text::{RefusalKind, Text};

/// A person with another value of a field.
pub(crate) fn person_with(person: Person, correction: Correction) -> Result<Person, RefusalKind>
    ensures { result ≡ corrections.person_with correction person }
{
    match correction {
        Correction::Sex(sex) => {
            let mut person = person;
            person.sex = sex;
            Ok(person)
        }
        Correction::Text(TextField::NameAt(at), text) => with_name(person, at, text),
        _ => Err(RefusalKind::NoSuchField),
    }
}

/// A person with another name at a place in the list.
fn with_name(person: Person, at: Position, text: Text) -> Result<Person, RefusalKind>
    ensures { result ≡ corrections.person_with (value.Text (text_field.NameAt at) text) person }
{
    if at.number as usize > person.names.len() {
        return Err(RefusalKind::NoSuchField);
    }
    let mut person = person;
    set_name(&mut person.names, at, text);
    Ok(person)
}

/// Another text of the name at a place in the list. An empty one is removed if another is left.
fn set_name(names: &mut Vec<Name>, at: Position, text: Text)
    requires { at.number ≤ length names.now.items }
    ensures { names.new.items ≡ corrections.names_with at.number text names.old.items }
{
    if text.as_str().is_empty() && names.len() > 1 {
        drop(names.remove(at.index()));
    } else {
        rename(names, at.index(), text);
    }
}

/// Another text of the name at an index, if there is one.
fn rename(names: &mut Vec<Name>, index: usize, text: Text)
    ensures { names.new.items ≡ changed_at index (corrections.renamed text) names.old.items }
{
    if index < names.len() {
        names[index].text = text;
    }
}
