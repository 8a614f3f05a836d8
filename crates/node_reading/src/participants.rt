//! Who took part in an event.

ghost use Rattle.std.specs.Prelude.{◌≡◌, ◌++◌, ◌∷◌, IfOk};
ghost use Rattle.stored_lines.specs.Line.{Lines};
ghost use Rattle.record_shapes.specs.Fields as fields;
ghost use Rattle.record_shapes.specs.Reading as reading;
ghost use Rattle.node_reading.specs.Partly as partly;
ghost use Rattle.node_reading.specs.Told as told;

use crate::fields::is_first;
use crate::places::text_or_none;
use field_rows::{into_below, into_text, number_of, participant_field};
use record_kinds::Participant;
use record_shapes::Field;
use record_text::Text;
use std::alloc::{AllocError, Global};
use stored_lines::Carried;

/// Who took part, of the line that names a person.
pub(crate) fn participant_of(alloc: Global, line: Carried) -> Result<Participant, AllocError>
    ensures { IfOk result (λ p. p ≡ reading.participant_from line) }
{
    let person = number_of(&line);
    let mut role = None;
    let mut carried = Vec::new(alloc);
    'lines: for below in into_below(line) {
        take_role_line(alloc, &mut role, &mut carried, below)?;
    }
    Ok(Participant {
        person,
        role: text_or_none(alloc, role),
        carried,
    })
}

fn take_role_line(
    alloc: Global,
    role: &mut Option<Text>,
    carried: &mut Vec<Carried>,
    line: Carried,
) -> Result<(), AllocError>
    ensures role { IfOk result (λ _. (ts : Lines)
        → partly.text_or fields.participant_field fields.a_role role.new ts
        ≡ partly.text_or fields.participant_field fields.a_role role.old (line ∷ ts)) }
    ensures carried { IfOk result (λ _. (ts : Lines)
        → carried.new.items ++ told.roles_left role.new ts
        ≡ carried.old.items ++ told.roles_left role.old (line ∷ ts)) }
{
    if is_first(participant_field(&line), Field::Role, role) {
        *role = Some(into_text(alloc, line));
        return Ok(());
    }
    carried.push(line)?;
    Ok(())
}
