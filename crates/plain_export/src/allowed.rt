//! What the standard allows in names, families and events.

ghost use Rattle.std.specs.Prelude.{◌≡◌, ◌||◌, ◌==◌, ◌++◌, IfOk, OnOk};
ghost use Rattle.std.specs.List.{list_all, list_any};
ghost use Rattle.std.specs.Str.{bytes_eq};
ghost use Rattle.plain_export.specs.Allowed as allowed;

use crate::kept::is_one_of;
use crate::lines::put_text;
use crate::one_line::one_line;
use record_fields::Partnership;
use record_kinds::{Name, Partner};
use record_text::Text;
use std::alloc::{AllocError, Global};
use stored_lines::Carried;

/// The tags of events that have a value.
const VALUED: [&str; 14] = [
    "CAST", "DSCR", "EDUC", "IDNO", "NATI", "NCHI", "NMR", "OCCU", "PROP", "RELI", "SSN", "TITL",
    "FACT", "EVEN",
];

/// Whether a text has only blanks and line ends.
fn is_blank(text: &str) -> bool
    ensures { result ≡ allowed.is_blank text.now }
{
    text.as_bytes().iter().all(|b| *b == 32 || *b == 10)
}

/// Whether there are lines.
pub(crate) fn has_lines(lines: &[Carried]) -> bool
    ensures { result ≡ allowed.has_lines lines.now }
{
    !lines.is_empty()
}

/// Whether a name has a text, or carries lines.
pub(crate) fn is_said(name: &Name) -> bool
    ensures { result ≡ allowed.is_said name.now }
{
    !is_blank(name.text.as_str()) || has_lines(&name.carried)
}

/// The text of a name; an empty surname in place of none.
pub(crate) fn name_text(alloc: Global, text: &Text) -> Result<Text, AllocError>
    ensures { IfOk result (λ t. t ≡ allowed.name_text text.now) }
{
    if is_blank(text.as_str()) {
        Text::of_words(alloc, "//")
    } else {
        one_line(alloc, text)
    }
}

fn other_role(role: Partnership) -> Partnership
    ensures { result ≡ allowed.other_role role }
{
    match role {
        Partnership::Husband => Partnership::Wife,
        Partnership::Wife => Partnership::Husband,
    }
}

fn is_same(a: Partnership, b: Partnership) -> bool
    ensures { result ≡ allowed.is_same a b }
{
    match (a, b) {
        (Partnership::Husband, Partnership::Husband) => true,
        (Partnership::Wife, Partnership::Wife) => true,
        _ => false,
    }
}

/// Whether all have a role.
fn have_role(role: Partnership, partners: &[Partner]) -> bool
    ensures { result ≡ list_all (λ p. allowed.is_same role p.partnership) partners.now }
{
    partners.iter().all(|p| is_same(role, p.partnership))
}

/// Whether all have the role of the first.
fn have_one_role(partners: &[Partner]) -> bool
    ensures { result ≡ allowed.have_one_role partners.now }
{
    match partners {
        [] => true,
        [first, rest @ ..] => have_role(first.partnership, rest),
    }
}

/// Gives the second the other role.
fn turn_second(partners: &mut Vec<Partner>)
    ensures { partners.new.items ≡ allowed.second_in_other partners.old.items }
{
    if partners.len() > 1 {
        partners[1].partnership = other_role(partners[1].partnership);
    }
}

/// Gives the second of partners of one role the other one.
pub(crate) fn pair(partners: &mut Vec<Partner>)
    ensures { partners.new.items ≡ allowed.paired partners.old.items }
{
    if have_one_role(partners) {
        turn_second(partners);
    }
}

/// Whether a value may stand after the tag of an event.
fn may_have(tag: &str, text: &str) -> bool
    ensures { result ≡ allowed.may_have tag.now text.now }
{
    is_one_of(tag, &VALUED) || text == "Y"
}

/// A value in one line, but for the description of a person.
fn lined_value(alloc: Global, tag: &str, text: &Text) -> Result<Text, AllocError>
    ensures { IfOk result (λ t. t ≡ allowed.lined_value tag.now text.now) }
{
    if tag == "DSCR" {
        text.copy(alloc)
    } else {
        one_line(alloc, text)
    }
}

/// The value after the tag of an event.
pub(crate) fn value_after(alloc: Global, tag: &str, text: &Text) -> Result<Text, AllocError>
    ensures { IfOk result (λ t. t ≡ allowed.value_after tag.now text.now) }
{
    if may_have(tag, text.as_str()) {
        lined_value(alloc, tag, text)
    } else {
        Ok(Text::empty(alloc))
    }
}

/// Puts the note of a value that may not stand after the tag.
pub(crate) fn put_value(
    alloc: Global,
    tag: &str,
    text: &Text,
    lines: &mut Vec<Carried>,
) -> Result<(), AllocError>
    ensures { OnOk result (lines.new.items ≡ lines.old.items ++ allowed.value_note tag.now text.now) }
{
    if may_have(tag, text.as_str()) {
        return Ok(());
    }
    put_text(alloc, "NOTE", text, lines)
}
