//! The lines of families.

ghost use Rattle.std.specs.Prelude.{◌≡◌, ◌++◌, OnOk, string_bytes};
ghost use Rattle.sheet_lines.specs.Lines as lines;

use record_fields::Partnership;
use record_kinds::{Child, Partner};
use std::alloc::{AllocError, Global};

/// Appends the first line of a family.
pub fn push_family_head(out: &mut String, number: u32) -> Result<(), AllocError>
    ensures { OnOk result (string_bytes out.new ≡ string_bytes out.old ++ lines.family_head number) }
{
    write!(out, "Family {number}\n")
}

/// Appends a partner of a family.
pub fn push_partner(out: &mut String, partner: &Partner, shown: &str) -> Result<(), AllocError>
    ensures { OnOk result (string_bytes out.new ≡ string_bytes out.old
        ++ lines.partner_line shown.now partner.now) }
{
    let word = partner_word(partner.partnership);
    let person = partner.person;
    write!(out, "{word}{person} {shown}\n")
}

fn partner_word(partnership: Partnership) -> &'static str
    ensures { result.now ≡ lines.partner_word partnership }
{
    match partnership {
        Partnership::Husband => "Husband: ",
        Partnership::Wife => "Wife: ",
    }
}

/// Appends a child of a family.
pub fn push_child(out: &mut String, child: &Child, shown: &str) -> Result<(), AllocError>
    ensures { OnOk result (string_bytes out.new ≡ string_bytes out.old ++ lines.child_line shown.now child.now) }
{
    let person = child.person;
    write!(out, "Child: {person} {shown}\n")
}
