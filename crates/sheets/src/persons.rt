//! The sheet of a person.

ghost use Rattle.std.specs.Prelude.{◌≡◌, ◌++◌, IfErr, IfOk, Ok, OnOk, string_bytes};
ghost use Rattle.std.specs.List.{flat_map};
ghost use Rattle.archive_state.specs.Sound.{IsSound};
ghost use Rattle.sheet_lines.specs.Lines as lines;
ghost use Rattle.gedcom_export.specs.Index.{IsArranged, IsIndexOf};
ghost use Rattle.std.specs.FinMap.{entries};
ghost use Rattle.gedcom_export.specs.Owned.{sides_by};
ghost use Rattle.gedcom_export.specs.declared.membership.Membership as membership;
ghost use Rattle.sheets.specs.Answers.{IsRefused};
ghost use Rattle.sheets.specs.Gathered.{families_of, gathered};
ghost use Rattle.sheets.specs.Indexed.{indexed};
ghost use Rattle.sheets.specs.Sheets as sheets;

use crate::events::{push_citations_of, push_events_of};
use crate::gathering::index_of;
use archive_state::State;
use gedcom_export::{Index, Membership};
use masking::Shown;
use record_kinds::{Person, Record};
use record_text::RefusalKind;
use sheet_lines::{push_child_of, push_names, push_partner_in, push_person_head, push_sex};
use std::alloc::{AllocError, Global};

/// The sheet of a person: names and sex, events, citations, and the families of the person. 50: no record that is shown
/// has the number. 51: it is of another kind.
pub fn person_sheet(alloc: Global, shown: &Shown, number: u32) -> Result<String, RefusalKind>
    ensures text { IsSound shown.now
        → IfOk result (λ s. sheets.person_sheet shown.now.records number ≡ Ok (string_bytes s)) }
    ensures refused { IfErr result (λ e. IsRefused e (sheets.person_sheet shown.now.records number)) }
{
    let state = shown.as_state();
    match state.record(number) {
        None => Err(RefusalKind::NoSuch),
        Some(Record::Person(person)) => {
            let index = index_of(alloc, shown)?;
            Ok(sheet_by(alloc, shown, &index, number, person)?)
        }
        Some(_) => Err(RefusalKind::WrongKind),
    }
}

/// The sheet by the index of the masked records.
pub(crate) fn sheet_by(
    alloc: Global,
    shown: &Shown,
    index: &Index,
    number: u32,
    person: &Person,
) -> Result<String, AllocError>
    requires { IsArranged index.now }
    ensures { IsIndexOf (entries shown.now.records) index.now
        → IfOk result (λ s. string_bytes s ≡ sheets.person_text (gathered shown.now.records) number person.now) }
{
    let mut out = String::new(alloc);
    push_person(alloc, &mut out, shown.as_state(), index, number, person)?;
    Ok(out)
}

fn push_person(
    alloc: Global,
    out: &mut String,
    state: &State,
    index: &Index,
    number: u32,
    person: &Person,
) -> Result<(), AllocError>
    requires { IsArranged index.now }
    ensures { OnOk result (string_bytes out.new ≡ string_bytes out.old
        ++ sheets.person_text (indexed state.now.records index.now) number person.now) }
{
    push_own(alloc, out, number, person)?;
    push_events_of(alloc, out, state, index, number)?;
    push_citations_of(out, state, index, "Source ", number)?;
    push_child_families(out, index, number)?;
    push_partner_families(out, index, number)
}

/// Appends what is of a person only: the number, the names and the sex.
fn push_own(alloc: Global, out: &mut String, number: u32, person: &Person) -> Result<(), AllocError>
    ensures { OnOk result (string_bytes out.new ≡ string_bytes out.old ++ sheets.own_text number person.now) }
{
    push_person_head(out, number)?;
    push_names(alloc, out, &person.names)?;
    push_sex(out, person.sex)
}

/// Appends the families where the person is a child, by number.
fn push_child_families(out: &mut String, index: &Index, person: u32) -> Result<(), AllocError>
    requires { IsArranged index.now }
    ensures { OnOk result (string_bytes out.new ≡ string_bytes out.old
        ++ flat_map lines.child_of_line (families_of (sides_by person index.now.child_in))) }
{
    push_children_in(out, index.child_in(person))
}

/// Appends the families where the person is a partner, by number.
fn push_partner_families(out: &mut String, index: &Index, person: u32) -> Result<(), AllocError>
    requires { IsArranged index.now }
    ensures { OnOk result (string_bytes out.new ≡ string_bytes out.old
        ++ flat_map lines.partner_in_line (families_of (sides_by person index.now.partner_in))) }
{
    push_partners_in(out, index.partner_in(person))
}

fn push_children_in(out: &mut String, families: &[Membership]) -> Result<(), AllocError>
    ensures { OnOk result (string_bytes out.new ≡ string_bytes out.old
        ++ flat_map (λ (x : membership.Membership). lines.child_of_line x.side.family) families.now) }
{
    'families: for family in families {
        push_child_of_line(out, family)?;
    }
    Ok(())
}

fn push_partners_in(out: &mut String, families: &[Membership]) -> Result<(), AllocError>
    ensures { OnOk result (string_bytes out.new ≡ string_bytes out.old
        ++ flat_map (λ (x : membership.Membership). lines.partner_in_line x.side.family) families.now) }
{
    'families: for family in families {
        push_partner_in_line(out, family)?;
    }
    Ok(())
}

fn push_child_of_line(out: &mut String, family: &Membership) -> Result<(), AllocError>
    ensures { OnOk result (string_bytes out.new ≡ string_bytes out.old
        ++ lines.child_of_line family.now.side.family) }
{
    push_child_of(out, family.side.family)
}

fn push_partner_in_line(out: &mut String, family: &Membership) -> Result<(), AllocError>
    ensures { OnOk result (string_bytes out.new ≡ string_bytes out.old
        ++ lines.partner_in_line family.now.side.family) }
{
    push_partner_in(out, family.side.family)
}
