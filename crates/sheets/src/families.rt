//! The sheet of a family.

ghost use Rattle.std.specs.Prelude.{◌≡◌, ◌++◌, IfErr, IfOk, Ok, OnOk, string_bytes};
ghost use Rattle.std.specs.FinMap as map;
ghost use Rattle.std.specs.List.{flat_map};
ghost use Rattle.archive_state.specs.Sound.{IsSound};
ghost use Rattle.gedcom_export.specs.Index.{IsArranged, IsIndexOf};
ghost use Rattle.std.specs.FinMap.{entries};
ghost use Rattle.sheets.specs.Answers.{IsRefused};
ghost use Rattle.sheets.specs.Gathered.{gathered};
ghost use Rattle.sheets.specs.Indexed.{indexed};
ghost use Rattle.sheets.specs.Sheets as sheets;

use crate::events::{push_citations_of, push_events_of};
use crate::gathering::index_of;
use crate::looks::shown_at;
use archive_state::State;
use gedcom_export::Index;
use masking::Shown;
use record_kinds::{Child, Family, Partner, Record};
use record_text::RefusalKind;
use sheet_lines::{push_child, push_family_head, push_partner};
use std::alloc::{AllocError, Global};

/// The sheet of a family: partners, events, citations and children. 50: no record that is shown has the number. 51: it
/// is of another kind.
pub fn family_sheet(alloc: Global, shown: &Shown, number: u32) -> Result<String, RefusalKind>
    ensures text { IsSound shown.now
        → IfOk result (λ s. sheets.family_sheet shown.now.records number ≡ Ok (string_bytes s)) }
    ensures refused { IfErr result (λ e. IsRefused e (sheets.family_sheet shown.now.records number)) }
{
    let state = shown.as_state();
    match state.record(number) {
        None => Err(RefusalKind::NoSuch),
        Some(Record::Family(family)) => {
            let index = index_of(alloc, shown)?;
            Ok(sheet_by(alloc, shown, &index, number, family)?)
        }
        Some(_) => Err(RefusalKind::WrongKind),
    }
}

/// The sheet by the index of the masked records.
pub(crate) fn sheet_by(
    alloc: Global,
    shown: &Shown,
    index: &Index,
    number: u32,
    family: &Family,
) -> Result<String, AllocError>
    requires { IsArranged index.now }
    ensures { IsIndexOf (entries shown.now.records) index.now
        → IfOk result (λ s. string_bytes s ≡ sheets.family_text (gathered shown.now.records) number family.now) }
{
    let mut out = String::new(alloc);
    push_family(alloc, &mut out, shown.as_state(), index, number, family)?;
    Ok(out)
}

fn push_family(
    alloc: Global,
    out: &mut String,
    state: &State,
    index: &Index,
    number: u32,
    family: &Family,
) -> Result<(), AllocError>
    requires { IsArranged index.now }
    ensures { OnOk result (string_bytes out.new ≡ string_bytes out.old
        ++ sheets.family_text (indexed state.now.records index.now) number family.now) }
{
    push_family_head(out, number)?;
    push_partners(alloc, out, state, &family.partners)?;
    push_events_of(alloc, out, state, index, number)?;
    push_citations_of(out, state, index, "Source ", number)?;
    push_children(alloc, out, state, &family.children)
}

fn push_partners(
    alloc: Global,
    out: &mut String,
    state: &State,
    partners: &[Partner],
) -> Result<(), AllocError>
    ensures { OnOk result (string_bytes out.new ≡ string_bytes out.old
        ++ flat_map (sheets.partner_text (map.get state.now.records)) partners.now) }
{
    'partners: for partner in partners {
        let shown = shown_at(alloc, state, partner.person)?;
        push_partner(out, partner, shown.as_str())?;
    }
    Ok(())
}

fn push_children(
    alloc: Global,
    out: &mut String,
    state: &State,
    children: &[Child],
) -> Result<(), AllocError>
    ensures { OnOk result (string_bytes out.new ≡ string_bytes out.old
        ++ flat_map (sheets.child_text (map.get state.now.records)) children.now) }
{
    'children: for child in children {
        let shown = shown_at(alloc, state, child.person)?;
        push_child(out, child, shown.as_str())?;
    }
    Ok(())
}
