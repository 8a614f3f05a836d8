//! What is known of the persons of a pedigree, so that who stands at many numbers is looked at once.

ghost use Rattle.std.specs.Prelude.{◌≡◌, IfOk, OnOk, option_copied, string_bytes};
ghost use Rattle.gedcom_export.specs.Index.{IsArranged};
ghost use Rattle.sheets.specs.Indexed.{indexed};
ghost use Rattle.sheets.specs.Known.{AreKnown, IsAncestor, at_number};
ghost use Rattle.sheets.specs.Pedigrees as pedigrees;

use crate::ancestors::{date_of, parent_of};
use crate::looks::shown_at;
use archive_state::State;
use gedcom_export::Index;
use record_fields::Partnership;
use sheet_lines::push_ancestor_words;
use std::alloc::{AllocError, Global};
use std::collections::BTreeMap;

/// What a pedigree tells of a person, and the parents.
pub(crate) struct Ancestor {
    pub words: String,
    pub father: Option<u32>,
    pub mother: Option<u32>,
}

// It is written out, so that no function above proves again how each part is dropped.
impl Drop for Ancestor {
    fn drop(self) {
        let Ancestor {
            words: _,
            father: _,
            mother: _,
        } = self;
    }
}

/// Who is known by a number. Takes no memory.
pub(crate) fn found(known: &BTreeMap<u32, Ancestor>, person: u32) -> Option<&Ancestor>
    ensures { option_copied result ≡ at_number known.now.entries person }
{
    known.get(&person)
}

/// Looks at a person, who is known from then on.
pub(crate) fn learn(
    alloc: Global,
    state: &State,
    index: &Index,
    known: &mut BTreeMap<u32, Ancestor>,
    person: u32,
) -> Result<(), AllocError>
    requires { IsArranged index.now }
    ensures { OnOk result (AreKnown (indexed state.now.records index.now) known.old.entries
        → AreKnown (indexed state.now.records index.now) known.new.entries) }
{
    if known.contains_key(&person) {
        return Ok(());
    }
    let ancestor = ancestor_of(alloc, state, index, person)?;
    known.insert(person, ancestor)?;
    Ok(())
}

/// What a pedigree tells of a person, and the parents.
fn ancestor_of(
    alloc: Global,
    state: &State,
    index: &Index,
    person: u32,
) -> Result<Ancestor, AllocError>
    requires { IsArranged index.now }
    ensures { IfOk result (IsAncestor (indexed state.now.records index.now) person) }
{
    Ok(Ancestor {
        words: ancestor_words(alloc, state, index, person)?,
        father: parent_of(state, index, Partnership::Husband, person),
        mother: parent_of(state, index, Partnership::Wife, person),
    })
}

/// The display of a person, with the dates of birth and death.
pub fn ancestor_words(
    alloc: Global,
    state: &State,
    index: &Index,
    person: u32,
) -> Result<String, AllocError>
    requires { IsArranged index.now }
    ensures { IfOk result
        (λ s. string_bytes s ≡ pedigrees.words_of (indexed state.now.records index.now) person) }
{
    let shown = shown_at(alloc, state, person)?;
    let birth = date_of(state, index, "BIRT", person);
    let death = date_of(state, index, "DEAT", person);
    let mut out = String::new(alloc);
    push_ancestor_words(&mut out, shown.as_str(), birth, death)?;
    Ok(out)
}
