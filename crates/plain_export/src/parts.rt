//! Parts of records with the carried lines that are kept.

ghost use Rattle.std.specs.Prelude.{◌≡◌, IfOk, map};
ghost use Rattle.archive_state.specs.Content.{Records};
ghost use Rattle.plain_export.specs.Plain as plain;

use crate::allowed::{is_said, name_text};
use crate::kept::kept_lines;
use crate::one_line::maybe_one_line;
use archive_state::State;
use record_kinds::{Child, Holding, Name, Partner};
use std::alloc::{AllocError, Global};

/// A part of a record, with carried lines.
pub(crate) trait Part: Drop {
    ghost kept: { Records → Self → Self };

    /// The same part in memory of its own, with the carried lines that are kept.
    fn kept(&self, alloc: Global, state: &State) -> Result<Self, AllocError>
        ensures { IfOk result (λ p. p ≡ kept state.now.records self.now) };
}

/// The same of each part, in their order.
pub(crate) fn kept_parts<P: Part>(
    alloc: Global,
    state: &State,
    parts: &[P],
) -> Result<Vec<P>, AllocError>
    ensures { IfOk result (λ made. made.items ≡ map (P.kept state.now.records) parts.now) }
{
    let mut made = Vec::new(alloc);
    'parts: for part in parts {
        made.push(part.kept(alloc, state)?)?;
    }
    Ok(made)
}

/// The names of a person, without those of nothing.
pub(crate) fn plain_names(
    alloc: Global,
    state: &State,
    names: &[Name],
) -> Result<Vec<Name>, AllocError>
    ensures { IfOk result (λ made. made.items ≡ plain.plain_names state.now.records names.now) }
{
    let mut made = Vec::new(alloc);
    'names: for name in names {
        if is_said(name) {
            made.push(name.kept(alloc, state)?)?;
        }
    }
    Ok(made)
}

impl Part for Name {
    ghost kept = { plain.plain_name };

    fn kept(&self, alloc: Global, state: &State) -> Result<Name, AllocError> {
        Ok(Name {
            text: name_text(alloc, &self.text)?,
            carried: kept_lines(alloc, state, &self.carried)?,
        })
    }
}

impl Part for Holding {
    ghost kept = { plain.plain_holding };

    fn kept(&self, alloc: Global, state: &State) -> Result<Holding, AllocError> {
        Ok(Holding {
            repo: self.repo,
            call_number: maybe_one_line(alloc, &self.call_number)?,
            carried: kept_lines(alloc, state, &self.carried)?,
        })
    }
}

impl Part for Partner {
    ghost kept = { plain.plain_partner };

    fn kept(&self, alloc: Global, state: &State) -> Result<Partner, AllocError> {
        Ok(Partner {
            partnership: self.partnership,
            person: self.person,
            carried: kept_lines(alloc, state, &self.carried)?,
            carried_by_person: kept_lines(alloc, state, &self.carried_by_person)?,
        })
    }
}

impl Part for Child {
    ghost kept = { plain.plain_child };

    fn kept(&self, alloc: Global, state: &State) -> Result<Child, AllocError> {
        Ok(Child {
            person: self.person,
            carried: kept_lines(alloc, state, &self.carried)?,
            carried_by_person: kept_lines(alloc, state, &self.carried_by_person)?,
        })
    }
}
