//! The fields of branches, each by its word.

ghost use Rattle.std.specs.Prelude.{◌≡◌, IfOk, option_copied, bytes_eq};
ghost use Rattle.records.specs.Reading.{
  shallow_lines,
  below,
  tag_of,
  under,
  first,
  text_or_empty,
  number_or_0,
  number_at as number_of_first,
  lines_from,
  text_from,
};
ghost use Rattle.records.specs.Stored.{word};

use crate::field::Field;
use record_text::Text;
use std::alloc::{AllocError, Global};
use stored_lines::{Branch, Carried, carried_of, copied};

/// The carried lines below the line of a field.
pub(crate) fn lines_at(
    alloc: Global,
    branches: &[Branch],
    field: Field,
) -> Result<Vec<Carried>, AllocError>
    ensures { IfOk result (λ c. c.items ≡ lines_from shallow_lines field branches.now) }
{
    match first_under(branches, field) {
        None => Ok(Vec::new(alloc)),
        Some(branch) => lines_in(alloc, children_of(branch)),
    }
}

/// Carried lines from stored ones; none where they are too deep to be carried.
#[tactic(auto, using(crate::proofs::Shallow::lines_read, crate::proofs::Shallow::no_lines_read))]
pub(crate) fn lines_in(alloc: Global, branches: &[Branch]) -> Result<Vec<Carried>, AllocError>
    ensures { IfOk result (λ c. c.items ≡ shallow_lines branches.now) }
{
    match carried_of(alloc, branches)? {
        Some(carried) => Ok(carried),
        None => Ok(Vec::new(alloc)),
    }
}

/// The text on the line of a field.
pub(crate) fn text_at(
    alloc: Global,
    branches: &[Branch],
    field: Field,
) -> Result<Option<Text>, AllocError>
    ensures { IfOk result (λ t. t ≡ text_from field branches.now) }
{
    match first_under(branches, field) {
        None => Ok(None),
        Some(branch) => copied(alloc, &branch.text),
    }
}

/// The number on the line of a field.
pub(crate) fn number_at(branches: &[Branch], field: Field) -> u32
    ensures { result ≡ number_of_first (first (under field branches.now)) }
{
    match first_under(branches, field) {
        None => 0,
        Some(branch) => number_or_zero(branch.target),
    }
}

/// The first branch with the word of a field.
pub(crate) fn first_under(branches: &[Branch], field: Field) -> Option<&Branch>
    ensures { option_copied result ≡ first (under field branches.now) }
{
    'branches: for branch in branches {
        if has_word(branch, field) {
            return Some(branch);
        }
    }
    None
}

/// Whether the branch has the word of a field.
pub(crate) fn has_word(branch: &Branch, field: Field) -> bool
    ensures { result ≡ bytes_eq (tag_of branch.now) (word field) }
{
    branch.tag.as_str() == field.as_str()
}

/// The branches right below a branch.
#[tactic(auto, using(stored_lines::proofs::Back::list_of_forest_of))]
pub(crate) fn children_of(branch: &Branch) -> &[Branch]
    ensures { result.now ≡ below branch.now }
{
    branch.children.as_slice()
}

/// A text, empty where there is none.
pub(crate) fn text_or_none(alloc: Global, text: &Option<Text>) -> Result<Text, AllocError>
    ensures { IfOk result (λ t. t ≡ text_or_empty text.now) }
{
    match text {
        Some(text) => text.copy(alloc),
        None => Ok(Text::empty(alloc)),
    }
}

/// The text on the line of a field, empty where there is none.
pub(crate) fn words_at(alloc: Global, branches: &[Branch], field: Field) -> Result<Text, AllocError>
    ensures { IfOk result (λ t. t ≡ text_or_empty (text_from field branches.now)) }
{
    text_or_none(alloc, &text_at(alloc, branches, field)?)
}

/// A number, 0 where there is none.
pub(crate) fn number_or_zero(number: Option<u32>) -> u32
    ensures { result ≡ number_or_0 number }
{
    match number {
        Some(number) => number,
        None => 0,
    }
}
