//! Records, each whole, as a text.

ghost use Rattle.std.specs.Prelude.{◌≡◌, IfOk, option_map, string_bytes};
ghost use Rattle.archive_state.specs.Looks.{CountsFailures, Looked};
ghost use Rattle.archive_state.specs.Views.{On};
ghost use Rattle.archive_tables.specs.Texts as texts;

use archive_state::View;
use record_text::RefusalKind;
use row_references::{NumberWord, number_in};
use showing::show;
use std::alloc::{AllocError, Global};

/// The records and slips of these numbers, each whole, with a blank line between two. `None`: one of the words gives no
/// number, or one that is of neither.
#[tactic(auto, using(crate::proofs::Shown::one_more, crate::proofs::Shown::all_shown))]
fn shown_text<V: View>(
    alloc: Global,
    view: &mut V,
    numbers: &[NumberWord],
) -> Result<Option<String>, RefusalKind>
    ensures shows { On V.View view.old view.new (λ c. Looked result
        (λ text. option_map string_bytes text ≡ texts.shown_text c numbers.now)) }
    ensures counts { CountsFailures (V.failed view.old) (V.failed view.new) result }
{
    let mut text = Some(String::new(alloc));
    'each: for number in numbers {
        text = with_record(alloc, view, text, number)?;
    }
    Ok(text)
}

/// The same as bytes.
pub(crate) fn shown_bytes<V: View>(
    alloc: Global,
    view: &mut V,
    numbers: &[NumberWord],
) -> Result<Option<Vec<u8>>, RefusalKind>
    ensures shows { On V.View view.old view.new (λ c. Looked result
        (λ text. option_map texts.items_of text ≡ texts.shown_text c numbers.now)) }
    ensures counts { CountsFailures (V.failed view.old) (V.failed view.new) result }
{
    let text = shown_text(alloc, view, numbers)?;
    Ok(bytes_of(text))
}

fn bytes_of(text: Option<String>) -> Option<Vec<u8>>
    ensures { option_map texts.items_of result ≡ option_map string_bytes text }
{
    match text {
        Some(text) => Some(text.into_bytes()),
        None => None,
    }
}

/// The record of the number that a word gives below those before it. `None`: one of them is missing, or this one.
fn with_record<V: View>(
    alloc: Global,
    view: &mut V,
    above: Option<String>,
    word: &NumberWord,
) -> Result<Option<String>, RefusalKind>
    ensures shows { On V.View view.old view.new (λ c. Looked result (λ text. option_map string_bytes text
        ≡ texts.both (option_map string_bytes above) (texts.shown_by c word.now))) }
    ensures counts { CountsFailures (V.failed view.old) (V.failed view.new) result }
{
    match show_by(alloc, view, word) {
        Ok(found) => Ok(both(above, found)?),
        Err(kind) => Err(kind),
    }
}

/// The record or slip of the number that a word gives, whole. `None`: it gives none, or there is none.
fn show_by<V: View>(
    alloc: Global,
    view: &mut V,
    word: &NumberWord,
) -> Result<Option<String>, RefusalKind>
    ensures shows { On V.View view.old view.new
        (λ c. Looked result (λ text. option_map string_bytes text ≡ texts.shown_by c word.now)) }
    ensures counts { CountsFailures (V.failed view.old) (V.failed view.new) result }
{
    match number_in(alloc, view, word)? {
        Some(number) => show(alloc, view, number),
        None => Ok(None),
    }
}

/// A text below another, where there are both.
fn both(above: Option<String>, text: Option<String>) -> Result<Option<String>, AllocError>
    ensures { IfOk result (λ found. option_map string_bytes found
        ≡ texts.both (option_map string_bytes above) (option_map string_bytes text)) }
{
    match above {
        None => Ok(None),
        Some(above) => match text {
            None => Ok(None),
            Some(text) => Ok(Some(below(above, &text)?)),
        },
    }
}

/// A text below another, with a blank line between.
fn below(above: String, text: &str) -> Result<String, AllocError>
    ensures { IfOk result (λ s. string_bytes s ≡ texts.below (string_bytes above) text.now) }
{
    let mut out = above;
    if !out.is_empty() {
        out.push_str("\n")?;
    }
    out.push_str(text)?;
    Ok(out)
}
