//! The place that a cell names.

ghost use Rattle.std.specs.Prelude.{◌≡◌, ◌≢◌, ◌∷◌, ℕ, List, IfOk, MatchOption, string_bytes};
ghost use Rattle.page_entries.specs.Places as places;

use crate::digits::{is_digits, number_in, whole};
use commands::Field;
use field_rows::{has_part, is_within_limits, made_normal};
use receipts::Token;
use std::alloc::{AllocError, Global};
use table_pages::FaultKind;

/// A place as a cell names it. Whether there is one is for who looks it up to say.
#[derive(Drop)]
pub enum PagePlace {
    /// Its number.
    Number(u32),
    /// The token of the request that made it.
    Token(Token),
    /// Its path, made normal.
    Path(Field),
}

/// The place that a cell names; none if it is empty.
#[tactic(auto, unfolding(crate::specs::Places::place_in))]
pub fn place_in(
    alloc: Global,
    cell: &str,
) -> Result<Result<Option<PagePlace>, FaultKind>, AllocError>
    ensures { IfOk result (λ r. r ≡ places.place_in cell.now) }
{
    if cell.is_empty() {
        return Ok(Ok(None));
    }
    match after_at(cell) {
        Some(token) => by_token(alloc, token),
        None => by_text(alloc, cell),
    }
}

/// What is after `@` at the beginning.
fn after_at(cell: &str) -> Option<&str>
    ensures { MatchOption result ((rest : List ℕ) → cell.now ≢ 64 ∷ rest) (λ rest. cell.now ≡ 64 ∷ rest.now) }
{
    cell.strip_prefix('@')
}

/// A number, or a path.
fn by_text(alloc: Global, cell: &str) -> Result<Result<Option<PagePlace>, FaultKind>, AllocError>
    ensures { IfOk result (λ r. r ≡ places.by_text cell.now) }
{
    let digits = whole(cell);
    if !digits.is_empty() && is_digits(digits) {
        return Ok(by_number(digits));
    }
    let path = made_normal(alloc, cell)?;
    Ok(by_path(path))
}

fn by_number(digits: &str) -> Result<Option<PagePlace>, FaultKind>
    ensures { result ≡ places.by_number digits.now }
{
    match number_in(digits) {
        Ok(number) => Ok(Some(PagePlace::Number(number))),
        Err(_) => Err(FaultKind::BadPlace),
    }
}

fn by_token(alloc: Global, token: &str) -> Result<Result<Option<PagePlace>, FaultKind>, AllocError>
    ensures { IfOk result (λ r. r ≡ places.by_token token.now) }
{
    let words = String::from_str(alloc, token)?;
    match Token::try_new(words) {
        Some(token) => Ok(Ok(Some(PagePlace::Token(token)))),
        None => Ok(Err(FaultKind::BadPlace)),
    }
}

/// The place of a path that is normal.
fn by_path(path: String) -> Result<Option<PagePlace>, FaultKind>
    ensures { result ≡ places.by_path (string_bytes path) }
{
    if is_within_limits(path.as_str()) && has_part(path.as_str()) {
        Ok(Some(PagePlace::Path(Field::new(path))))
    } else {
        Err(FaultKind::BadPath)
    }
}
