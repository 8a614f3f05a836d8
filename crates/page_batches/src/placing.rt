//! The requests that make the places of a page: under which token, and within which place.

ghost use Rattle.std.specs.Prelude.{◌≡◌, ◌++◌, ◌∷◌, IfOk, length, string_bytes, take};
ghost use Rattle.hex.specs.Hex.{encode_lower};
ghost use Rattle.archive_state.specs.Looks.{CountsFailures, Looked};
ghost use Rattle.archive_state.specs.Views.{On};
ghost use Rattle.receipts.specs.Tokens.{IsToken};
ghost use Rattle.page_batches.specs.Placing as placing;

use crate::looks::at_path;
use archive_state::View;
use commands::Field;
use page_places::above;
use receipts::Token;
use record_text::RefusalKind;
use sha2::{Digest, Sha256};
use std::alloc::{AllocError, Global};

/// How many hexadecimal digits of a digest are in a token.
const DIGITS: usize = 63;

/// The token of the request that makes the place of a path for the batch of a token: `p`, and the first 63 hexadecimal
/// digits of the SHA-256 of the token, LF and the path.
pub fn place_token(alloc: Global, token: &Token, path: &str) -> Result<Token, AllocError>
    ensures { IfOk result (λ t. t ≡ placing.place_token token.now path.now) }
{
    let words = token_words(alloc, token.as_str(), path)?;
    match Token::try_new(words) {
        Some(token) => Ok(token),
        None => unreachable!(),
    }
}

fn token_words(alloc: Global, token: &str, path: &str) -> Result<String, AllocError>
    ensures words { IfOk result (λ s. string_bytes s ≡ placing.place_token token.now path.now) }
    ensures token { IfOk result (λ s. IsToken (string_bytes s)) }
{
    let bytes = named_bytes(alloc, token, path)?;
    let digest = Sha256::digest(bytes.as_slice());
    word_of(alloc, digest.as_slice())
}

/// `p`, and the first digits of a digest.
fn word_of(alloc: Global, digest: &[u8]) -> Result<String, AllocError>
    requires { length digest.now ≡ 32 }
    ensures word { IfOk result (λ s. string_bytes s ≡ 112 ∷ take 63 (encode_lower digest.now)) }
    ensures token { IfOk result (λ s. IsToken (string_bytes s)) }
{
    let digits = hex::encode(alloc, digest)?;
    let mut words = String::from_str(alloc, "p")?;
    words.push_str(&digits[..DIGITS])?;
    Ok(words)
}

fn named_bytes(alloc: Global, token: &str, path: &str) -> Result<Vec<u8>, AllocError>
    ensures { IfOk result (λ bytes. bytes.items ≡ token.now ++ 10 ∷ path.now) }
{
    let mut bytes = Vec::new(alloc);
    bytes.extend_from_slice(token.as_bytes())?;
    bytes.push(b'\n')?;
    bytes.extend_from_slice(path.as_bytes())?;
    Ok(bytes)
}

/// The number of the place that the place of a path is to be made within, none at the top; or why there is none.
pub fn parent_on<V: View>(
    alloc: Global,
    view: &mut V,
    path: &str,
) -> Result<Result<Option<u32>, RefusalKind>, RefusalKind>
    ensures shows { On V.View view.old view.new (λ c. Looked result (λ found. found ≡ placing.parent_on c path.now)) }
    ensures counts { CountsFailures (V.failed view.old) (V.failed view.new) result }
{
    match above(path) {
        Some(over) => at_path(alloc, view, &Field::new(String::from_str(alloc, over)?)),
        None => Ok(Ok(None)),
    }
}
