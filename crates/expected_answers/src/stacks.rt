//! The texts of the answers of a token, of which the next one is the last.

ghost use Rattle.std.specs.Prelude.{◌≡◌, ◌∷◌, OnOk};
ghost use Rattle.expected_answers.specs.Expected.{is_next as is_next_of, rest, texts_in, turned};

use std::alloc::AllocError;

/// Puts a text before the others.
#[tactic(auto, using(crate::proofs::Stacked::put_first))]
pub(crate) fn put(stack: &mut Vec<Vec<u8>>, text: Vec<u8>) -> Result<(), AllocError>
    ensures { OnOk result (texts_in stack.new ≡ text.items ∷ texts_in stack.old) }
{
    stack.push(text)?;
    Ok(())
}

/// Takes the next text off.
#[tactic(auto, using(crate::proofs::Stacked::without_first))]
pub(crate) fn take(stack: &mut Vec<Vec<u8>>)
    ensures { texts_in stack.new ≡ rest (texts_in stack.old) }
{
    let _ = stack.pop();
}

/// Whether this is the next text, or there is none.
pub(crate) fn is_next(stack: &[Vec<u8>], text: &[u8]) -> bool
    ensures { result ≡ is_next_of (turned stack.now) text.now }
{
    match stack.split_last() {
        Some((next, _)) => next.as_slice() == text,
        None => true,
    }
}
