//! Numbers as words give them: a number, or a reference.

ghost use Rattle.std.specs.Prelude.{◌≡◌, option_map, IfOk};
ghost use Rattle.archive_state.specs.Looks.{CountsFailures, Looked};
ghost use Rattle.archive_state.specs.Views.{On};
ghost use Rattle.row_references.specs.References.{first_of, kept_number};
ghost use Rattle.row_references.specs.Words.{number_in};

use archive_state::View;
use receipts::{Answer, Token};
use record_text::RefusalKind;
use std::alloc::Global;

/// The number of a record or a slip as a word gives it.
#[derive(Debug, Drop)]
pub enum NumberWord {
    /// The number itself.
    Number(u32),
    /// `@` and a token: the first number of the answer that is stored for it.
    Reference(Token),
}

/// The number that a word gives. `None`: nothing is stored for its token, or an answer that made nothing. Refused as a
/// look is.
pub fn number_in<V: View>(
    alloc: Global,
    view: &mut V,
    word: &NumberWord,
) -> Result<Option<u32>, RefusalKind>
    ensures shows { On V.View view.old view.new (λ c. Looked result (λ found. found ≡ number_in c word.now)) }
    ensures counts { CountsFailures (V.failed view.old) (V.failed view.new) result }
{
    match word {
        NumberWord::Number(number) => Ok(Some(*number)),
        NumberWord::Reference(token) => kept_number(alloc, view, token),
    }
}

/// The first number of the answer that is stored for a token. `None`: there is none, or it made nothing.
pub(crate) fn kept_number<V: View>(
    alloc: Global,
    view: &mut V,
    token: &Token,
) -> Result<Option<u32>, RefusalKind>
    ensures shows { On V.View view.old view.new (λ c. Looked result (λ found. found ≡ kept_number c token.now)) }
    ensures counts { CountsFailures (V.failed view.old) (V.failed view.new) result }
{
    match view.receipt(alloc, token)? {
        Some(kept) => Ok(first_of(kept.answer)),
        None => Ok(None),
    }
}

/// The first number of an answer. `None`: it made nothing.
fn first_of(answer: Answer) -> Option<u32>
    ensures { result ≡ first_of answer }
{
    if answer.count == 0 {
        None
    } else {
        Some(answer.first)
    }
}
