//! Phrases between brackets.

ghost use Rattle.std.specs.Prelude.{◌≡◌, ◌≢◌, ◌++◌, ◌∷◌, [], true, List, ℕ, IfSome, IsSome, MatchOption};
ghost use Rattle.std.specs.List.{list_all};
ghost use Rattle.gedcom_date.specs.Words.{is_space, Without};
ghost use Rattle.gedcom_date.specs.Grammar.{IsPhrased};

/// What stands before the first bracket, and the phrase from there to a bracket that ends the text.
pub(crate) fn phrase(text: &str) -> Option<(&str, &str)>
    ensures found { IfSome result (λ x. IsPhrased text.now x.0.now x.1.now) }
    ensures every { (front phrase : List ℕ) → IsPhrased text.now front phrase → IsSome result }
{
    let (front, rest) = cut_at_bracket(trimmed(text))?;
    let phrase = before_bracket(rest)?;
    Some((front, phrase))
}

/// The text without the spaces at its end.
fn trimmed(text: &str) -> &str
    ensures parts { (after : List ℕ)
        × (text.now ≡ result.now ++ after) × (list_all is_space after ≡ true) }
    ensures ends { (front : List ℕ) → result.now ≢ front ++ 32 ∷ [] }
{
    let mut rest = text;
    while let Some(front) = before_space(rest) {
        rest = front;
    }
    rest
}

/// What stands before a space that ends the text.
fn before_space(text: &str) -> Option<&str>
    ensures { MatchOption result ((front : List ℕ) → text.now ≢ front ++ 32 ∷ [])
        (λ x. text.now ≡ x.now ++ 32 ∷ []) }
{
    text.strip_suffix(' ')
}

/// What stands before a bracket that ends the text.
fn before_bracket(text: &str) -> Option<&str>
    ensures { MatchOption result ((front : List ℕ) → text.now ≢ front ++ 41 ∷ [])
        (λ x. text.now ≡ x.now ++ 41 ∷ []) }
{
    text.strip_suffix(')')
}

/// What stands before the first bracket and after it.
fn cut_at_bracket(text: &str) -> Option<(&str, &str)>
    ensures { MatchOption result (Without 40 text.now)
        (λ x. (text.now ≡ x.0.now ++ 40 ∷ x.1.now) × Without 40 x.0.now) }
{
    text.split_once('(')
}
