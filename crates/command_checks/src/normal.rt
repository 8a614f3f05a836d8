//! Whether a text is normal: its parts between commas, freed of spaces at their ends and joined by comma and space,
//! give it.

ghost use Rattle.std.specs.Prelude.{◌≡◌, ◌≢◌, ◌↔◌, ◌∷◌, [], ◌++◌, ℕ, List, IsTrue, MatchOption};
ghost use Rattle.record_shapes.specs.Paths.{IsNormal, trimmed};
ghost use Rattle.command_checks.specs.Cuts.{Without};

/// Whether the text is normal. Takes no memory.
pub fn is_normal(text: &str) -> bool
    ensures { IsTrue result ↔ IsNormal text.now }
{
    let mut rest = text;
    while let Some((part, after)) = cut(rest) {
        if !is_trimmed(part) {
            return false;
        }
        match behind_space(after) {
            Some(next) => rest = next,
            None => return false,
        }
    }
    is_trimmed(rest)
}

/// What is before the first comma and after it.
fn cut(text: &str) -> Option<(&str, &str)>
    ensures { MatchOption result (Without 44 text.now)
        (λ x. (text.now ≡ x.0.now ++ 44 ∷ x.1.now) × Without 44 x.0.now) }
{
    text.split_once(',')
}

/// What is after one space.
fn behind_space(text: &str) -> Option<&str>
    ensures { MatchOption result ((rest : List ℕ) → text.now ≢ 32 ∷ rest) (λ rest. text.now ≡ 32 ∷ rest.now) }
{
    text.strip_prefix(' ')
}

/// What is before one space that ends the text.
fn before_space(text: &str) -> Option<&str>
    ensures { MatchOption result ((front : List ℕ) → text.now ≢ front ++ 32 ∷ [])
        (λ front. text.now ≡ front.now ++ 32 ∷ []) }
{
    text.strip_suffix(' ')
}

/// Whether there is no space at either end.
#[tactic(auto, using(crate::proofs::Trimmed::none_at_ends, crate::proofs::Trimmed::none_in_front, crate::proofs::Trimmed::none_behind))]
fn is_trimmed(part: &str) -> bool
    ensures { IsTrue result ↔ (trimmed part.now ≡ part.now) }
{
    match behind_space(part) {
        Some(_) => false,
        None => before_space(part).is_none(),
    }
}
