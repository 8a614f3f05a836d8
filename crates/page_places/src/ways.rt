//! The path of a place, and that of the place above it.

ghost use Rattle.std.specs.Prelude.{◌≡◌, ◌≢◌, ◌<◌, ◌++◌, ◌∷◌, [], ℕ, IfSome, List, MatchOption, length};
ghost use Rattle.field_rows.specs.Cuts.{Without};
ghost use Rattle.page_places.specs.Ways as ways;

/// The path of the place above, of a path that is normal. `None`: it is at the top.
pub fn above(path: &str) -> Option<&str>
    ensures above { MatchOption result (ways.above path.now ≡ [])
        (λ over. ways.above path.now ≡ over.now ∷ ways.above over.now) }
    ensures shorter { IfSome result (λ over. length over.now < length path.now) }
{
    match cut(path) {
        Some((_, after)) => Some(past_space(after)),
        None => None,
    }
}

/// The name of the place itself, of a path that is normal.
pub fn place_name(path: &str) -> &str
    ensures { result.now ≡ ways.name_of path.now }
{
    match cut(path) {
        Some((name, _)) => name,
        None => path,
    }
}

/// What is before the first comma and after it.
fn cut(text: &str) -> Option<(&str, &str)>
    ensures { MatchOption result (Without 44 text.now)
        (λ x. (text.now ≡ x.0.now ++ 44 ∷ x.1.now) × Without 44 x.0.now) }
{
    text.split_once(',')
}

/// The text without a space in front.
fn past_space(text: &str) -> &str
    ensures { result.now ≡ ways.past_space text.now }
{
    match after_space(text) {
        Some(rest) => rest,
        None => text,
    }
}

/// What is after one space.
fn after_space(text: &str) -> Option<&str>
    ensures { MatchOption result ((rest : List ℕ) → text.now ≢ 32 ∷ rest) (λ rest. text.now ≡ 32 ∷ rest.now) }
{
    text.strip_prefix(' ')
}

/// Whether the place itself has no name.
pub(crate) fn is_unnamed(path: &str) -> bool
    ensures { result ≡ ways.is_unnamed path.now }
{
    starts_unnamed(path.as_bytes())
}

fn starts_unnamed(path: &[u8]) -> bool
    ensures { result ≡ ways.is_unnamed path.now }
{
    match path {
        [] => true,
        [first, ..] => *first == b',',
    }
}
