//! Texts cut at an ASCII character.

ghost use Rattle.std.specs.Prelude.{◌≡◌, ◌<◌, ◌++◌, ◌∷◌, MatchOption, option_copied};
ghost use Rattle.packed_rows.specs.Packed.{behind};
ghost use Rattle.packed_rows.specs.Pieces.{Lacks};

/// What stands before the first such character, and after it.
pub(crate) fn cut(text: &str, mark: char) -> Option<(&str, &str)>
    requires { mark < 128 }
    ensures { MatchOption result (Lacks mark text.now)
        (λ x. (text.now ≡ x.0.now ++ mark ∷ x.1.now) × Lacks mark x.0.now) }
{
    text.split_once(mark)
}

/// What stands before the first such character, and after it, where there is one.
pub(crate) fn parted(text: &str, mark: char) -> (&str, Option<&str>)
    requires { mark < 128 }
    ensures whole { text.now ≡ result.0.now ++ behind mark (option_copied result.1) }
    ensures front { Lacks mark result.0.now }
{
    match cut(text, mark) {
        Some((front, after)) => (front, Some(after)),
        None => (text, None),
    }
}
