//! Lists that become shorter.

ghost use Rattle.std.specs.Prelude.{◌≡◌, ◌++◌, ◌∷◌, [], MatchOption};

/// After how many items the memory after a list is given back.
const STEP: usize = 4096;

/// Takes the last item of a list; what memory the list has no longer is given back from time to time.
pub(crate) fn take_last<T>(items: &mut Vec<T>) -> Option<T>
    ensures { MatchOption result (items.old.items ≡ []) (λ x. items.old.items ≡ items.new.items ++ x ∷ []) }
{
    if items.len() % STEP == 0 {
        items.shrink_to_fit();
    }
    items.pop()
}
