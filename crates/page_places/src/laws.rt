//! What follows of the places that are to be made for a path. Nothing is done here.

ghost use Rattle.std.specs.Prelude.{◌≡◌, ◌||◌, ◌∷◌, Bool, List, bytes_eq, false, true, ℕ};
ghost use Rattle.std.specs.List.{AllByRecursion, list_any};
ghost use Rattle.archive_state.specs.Content.{Records};
ghost use Rattle.page_places.specs.News.{is_there, news_for};
ghost use Rattle.page_places.specs.Ways.{above};

/// Each place that a path names is there, or it is to be made, if none of them lacks a name.
pub fn each_place_of_a_path_is_there_or_made()
    ensures { (m : Records) (made : List ℕ → Bool) (path : List ℕ) → (news_for m made path).is_unnamed ≡ false
        → AllByRecursion (λ (p : List ℕ). (is_there m made p
        || list_any (λ other. bytes_eq p other) (news_for m made path).paths) ≡ true) (path ∷ above path) }
{}
