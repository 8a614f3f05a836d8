//! What holds of the definitions.

ghost use Rattle.std.specs.Prelude.{◌≡◌, ◌⊎◌, ℕ, ℤ, List};
ghost use Rattle.archive_state.specs.Content.{Content, Records};
ghost use Rattle.archive_state.specs.Sound.{IsSound};
ghost use Rattle.masking.specs.Hidden.{AreAlike};
ghost use Rattle.masking.specs.Masking.{IsMasked};
ghost use Rattle.room_requests.specs.declared.page.Page.TheVariants as page;
ghost use Rattle.room_requests.specs.Visits.{Answers, IsEither};
ghost use Rattle.room_requests.specs.declared.pages.PageFound.TheVariants as found;
ghost use Rattle.reading_room.specs.Room.{IsPersonIn, room};

use masking::laws::what_is_hidden_changes_nothing;
use room_requests::laws::what_is_shown_decides;

/// Equal masked records answer the same bytes alike, but for a head that is malformed or cut, and too large: it may be
/// answered with 400 or 431, neither of which tells of the records.
pub fn the_records_decide()
    ensures { (m n : Records) (input one two : List ℕ) → m ≡ n → Answers (room m) input one
        → Answers (room n) input two → (one ≡ two) ⊎ (IsEither one × IsEither two) }
{
    what_is_shown_decides();
}

/// What is hidden of a sound archive changes no answer: two that differ only in what is hidden answer the same bytes
/// alike, that one case apart.
pub fn what_is_hidden_changes_no_answer()
    ensures { (a b : Content) (today : ℤ) (s t : Content) (input one two : List ℕ) → IsSound a → IsSound b
        → AreAlike a b today → IsMasked a today s → IsMasked b today t → Answers (room s.records) input one
        → Answers (room t.records) input two → (one ≡ two) ⊎ (IsEither one × IsEither two) }
{
    what_is_hidden_changes_nothing();
    what_is_shown_decides();
}

/// Whether the person is shown comes before the query: without one, a pedigree is not there, whatever is asked of it.
pub fn a_missing_person_is_told_first()
    ensures { (m : Records) (n : ℕ) (query : List ℕ) → ¬ (IsPersonIn m n)
        → room m (page.Pedigree n) query ≡ found.NotShown }
{}
