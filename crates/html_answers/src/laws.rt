//! What holds of the answers.

ghost use Rattle.std.specs.Prelude.{◌≡◌, ◌⊎◌, ℕ, ℤ, List, Option, Some, None, codes, true, false};
ghost use Rattle.archive_state.specs.Content.{Content, Records};
ghost use Rattle.archive_state.specs.Sound.{IsSound};
ghost use Rattle.masking.specs.Hidden.{AreAlike};
ghost use Rattle.masking.specs.Masking.{IsMasked};
ghost use Rattle.room_requests.specs.Visits.{AnswersBy, IsEitherBy};
ghost use Rattle.html_answers.specs.Answers.{answer_to};
ghost use Rattle.html_answers.specs.Hosts.{is_local, is_own};

use masking::laws::what_is_hidden_changes_nothing;
use room_requests::laws::the_answers_decide;

/// Equal masked records answer the same bytes alike, but for a head that is malformed or cut, and too large: it may be
/// answered as either, which tells nothing of the records.
pub fn the_records_decide()
    ensures { (m n : Records) (society : List ℕ) (own : Option (List ℕ)) (input one two : List ℕ) → m ≡ n
        → AnswersBy (answer_to m society own) input one → AnswersBy (answer_to n society own) input two
        → (one ≡ two) ⊎ (IsEitherBy (answer_to m society own) one × IsEitherBy (answer_to n society own) two) }
{
    the_answers_decide();
}

/// What is hidden of a sound archive changes no answer: two that differ only in what is hidden answer the same bytes
/// alike, that one case apart.
pub fn what_is_hidden_changes_no_answer()
    ensures { (a b : Content) (today : ℤ) (s t : Content) (society : List ℕ) (own : Option (List ℕ))
        (input one two : List ℕ) → IsSound a → IsSound b → AreAlike a b today → IsMasked a today s
        → IsMasked b today t → AnswersBy (answer_to s.records society own) input one
        → AnswersBy (answer_to t.records society own) input two
        → (one ≡ two) ⊎ (IsEitherBy (answer_to s.records society own) one
        × IsEitherBy (answer_to t.records society own) two) }
{
    what_is_hidden_changes_nothing();
    the_answers_decide();
}

/// A host may have a port and letters of any case, and nothing else before or after its name.
pub fn hosts_are_compared()
    ensures plain { is_local (codes "localhost") ≡ true }
    ensures port { is_local (codes "LocalHost:8080") ≡ true }
    ensures four { is_local (codes "127.0.0.1:80") ≡ true }
    ensures six { is_local (codes "[::1]:8080") ≡ true }
    ensures empty { is_local (codes "") ≡ false }
    ensures before { is_local (codes "my.localhost") ≡ false }
    ensures after { is_local (codes "localhost.example.org") ≡ false }
    ensures words { is_local (codes "localhost:80x") ≡ false }
    ensures own { is_own (Some (codes "room.example.org")) (codes "Room.Example.org:443") ≡ true }
    ensures none { is_own None (codes "room.example.org") ≡ false }
{}
