//! What holds of a public export, whoever writes it.

ghost use Rattle.std.specs.Prelude.{◌≡◌, ℕ, ℤ, List};
ghost use Rattle.archive_state.specs.Content.{Content, Records};
ghost use Rattle.archive_state.specs.Sound.{IsSound};
ghost use Rattle.gedcom_export.specs.Forest.{exported};
ghost use Rattle.masking.specs.Hidden.{AreAlike};
ghost use Rattle.masking.specs.Masking.{IsMasked};
ghost use Rattle.plain_export.specs.Plain.{IsPlain};

use plain_export::laws::an_archive_has_one_plain_archive;

/// What is hidden of a sound archive changes no public export: two that differ only in what is hidden have the same.
pub fn what_is_hidden_changes_no_export()
    ensures { (a b : Content) (today : ℤ) (s t : Content) (society : List ℕ) → IsSound a → IsSound b
        → AreAlike a b today → IsMasked a today s → IsMasked b today t
        → exported s.records society ≡ exported t.records society }
{
    masking::laws::what_is_hidden_changes_nothing();
}

/// Nor does it change a plain one.
pub fn what_is_hidden_changes_no_plain_export()
    ensures { (a b : Content) (today : ℤ) (s t : Content) (p q : Records) (society : List ℕ) → IsSound a → IsSound b
        → AreAlike a b today → IsMasked a today s → IsMasked b today t → IsPlain s.records p → IsPlain t.records q
        → exported p society ≡ exported q society }
{
    masking::laws::what_is_hidden_changes_nothing();
    an_archive_has_one_plain_archive();
}
