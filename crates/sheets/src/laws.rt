//! What holds of sheets, whoever makes them.

ghost use Rattle.std.specs.Prelude.{◌≡◌, ◌+◌, ◌*◌, ◌<◌, ℕ, ℤ, List, Some};
ghost use Rattle.std.specs.Option.{option_and_then};
ghost use Rattle.record_fields.specs.declared.words.Partnership.TheVariants.{Husband, Wife};
ghost use Rattle.archive_state.specs.Content.{Content};
ghost use Rattle.archive_state.specs.Sound.{IsSound};
ghost use Rattle.masking.specs.Hidden.{AreAlike};
ghost use Rattle.masking.specs.Masking.{IsMasked};
ghost use Rattle.sheets.specs.Gathered.{Gathered};
ghost use Rattle.sheets.specs.Pages as pages;
ghost use Rattle.sheets.specs.Pedigrees as pedigrees;
ghost use Rattle.sheets.specs.Sheets as sheets;

/// What is hidden of a sound archive changes no sheet and no page: two that differ only in what is hidden have the
/// same.
pub fn what_is_hidden_changes_no_sheet()
    ensures person { (a b : Content) (today : ℤ) (s t : Content) (n : ℕ) → IsSound a → IsSound b → AreAlike a b today
        → IsMasked a today s → IsMasked b today t
        → sheets.person_sheet s.records n ≡ sheets.person_sheet t.records n }
    ensures family { (a b : Content) (today : ℤ) (s t : Content) (n : ℕ) → IsSound a → IsSound b → AreAlike a b today
        → IsMasked a today s → IsMasked b today t
        → sheets.family_sheet s.records n ≡ sheets.family_sheet t.records n }
    ensures register { (a b : Content) (today : ℤ) (s t : Content) (n : ℕ) → IsSound a → IsSound b → AreAlike a b today
        → IsMasked a today s → IsMasked b today t
        → sheets.register_sheet s.records n ≡ sheets.register_sheet t.records n }
    ensures pedigree { (a b : Content) (today : ℤ) (s t : Content) (n generations : ℕ) → IsSound a → IsSound b
        → AreAlike a b today → IsMasked a today s → IsMasked b today t
        → pedigrees.pedigree s.records n generations ≡ pedigrees.pedigree t.records n generations }
    ensures index { (a b : Content) (today : ℤ) (s t : Content) → IsSound a → IsSound b → AreAlike a b today
        → IsMasked a today s → IsMasked b today t → pages.index_page s.records ≡ pages.index_page t.records }
    ensures surname { (a b : Content) (today : ℤ) (s t : Content) (surname : List ℕ) → IsSound a → IsSound b
        → AreAlike a b today → IsMasked a today s → IsMasked b today t
        → pages.surname_page s.records surname ≡ pages.surname_page t.records surname }
{
    masking::laws::what_is_hidden_changes_nothing();
}

/// In a pedigree the subject stands at 1, the father of who stands at n at 2n, the mother at 2n + 1.
pub fn a_pedigree_is_numbered_by_ancestors()
    ensures subject { (g : Gathered) (s : ℕ) → pedigrees.stands_at g s 1 ≡ Some s }
    ensures father { (g : Gathered) (s n : ℕ) → 0 < n → pedigrees.stands_at g s (2 * n)
        ≡ option_and_then (pedigrees.parent g Husband) (pedigrees.stands_at g s n) }
    ensures mother { (g : Gathered) (s n : ℕ) → 0 < n → pedigrees.stands_at g s (2 * n + 1)
        ≡ option_and_then (pedigrees.parent g Wife) (pedigrees.stands_at g s n) }
{}
