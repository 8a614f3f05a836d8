//! What holds of the masked state, whoever makes it.

ghost use Rattle.std.specs.Prelude.{◌≡◌, ℕ, ℤ, [], map, true, Some, None};
ghost use Rattle.std.specs.FinMap.{get};
ghost use Rattle.record_kinds.specs.Model as model;
ghost use Rattle.record_kinds.specs.declared.record.Record.TheVariants as kind;
ghost use Rattle.archive_state.specs.Carried.{carried};
ghost use Rattle.archive_state.specs.Content.{Content};
ghost use Rattle.archive_state.specs.Sound.{EachIn, IsSound};
ghost use Rattle.masking.specs.Life.{IsDead, IsLiving, IsPersonAt, is_partner};
ghost use Rattle.masking.specs.Closing.{IsOpen};
ghost use Rattle.masking.specs.Masking.{IsMasked, a_living_person, shown_name};
ghost use Rattle.masking.specs.Hidden.{AreAlike};

/// An archive has one masked state on a day.
pub fn an_archive_has_one_masked_state()
    ensures { (c : Content) (today : ℤ) (s t : Content) → IsMasked c today s → IsMasked c today t → s ≡ t }
{}

/// What is shown of a sound archive is sound.
pub fn what_is_shown_is_sound()
    ensures { (c : Content) (today : ℤ) (s : Content) → IsSound c → IsMasked c today s → IsSound s }
{}

/// Of a living person nothing is shown but the number and the one name `Living`.
pub fn of_the_living_nothing_is_shown()
    ensures { (c : Content) (today : ℤ) (s : Content) (n : ℕ) → IsMasked c today s → IsLiving c.records today n
        → get s.records n ≡ Some (kind.Person a_living_person) }
{}

/// Events of the living are not shown, nor those of a family with a living partner, whoever the other is.
pub fn events_of_the_living_are_gone()
    ensures own { (c : Content) (today : ℤ) (s : Content) (n : ℕ) (e : model.Event) → IsMasked c today s
        → get c.records n ≡ Some (kind.Event e) → IsLiving c.records today e.owner → get s.records n ≡ None }
    ensures family { (c : Content) (today : ℤ) (s : Content) (n k : ℕ) (e : model.Event) (x : model.Family)
        → IsMasked c today s → get c.records n ≡ Some (kind.Event e) → get c.records e.owner ≡ Some (kind.Family x)
        → is_partner k x ≡ true → IsLiving c.records today k → get s.records n ≡ None }
{}

/// No carried line is shown.
pub fn no_carried_line_is_shown()
    ensures { (c : Content) (today : ℤ) (s : Content) → IsMasked c today s → EachIn s.records (λ n r. carried r ≡ []) }
{}

/// The dead are shown with their names and their sex.
pub fn the_dead_are_shown()
    ensures { (c : Content) (today : ℤ) (s : Content) (n : ℕ) (p : model.Person) → IsMasked c today s
        → get c.records n ≡ Some (kind.Person p) → IsDead c.records today n
        → get s.records n ≡ Some (kind.Person (record p { names = map shown_name p.names; carried = [] })) }
{}

/// An open entry is shown as it is, and a closed one not at all.
pub fn open_entries_are_shown()
    ensures shown { (c : Content) (today : ℤ) (s : Content) (n : ℕ) (e : model.Entry) → IsMasked c today s
        → get c.records n ≡ Some (kind.Entry e) → IsOpen c.records today e → get s.records n ≡ Some (kind.Entry e) }
    ensures gone { (c : Content) (today : ℤ) (s : Content) (n : ℕ) (e : model.Entry) → IsMasked c today s
        → get c.records n ≡ Some (kind.Entry e) → ¬ (IsOpen c.records today e) → get s.records n ≡ None }
{}

/// What is hidden of a sound archive changes nothing that is shown: of two that differ only in what is hidden the same
/// records are shown.
pub fn what_is_hidden_changes_nothing()
    ensures { (a b : Content) (today : ℤ) (s t : Content) → IsSound a → IsSound b → AreAlike a b today
        → IsMasked a today s → IsMasked b today t → s.records ≡ t.records }
{}
