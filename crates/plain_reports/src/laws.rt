//! What is counted is what a plain archive has not.

ghost use Rattle.std.specs.Prelude.{◌≡◌, ◌⊎◌, ◌++◌, ℕ, [], Some, None, false, true};
ghost use Rattle.std.specs.FinMap.{get, keys};
ghost use Rattle.std.specs.List.{filter, list_any};
ghost use Rattle.record_kinds.specs.Model as model;
ghost use Rattle.record_kinds.specs.declared.record.Record.{Record};
ghost use Rattle.record_kinds.specs.declared.record.Record.TheVariants as kind;
ghost use Rattle.stored_lines.specs.Line.{Lines};
ghost use Rattle.archive_state.specs.Content.{Records};
ghost use Rattle.plain_export.specs.Kept.{kept};
ghost use Rattle.plain_export.specs.LeftOut as leaving;
ghost use Rattle.plain_export.specs.Plain as plain;

/// What is counted is left out: places and records with a tag of our own have no record in the plain archive, and of
/// the persons who are counted no line with a further sex is there.
pub fn what_is_counted_is_left_out()
    ensures lines { (m p : Records) (n : ℕ) → plain.IsPlain m p
        → plain.IsAmong n (leaving.those leaving.carries_lines m) → get p n ≡ None }
    ensures unnamed { (m p : Records) (n : ℕ) → plain.IsPlain m p
        → plain.IsAmong n (filter (leaving.is_unnamed m) (keys m)) → get p n ≡ None }
    ensures own { (m p : Records) (n : ℕ) → plain.IsPlain m p
        → plain.IsAmong n (leaving.those leaving.is_our_own m) → get p n ≡ None }
    ensures sexes { (m : Records) (n : ℕ) (x : model.Person)
        → plain.IsAmong n (leaving.those leaving.has_second_sex m) → get m n ≡ Some (kind.Person x)
        → list_any plain.is_sex (plain.plain_person m [] x).carried ≡ false }
{}

/// What is left out is counted: each record has one in the plain archive, or is a place, a register entry, or counted
/// with a tag of our own; a place has no lines of its own and is named, or is counted; a person keeps the sexes that
/// are carried, or is counted.
pub fn what_is_left_out_is_counted()
    ensures records { (m p : Records) (n : ℕ) (r : Record) → plain.IsPlain m p → get m n ≡ Some r
        → ((s : Record) × (get p n ≡ Some s))
        ⊎ ((x : model.Place) × (r ≡ kind.Place x))
        ⊎ ((x : model.Entry) × (r ≡ kind.Entry x))
        ⊎ plain.IsAmong n (leaving.those leaving.is_our_own m) }
    ensures lines { (m : Records) (n : ℕ) (x : model.Place) → get m n ≡ Some (kind.Place x)
        → (x.carried ≡ []) ⊎ plain.IsAmong n (leaving.those leaving.carries_lines m) }
    ensures named { (m : Records) (n : ℕ) (x : model.Place) → get m n ≡ Some (kind.Place x)
        → ((k : ℕ) × (leaving.names_place n (get m k) ≡ true))
        ⊎ plain.IsAmong n (filter (leaving.is_unnamed m) (keys m)) }
    ensures sexes { (m : Records) (n : ℕ) (more : Lines) (x : model.Person) → get m n ≡ Some (kind.Person x)
        → ((plain.plain_person m more x).carried ≡ kept m x.carried ++ more)
        ⊎ plain.IsAmong n (leaving.those leaving.has_second_sex m) }
{}
