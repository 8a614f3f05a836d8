//! Laws of files and forests, over the definitions that the contracts cite.

ghost use Rattle.std.specs.Prelude.{◌≡◌, ◌⊎◌, ◌≤◌, ◌++◌, ℕ, List, length};
ghost use Rattle.gedcom_tree.specs.Forest.{Item};
ghost use Rattle.gedcom_rules.specs.Faults.{Fault, Decides, FaultOf};
ghost use Rattle.gedcom_tree.specs.File.{ReadsFile};
ghost use Rattle.gedcom_tree.specs.Text.{IsForest, IsSame, HasShortLines, text};

/// A file reads as one forest at the most or has one fault, never both and never neither; and what a file
/// reads as is a forest.
pub fn a_file_is_one_thing()
    ensures forest { (b : List ℕ) (f : List Item) → ReadsFile b f → IsForest f }
    ensures one { (b : List ℕ) (f g : List Item) → ReadsFile b f → ReadsFile b g → f ≡ g }
    ensures fault { (b : List ℕ) (d e : Fault) → FaultOf b d → FaultOf b e → d ≡ e }
    ensures apart { (b : List ℕ) (f : List Item) (e : Fault) → ReadsFile b f → FaultOf b e → ⊥ }
    ensures either { (b : List ℕ) → ((f : List Item) × ReadsFile b f) ⊎ ((e : Fault) × FaultOf b e) }
{}

/// A fault that bytes decide is that of each file that begins with them.
pub fn a_decided_fault_stays()
    ensures { (b more : List ℕ) (f : Fault) → Decides b f → FaultOf (b ++ more) f }
{}

/// The text of a forest is read as that forest, where it is not too large for a file, up to the numbers of
/// lines; and what is read of it has the same text, so what is canonical stays as it is.
pub fn a_text_is_read_again()
    ensures again { (f : List Item) → IsForest f → length (text f) ≤ 67_108_864
        → (g : List Item) × (ReadsFile (text f) g × IsSame f g) }
    ensures settled { (f g : List Item) → IsForest f → ReadsFile (text f) g → text g ≡ text f }
{}

/// No line of a forest's text has more than 301 characters with its LF.
pub fn a_line_of_a_text_is_short()
    ensures { (f : List Item) → IsForest f → HasShortLines (text f) }
{}
