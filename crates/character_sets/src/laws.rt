//! What holds of the sets.
//!
//! What holds of lines.

ghost use Rattle.std.specs.Prelude.{◌≡◌, ◌<◌, ℕ, List, []};
ghost use Rattle.std.specs.List.{AllByRecursion};
ghost use Rattle.character_sets.specs.Again.{IsReadAgain};
ghost use Rattle.character_sets.specs.Sets.{characters};
ghost use Rattle.character_sets.specs.declared.set.CharacterSet.{CharacterSet};
ghost use Rattle.character_sets.specs.declared.tables.TheConstants.{
  CODE_PAGE_437,
  CODE_PAGE_850,
  MACINTOSH,
  WINDOWS_1252,
};
ghost use Rattle.character_sets.specs.declared.set.CharacterSet.TheVariants.{
  CodePage437,
  CodePage850,
  Macintosh,
  Windows1252,
};
ghost use Rattle.character_sets.specs.Kept.{HaveSameEnds};
ghost use Rattle.character_sets.specs.Lines.{Line, lines, units_of};
ghost use Rattle.character_sets.specs.Moves.{moved};

/// Units of ASCII are their characters in each set.
pub fn ascii_stays()
    ensures { (set : CharacterSet) (units : List ℕ) → AllByRecursion (λ u. u < 128) units
        → characters set units ≡ units }
{}

/// A code page read and written again gives the same bytes: each byte that it has is that of its character.
pub fn code_pages_are_read_again()
    ensures windows { IsReadAgain WINDOWS_1252 }
    ensures page_437 { IsReadAgain CODE_PAGE_437 }
    ensures page_850 { IsReadAgain CODE_PAGE_850 }
    ensures macintosh { IsReadAgain MACINTOSH }
{}

/// A file is its lines, one after the other.
pub fn a_file_is_its_lines()
    ensures { (units : List ℕ) → units_of (lines units) ≡ units }
{}

/// No line is joined with another: where units go to the next line, there are as many lines, with the same ends.
pub fn no_line_is_joined()
    ensures { (set : CharacterSet) (carry : List ℕ) (ls : List Line) → HaveSameEnds (moved set carry ls) ls }
{}

/// In a code page no unit goes to the next line.
pub fn lines_of_a_code_page_stay()
    ensures windows { (ls : List Line) → moved Windows1252 [] ls ≡ ls }
    ensures page_437 { (ls : List Line) → moved CodePage437 [] ls ≡ ls }
    ensures page_850 { (ls : List Line) → moved CodePage850 [] ls ≡ ls }
    ensures macintosh { (ls : List Line) → moved Macintosh [] ls ≡ ls }
{}
