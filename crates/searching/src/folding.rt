//! Texts folded for a search.

ghost use Rattle.std.specs.Prelude.{◌≡◌, ◌<◌, ◌++◌, [], ◌∷◌, length, map, IfOk, OnOk, MatchOption, chars};
ghost use Rattle.unicode_normalization.specs.Forms.{nfkd};
ghost use Rattle.searching.specs.Folding.{
  apostrophes,
  folded as folded_of,
  folded_name,
  folded_text,
  is_mark as mark_test,
  kept,
  letters_of,
  plain_letters as plain_letters_of,
  unslashed,
};

use std::alloc::{AllocError, Global};
use ucd_case::full_folding;
use ucd_category::GeneralCategory;
use unicode_normalization::slice::extend_nfkd;

/// A text as a search compares it.
pub(crate) fn text(alloc: Global, text: &str) -> Result<Vec<char>, AllocError>
    ensures { IfOk result (λ v. v.items ≡ folded_text (chars text.now)) }
{
    let decomposed = decomposed(alloc, text)?;
    folded(alloc, &decomposed)
}

/// The name of a person as a search compares it.
pub(crate) fn name(alloc: Global, name: &str) -> Result<Vec<char>, AllocError>
    ensures { IfOk result (λ v. v.items ≡ folded_name (chars name.now)) }
{
    let decomposed = decomposed(alloc, name)?;
    let joined = without_slashes(alloc, &decomposed)?;
    folded(alloc, &joined)
}

/// The characters of the text in NFKD (The Unicode Standard, section 3.11).
fn decomposed(alloc: Global, text: &str) -> Result<Vec<char>, AllocError>
    ensures { IfOk result (λ v. v.items ≡ nfkd (chars text.now)) }
{
    let characters: Vec<char> = text.chars().collect(alloc)?;
    let mut decomposed = Vec::new(alloc);
    extend_nfkd(&mut decomposed, &characters)?;
    Ok(decomposed)
}

/// Each slash made an apostrophe.
fn without_slashes(alloc: Global, characters: &[char]) -> Result<Vec<char>, AllocError>
    ensures { IfOk result (λ v. v.items ≡ map unslashed characters.now) }
{
    let mut out = Vec::new(alloc);
    'each: for character in characters {
        out.push(without_slash(*character))?;
    }
    Ok(out)
}

#[tactic(auto, unfolding(crate::specs::Folding::unslashed))]
fn without_slash(c: char) -> char
    ensures { result ≡ unslashed c }
{
    if c == '/' { '\'' } else { c }
}

fn folded(alloc: Global, characters: &[char]) -> Result<Vec<char>, AllocError>
    ensures { IfOk result (λ v. v.items ≡ folded_of characters.now) }
{
    let mut out = Vec::new(alloc);
    let mut rest = characters;
    'each: while let Some((first, after)) = next(rest) {
        push_letters(&mut out, first)?;
        rest = after;
    }
    Ok(out)
}

/// The next character and what follows it, where a space with an acute accent is an apostrophe.
fn next(characters: &[char]) -> Option<(char, &[char])>
    ensures { MatchOption result (characters.now ≡ [])
        (λ x. (apostrophes characters.now ≡ x.0 ∷ apostrophes x.1.now) × (length x.1.now < length characters.now)) }
{
    match characters {
        [' ', '\u{301}', after @ ..] => Some(('\'', after)),
        [first, after @ ..] => Some((*first, after)),
        [] => None,
    }
}

/// One more character, made plain, folded, and left out where it is a mark.
fn push_letters(out: &mut Vec<char>, c: char) -> Result<(), AllocError>
    ensures { OnOk result (out.new.items ≡ out.old.items ++ kept (letters_of c)) }
{
    let letters = plain_letters(c);
    if letters.is_empty() {
        return push_folded(out, c);
    }
    push_all(out, letters)
}

fn push_all(out: &mut Vec<char>, letters: &[char]) -> Result<(), AllocError>
    ensures { OnOk result (out.new.items ≡ out.old.items ++ kept letters.now) }
{
    'each: for letter in letters {
        push_folded(out, *letter)?;
    }
    Ok(())
}

/// One more character, folded, and left out where it is a mark.
fn push_folded(out: &mut Vec<char>, c: char) -> Result<(), AllocError>
    ensures { OnOk result (out.new.items ≡ out.old.items ++ kept (c ∷ [])) }
{
    if is_mark(c) {
        return Ok(());
    }
    let folded = full_folding(c);
    if folded.is_empty() {
        out.push(c)?;
        return Ok(());
    }
    out.extend_from_slice(folded)
}

#[tactic(auto, unfolding(crate::specs::Folding::is_mark))]
fn is_mark(c: char) -> bool
    ensures { result ≡ mark_test c }
{
    GeneralCategory::for_char(c).number() == GeneralCategory::NonspacingMark.number()
}

/// What a letter is looked up as that Unicode does not take apart; nothing for all others.
#[tactic(auto, unfolding(crate::specs::Folding::plain_letters))]
fn plain_letters(c: char) -> &'static [char]
    ensures { result.now ≡ plain_letters_of c }
{
    match c {
        'Ø' | 'ø' => &['o'],
        'Ł' | 'ł' => &['l'],
        'Đ' | 'đ' | 'Ð' | 'ð' => &['d'],
        'Þ' | 'þ' => &['t', 'h'],
        'Æ' | 'æ' => &['a', 'e'],
        'Œ' | 'œ' => &['o', 'e'],
        'ı' => &['i'],
        _ => &[],
    }
}
