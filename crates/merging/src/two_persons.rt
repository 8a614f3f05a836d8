//! Two persons made one.

ghost use Rattle.std.specs.Prelude.{◌≡◌, IfOk};
ghost use Rattle.archive_state.specs.Merging as merging;
ghost use Rattle.merging.specs.Parts as specs;

use record_fields::Sex;
use record_kinds::Person;
use record_text::{Tag, Text};
use std::alloc::{AllocError, Global};
use stored_lines::{Carried, Value};

/// The names and carried lines of both, and the sex of the first, or else of the other.
pub(crate) fn joined_person(alloc: Global, keep: Person, gone: Person) -> Result<Person, AllocError>
    ensures { IfOk result (λ p. p ≡ merging.joined_person keep gone) }
{
    let mut both = keep;
    let mut gone = gone;
    let mut second = second_sex(alloc, both.sex, gone.sex)?;
    both.sex = sex_of_two(both.sex, gone.sex);
    both.names.append(&mut gone.names)?;
    both.carried.append(&mut gone.carried)?;
    both.carried.append(&mut second)?;
    Ok(both)
}

fn sex_of_two(keep: Option<Sex>, gone: Option<Sex>) -> Option<Sex>
    ensures { result ≡ merging.sex_of_two keep gone }
{
    match keep {
        None => gone,
        Some(sex) => Some(sex),
    }
}

/// The line of the other's sex, where both have one.
fn second_sex(
    alloc: Global,
    keep: Option<Sex>,
    gone: Option<Sex>,
) -> Result<Vec<Carried>, AllocError>
    ensures { IfOk result (λ lines. lines.items ≡ merging.second_sex keep gone) }
{
    let mut lines = Vec::new(alloc);
    if let (Some(_), Some(sex)) = (keep, gone) {
        lines.push(sex_line(alloc, sex)?)?;
    }
    Ok(lines)
}

#[tactic(auto, using(record_fields::proofs::Worded::sex_is_plain))]
fn sex_line(alloc: Global, sex: Sex) -> Result<Carried, AllocError>
    ensures { IfOk result (λ line. line ≡ specs.sex_line sex) }
{
    Ok(Carried {
        tag: Tag::of_word(alloc, "SEX")?,
        value: Value::Text(Text::of_words(alloc, sex.as_str())?),
        children: Vec::new(alloc),
    })
}
