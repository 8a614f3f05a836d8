//! Persons and families as branches.

ghost use Rattle.std.specs.Prelude.{◌≡◌, IfOk, Some, map, option_map};
ghost use Rattle.stored_lines.specs.Levels.{AreShallow};
ghost use Rattle.records.specs.Shallow.{InName, InPerson, InPartner, InChild, InFamily};
ghost use Rattle.records.specs.Stored.{name_tree, person_tree, partner_tree, child_tree, family_tree};
ghost use Rattle.std.specs.Option.{unwrap_or};
ghost use Rattle.record_fields.specs.Words.{sex_word, partnership_word, sex_of, partnership_of};
ghost use Rattle.record_fields.specs.declared.words.Partnership.TheVariants as partnerships;
ghost use Rattle.records.specs.Reading.{
  shallow_lines,
  name_from,
  person_from,
  partner_from,
  child_from,
  family_from,
  read_by,
  under,
};
ghost use Rattle.records.specs.declared.field.Field.TheVariants as field;

use crate::field::Field;
use crate::part::{Part, parts_at, push_parts};
use crate::reading::{children_of, lines_at, number_or_zero, text_at, text_or_none};
use crate::writing::{push_lines, push_text};
use record_fields::{Partnership, Sex};
use record_kinds::{Child, Family, Name, Partner, Person};
use record_text::Text;
use std::alloc::{AllocError, Global};
use stored_lines::Branch;

impl Part for Name {
    ghost kept_as = { name_tree };

    ghost read_of = { name_from shallow_lines };

    ghost is_shallow = { InName AreShallow };

    fn write(&self, alloc: Global) -> Result<Branch, AllocError> {
        let mut below = Vec::new(alloc);
        push_lines(alloc, &mut below, Field::Carried, &self.carried)?;
        let text = Some(self.text.copy(alloc)?);
        Field::Name.branch(alloc, text, None, below)
    }

    fn read(alloc: Global, branch: &Branch) -> Result<Name, AllocError> {
        let parts = children_of(branch);
        Ok(Name {
            text: text_or_none(alloc, &branch.text)?,
            carried: lines_at(alloc, parts, Field::Carried)?,
        })
    }
}

impl Part for Person {
    ghost kept_as = { person_tree };

    ghost read_of = { person_from shallow_lines };

    ghost is_shallow = { InPerson AreShallow };

    fn write(&self, alloc: Global) -> Result<Branch, AllocError> {
        let mut below = Vec::new(alloc);
        push_parts(alloc, &mut below, &self.names)?;
        push_text(alloc, &mut below, Field::Sex, sex_text(alloc, self.sex)?)?;
        push_lines(alloc, &mut below, Field::Carried, &self.carried)?;
        Field::Person.branch(alloc, None, None, below)
    }

    fn read(alloc: Global, branch: &Branch) -> Result<Person, AllocError> {
        let parts = children_of(branch);
        Ok(Person {
            names: parts_at(alloc, parts, Field::Name)?,
            sex: sex_in(&text_at(alloc, parts, Field::Sex)?),
            carried: lines_at(alloc, parts, Field::Carried)?,
        })
    }
}

impl Part for Partner {
    ghost kept_as = { partner_tree };

    ghost read_of = { partner_from shallow_lines };

    ghost is_shallow = { InPartner AreShallow };

    fn write(&self, alloc: Global) -> Result<Branch, AllocError> {
        let mut below = Vec::new(alloc);
        push_lines(alloc, &mut below, Field::Side, &self.carried_by_person)?;
        push_lines(alloc, &mut below, Field::Carried, &self.carried)?;
        let text = partnership_text(alloc, self.partnership)?;
        Field::Partner.branch(alloc, text, Some(self.person), below)
    }

    fn read(alloc: Global, branch: &Branch) -> Result<Partner, AllocError> {
        let parts = children_of(branch);
        Ok(Partner {
            partnership: partnership_in(&branch.text),
            person: number_or_zero(branch.target),
            carried: lines_at(alloc, parts, Field::Carried)?,
            carried_by_person: lines_at(alloc, parts, Field::Side)?,
        })
    }
}

impl Part for Child {
    ghost kept_as = { child_tree };

    ghost read_of = { child_from shallow_lines };

    ghost is_shallow = { InChild AreShallow };

    fn write(&self, alloc: Global) -> Result<Branch, AllocError> {
        let mut below = Vec::new(alloc);
        push_lines(alloc, &mut below, Field::Side, &self.carried_by_person)?;
        push_lines(alloc, &mut below, Field::Carried, &self.carried)?;
        Field::Child.branch(alloc, None, Some(self.person), below)
    }

    fn read(alloc: Global, branch: &Branch) -> Result<Child, AllocError> {
        let parts = children_of(branch);
        Ok(Child {
            person: number_or_zero(branch.target),
            carried: lines_at(alloc, parts, Field::Carried)?,
            carried_by_person: lines_at(alloc, parts, Field::Side)?,
        })
    }
}

impl Part for Family {
    ghost kept_as = { family_tree };

    ghost read_of = { family_from shallow_lines };

    ghost is_shallow = { InFamily AreShallow };

    fn write(&self, alloc: Global) -> Result<Branch, AllocError> {
        let mut below = Vec::new(alloc);
        push_parts(alloc, &mut below, &self.partners)?;
        push_parts(alloc, &mut below, &self.children)?;
        push_lines(alloc, &mut below, Field::Carried, &self.carried)?;
        Field::Family.branch(alloc, None, None, below)
    }

    fn read(alloc: Global, branch: &Branch) -> Result<Family, AllocError> {
        let parts = children_of(branch);
        Ok(Family {
            partners: parts_at(alloc, parts, Field::Partner)?,
            children: children_at(alloc, parts)?,
            carried: lines_at(alloc, parts, Field::Carried)?,
        })
    }
}

/// The children of a family.
fn children_at(alloc: Global, branches: &[Branch]) -> Result<Vec<Child>, AllocError>
    ensures { IfOk result (λ c. c.items ≡ map (child_from shallow_lines) (under field.Child branches.now)) }
{
    parts_at(alloc, branches, Field::Child)
}

/// The letter of a sex as a text, where there is one.
#[tactic(auto, using(record_fields::proofs::Worded::sex_is_plain))]
fn sex_text(alloc: Global, sex: Option<Sex>) -> Result<Option<Text>, AllocError>
    ensures { IfOk result (λ t. t ≡ option_map sex_word sex) }
{
    match sex {
        None => Ok(None),
        Some(sex) => Ok(Some(Text::of_words(alloc, sex.as_str())?)),
    }
}

/// The sex of a text, where there is one.
fn sex_in(text: &Option<Text>) -> Option<Sex>
    ensures { result ≡ read_by sex_of text.now }
{
    match text {
        None => None,
        Some(text) => Sex::from_word(text.as_str()),
    }
}

/// The word of a partnership as a text.
#[tactic(auto, using(record_fields::proofs::Worded::partnership_is_plain))]
fn partnership_text(alloc: Global, partnership: Partnership) -> Result<Option<Text>, AllocError>
    ensures { IfOk result (λ t. t ≡ Some (partnership_word partnership)) }
{
    Ok(Some(Text::of_words(alloc, partnership.as_str())?))
}

/// The partnership of a text; of other words that of a husband.
fn partnership_in(text: &Option<Text>) -> Partnership
    ensures { result ≡ unwrap_or (read_by partnership_of text.now) partnerships.Husband }
{
    match text {
        None => Partnership::Husband,
        Some(text) => Partnership::from_word(text.as_str()).unwrap_or(Partnership::Husband),
    }
}
