//! Records of the other kinds as they are shown.

ghost use Rattle.std.specs.Prelude.{◌≡◌, IfOk, []};
ghost use Rattle.masking.specs.Masking as masking;

use crate::parts::{Part, copied_text, shown_parts};
use record_kinds::{Child, Citation, Family, Holding, Name, Partner, Person, Place, Repo, Source};
use record_text::Text;
use std::alloc::{AllocError, Global};

/// The name of each living person.
const LIVING: &str = "Living";

impl Part for Place {
    ghost shown = { λ p. record p { carried = [] } };

    fn shown(&self, alloc: Global) -> Result<Place, AllocError> {
        Ok(Place {
            name: self.name.copy(alloc)?,
            parent: self.parent,
            carried: Vec::new(alloc),
        })
    }
}

impl Part for Repo {
    ghost shown = { λ r. record r { carried = [] } };

    fn shown(&self, alloc: Global) -> Result<Repo, AllocError> {
        Ok(Repo {
            name: copied_text(alloc, &self.name)?,
            carried: Vec::new(alloc),
        })
    }
}

impl Part for Holding {
    ghost shown = { masking.shown_holding };

    fn shown(&self, alloc: Global) -> Result<Holding, AllocError> {
        Ok(Holding {
            repo: self.repo,
            call_number: copied_text(alloc, &self.call_number)?,
            carried: Vec::new(alloc),
        })
    }
}

impl Part for Source {
    ghost shown = { masking.shown_source };

    fn shown(&self, alloc: Global) -> Result<Source, AllocError> {
        Ok(Source {
            title: copied_text(alloc, &self.title)?,
            author: copied_text(alloc, &self.author)?,
            publisher: copied_text(alloc, &self.publisher)?,
            holdings: shown_parts(alloc, &self.holdings)?,
            carried: Vec::new(alloc),
        })
    }
}

impl Part for Name {
    ghost shown = { masking.shown_name };

    fn shown(&self, alloc: Global) -> Result<Name, AllocError> {
        Ok(Name {
            text: self.text.copy(alloc)?,
            carried: Vec::new(alloc),
        })
    }
}

/// What is shown of a person.
pub(crate) fn shown_person(
    alloc: Global,
    is_living: bool,
    person: &Person,
) -> Result<Person, AllocError>
    ensures { IfOk result (λ p. p ≡ masking.shown_person is_living person.now) }
{
    if is_living {
        a_living_person(alloc)
    } else {
        Ok(Person {
            names: shown_parts(alloc, &person.names)?,
            sex: person.sex,
            carried: Vec::new(alloc),
        })
    }
}

/// What is shown of each living person: one name.
fn a_living_person(alloc: Global) -> Result<Person, AllocError>
    ensures { IfOk result (λ p. p ≡ masking.a_living_person) }
{
    let text = Text::of_words(alloc, LIVING)?;
    let mut names = Vec::new(alloc);
    names.push(Name {
        text,
        carried: Vec::new(alloc),
    })?;
    Ok(Person {
        names,
        sex: None,
        carried: Vec::new(alloc),
    })
}

impl Part for Partner {
    ghost shown = { masking.shown_partner };

    fn shown(&self, alloc: Global) -> Result<Partner, AllocError> {
        Ok(Partner {
            partnership: self.partnership,
            person: self.person,
            carried: Vec::new(alloc),
            carried_by_person: Vec::new(alloc),
        })
    }
}

impl Part for Child {
    ghost shown = { masking.shown_child };

    fn shown(&self, alloc: Global) -> Result<Child, AllocError> {
        Ok(Child {
            person: self.person,
            carried: Vec::new(alloc),
            carried_by_person: Vec::new(alloc),
        })
    }
}

impl Part for Family {
    ghost shown = { masking.shown_family };

    fn shown(&self, alloc: Global) -> Result<Family, AllocError> {
        Ok(Family {
            partners: shown_parts(alloc, &self.partners)?,
            children: shown_parts(alloc, &self.children)?,
            carried: Vec::new(alloc),
        })
    }
}

impl Part for Citation {
    ghost shown = { λ c. record c { carried = [] } };

    fn shown(&self, alloc: Global) -> Result<Citation, AllocError> {
        Ok(Citation {
            owner: self.owner,
            source: self.source,
            page: copied_text(alloc, &self.page)?,
            quality: self.quality,
            carried: Vec::new(alloc),
        })
    }
}
