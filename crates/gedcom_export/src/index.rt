//! What an export shows of other records.

ghost use Rattle.std.specs.Prelude.{◌≡◌, ◌==◌, OnOk, option_copied};
ghost use Rattle.std.specs.FinMap as map;
ghost use Rattle.std.specs.List.{filter};
ghost use Rattle.gedcom_export.specs.Arranging.{IsArrangement};
ghost use Rattle.gedcom_export.specs.Index as index;
ghost use Rattle.gedcom_export.specs.declared.membership.Membership as membership;
ghost use Rattle.gedcom_export.specs.declared.index_owned.Owned as owned;
ghost use Rattle.gedcom_export.specs.Adding as adding;

use crate::index_owned::{Owned, owned_by, sort_owned};
use crate::maps::{put_name, put_rank};
use crate::membership::{
    Membership, memberships_of, push_children, push_partners, sort_memberships,
};
use crate::place_name::PlaceName;
use crate::rank::{Rank, letter_of};
use record_kinds::{Family, Place, Record};
use std::alloc::{AllocError, Global};
use std::collections::BTreeMap;
use std::marker::Model;

/// What the lines of records show of other records, and what each record owns.
pub struct Index {
    /// The kind of each number that has a letter of its own.
    ranks: BTreeMap<u32, Rank>,
    /// The places.
    names: BTreeMap<u32, PlaceName>,
    events: Vec<Owned>,
    citations: Vec<Owned>,
    child_in: Vec<Membership>,
    partner_in: Vec<Membership>,
    places: Vec<u32>,
    repos: Vec<u32>,
    sources: Vec<u32>,
    persons: Vec<u32>,
    families: Vec<u32>,
    entries: Vec<u32>,
    others: Vec<u32>,
}

// It is written out, so that no crate above proves again how each part is dropped.
impl Drop for Index {
    fn drop(self) {
        let Index {
            ranks: _,
            names: _,
            events: _,
            citations: _,
            child_in: _,
            partner_in: _,
            places: _,
            repos: _,
            sources: _,
            persons: _,
            families: _,
            entries: _,
            others: _,
        } = self;
    }
}

impl Model for Index {
    ghost use Rattle.std.specs.Coded.{codes, coded_ℕ, coded_list};
    ghost use Rattle.std.specs.FinMap as map;
    ghost use Rattle.stored_lines.specs.Line.{lines_code, value_code};
    ghost use Rattle.gedcom_export.specs.Index as index;

    ghost Value = { index.Index };

    ghost coded = { Prim.hlevel (codes, map.code, lines_code, value_code) };

    ghost view = { λ a. record {
      ranks = map.from_entries a.ranks.entries;
      names = map.from_entries a.names.entries;
      events = a.events.items;
      citations = a.citations.items;
      child_in = a.child_in.items;
      partner_in = a.partner_in.items;
      places = a.places.items;
      repos = a.repos.items;
      sources = a.sources.items;
      persons = a.persons.items;
      families = a.families.items;
      entries = a.entries.items;
      others = a.others.items;
    } };
}

impl Index {
    /// Nothing gathered yet. Takes no memory.
    pub fn new(alloc: Global) -> Index
        ensures { result ≡ adding.nothing }
    {
        Index {
            ranks: BTreeMap::new(alloc),
            names: BTreeMap::new(alloc),
            events: Vec::new(alloc),
            citations: Vec::new(alloc),
            child_in: Vec::new(alloc),
            partner_in: Vec::new(alloc),
            places: Vec::new(alloc),
            repos: Vec::new(alloc),
            sources: Vec::new(alloc),
            persons: Vec::new(alloc),
            families: Vec::new(alloc),
            entries: Vec::new(alloc),
            others: Vec::new(alloc),
        }
    }

    /// Adds what is shown of a record. The numbers have to ascend.
    pub fn add(&mut self, alloc: Global, number: u32, found: &Record) -> Result<(), AllocError>
        ensures { OnOk result (self.new ≡ adding.added number found.now self.old) }
    {
        match found {
            Record::Place(place) => self.add_place(alloc, number, place),
            Record::Repo(_) => self.add_repo(number),
            Record::Source(_) => self.add_source(number),
            Record::Person(_) => self.add_person(number),
            Record::Family(family) => self.add_family(alloc, number, family),
            Record::Entry(_) => self.add_entry(number),
            Record::Other(_) => self.add_other(number),
            Record::Event(event) => self.add_event(event.owner, number),
            Record::Citation(citation) => self.add_citation(citation.owner, number),
        }
    }

    fn add_place(&mut self, alloc: Global, number: u32, place: &Place) -> Result<(), AllocError>
        ensures { OnOk result (self.new ≡ adding.with_place number place.now self.old) }
    {
        let name = place.name.copy(alloc)?;
        let parent = place.parent;
        put_rank(&mut self.ranks, number, Rank::Places)?;
        put_name(&mut self.names, number, PlaceName { name, parent })?;
        self.places.push(number)?;
        Ok(())
    }

    fn add_family(&mut self, alloc: Global, number: u32, family: &Family) -> Result<(), AllocError>
        ensures { OnOk result (self.new ≡ adding.with_family number family.now self.old) }
    {
        put_rank(&mut self.ranks, number, Rank::Families)?;
        push_children(alloc, &mut self.child_in, number, &family.children)?;
        push_partners(alloc, &mut self.partner_in, number, &family.partners)?;
        self.families.push(number)?;
        Ok(())
    }

    fn add_other(&mut self, number: u32) -> Result<(), AllocError>
        ensures { OnOk result (self.new ≡ adding.with_other number self.old) }
    {
        self.others.push(number)?;
        Ok(())
    }

    fn add_event(&mut self, owner: u32, number: u32) -> Result<(), AllocError>
        ensures { OnOk result (self.new ≡ adding.with_event owner number self.old) }
    {
        self.events.push(Owned { owner, number })?;
        Ok(())
    }

    fn add_citation(&mut self, owner: u32, number: u32) -> Result<(), AllocError>
        ensures { OnOk result (self.new ≡ adding.with_citation owner number self.old) }
    {
        self.citations.push(Owned { owner, number })?;
        Ok(())
    }

    fn add_repo(&mut self, number: u32) -> Result<(), AllocError>
        ensures { OnOk result (self.new ≡ adding.with_repo number self.old) }
    {
        put_rank(&mut self.ranks, number, Rank::Repos)?;
        self.repos.push(number)?;
        Ok(())
    }

    fn add_source(&mut self, number: u32) -> Result<(), AllocError>
        ensures { OnOk result (self.new ≡ adding.with_source number self.old) }
    {
        put_rank(&mut self.ranks, number, Rank::Sources)?;
        self.sources.push(number)?;
        Ok(())
    }

    fn add_person(&mut self, number: u32) -> Result<(), AllocError>
        ensures { OnOk result (self.new ≡ adding.with_person number self.old) }
    {
        put_rank(&mut self.ranks, number, Rank::Persons)?;
        self.persons.push(number)?;
        Ok(())
    }

    fn add_entry(&mut self, number: u32) -> Result<(), AllocError>
        ensures { OnOk result (self.new ≡ adding.with_entry number self.old) }
    {
        put_rank(&mut self.ranks, number, Rank::Entries)?;
        self.entries.push(number)?;
        Ok(())
    }

    /// Puts the owners in ascending order.
    pub(crate) fn arrange(&mut self) -> Result<(), AllocError>
        ensures { OnOk result (IsArrangement self.old self.new) }
    {
        sort_owned(&mut self.events)?;
        sort_owned(&mut self.citations)?;
        sort_memberships(&mut self.child_in)?;
        sort_memberships(&mut self.partner_in)?;
        Ok(())
    }

    /// The events of a record, by number. Takes no memory.
    pub fn events_of(&self, owner: u32) -> &[Owned]
        ensures { index.IsArranged self.now
            → result.now ≡ filter (λ (o : owned.Owned). o.owner == owner) self.now.events }
    {
        owned_by(&self.events, owner)
    }

    /// The citations of a record, by number. Takes no memory.
    pub fn citations_of(&self, owner: u32) -> &[Owned]
        ensures { index.IsArranged self.now
            → result.now ≡ filter (λ (o : owned.Owned). o.owner == owner) self.now.citations }
    {
        owned_by(&self.citations, owner)
    }

    /// The families where a person is a child, by number. Takes no memory.
    pub fn child_in(&self, person: u32) -> &[Membership]
        ensures { index.IsArranged self.now
            → result.now ≡ filter (λ (x : membership.Membership). x.person == person) self.now.child_in }
    {
        memberships_of(&self.child_in, person)
    }

    /// The families where a person is a partner, by number. Takes no memory.
    pub fn partner_in(&self, person: u32) -> &[Membership]
        ensures { index.IsArranged self.now
            → result.now ≡ filter (λ (x : membership.Membership). x.person == person) self.now.partner_in }
    {
        memberships_of(&self.partner_in, person)
    }

    /// The numbers of the records of a kind, ascending. Takes no memory.
    pub fn numbers(&self, rank: Rank) -> &[u32]
        ensures { result.now ≡ index.numbers_in self.now rank }
    {
        match rank {
            Rank::Places => &self.places,
            Rank::Repos => &self.repos,
            Rank::Sources => &self.sources,
            Rank::Persons => &self.persons,
            Rank::Families => &self.families,
            Rank::Entries => &self.entries,
            Rank::Others => &self.others,
        }
    }

    /// The letter of a number: `X` where it has none of its own. Takes no memory.
    pub(crate) fn letter(&self, number: u32) -> &'static str
        ensures { result.now ≡ index.letter_in self.now number }
    {
        match self.rank(number) {
            Some(rank) => letter_of(*rank),
            None => "X",
        }
    }

    /// The kind of a number that has a letter of its own. Takes no memory.
    fn rank(&self, number: u32) -> Option<&Rank>
        ensures { option_copied result ≡ map.get self.now.ranks number }
    {
        self.ranks.get(&number)
    }

    /// The name of a place, and the number of the place that it is within. Takes no memory.
    pub(crate) fn place(&self, number: u32) -> Option<&PlaceName>
        ensures { option_copied result ≡ map.get self.now.names number }
    {
        self.names.get(&number)
    }
}
