//! Repositories and sources.

use record_text::Text;
use std::marker::Model;
use stored_lines::Carried;

/// A repository.
pub struct Repo {
    pub name: Option<Text>,
    pub carried: Vec<Carried>,
}

// It is written out, so that no crate above proves again how each part is dropped.
impl Drop for Repo {
    fn drop(self) {
        let Repo {
            name: _,
            carried: _,
        } = self;
    }
}

impl Model for Repo {
    ghost use Rattle.std.specs.Coded.{codes};
    ghost use Rattle.stored_lines.specs.Line.{lines_code, value_code};
    ghost use Rattle.record_kinds.specs.Model as model;

    ghost Value = { model.Repo };

    ghost coded = { Prim.hlevel (codes, lines_code, value_code) };

    ghost view = { λ a. record { name = a.name; carried = a.carried.items } };
}

/// Where a source is kept.
pub struct Holding {
    /// The number of the repository.
    pub repo: u32,
    pub call_number: Option<Text>,
    pub carried: Vec<Carried>,
}

// It is written out, so that no crate above proves again how each part is dropped.
impl Drop for Holding {
    fn drop(self) {
        let Holding {
            repo: _,
            call_number: _,
            carried: _,
        } = self;
    }
}

impl Model for Holding {
    ghost use Rattle.std.specs.Coded.{codes};
    ghost use Rattle.stored_lines.specs.Line.{lines_code, value_code};
    ghost use Rattle.record_kinds.specs.Model as model;

    ghost Value = { model.Holding };

    ghost coded = { Prim.hlevel (codes, lines_code, value_code) };

    ghost view = { λ a. record { repo = a.repo; call_number = a.call_number; carried = a.carried.items } };
}

/// A source.
pub struct Source {
    pub title: Option<Text>,
    pub author: Option<Text>,
    pub publisher: Option<Text>,
    pub holdings: Vec<Holding>,
    pub carried: Vec<Carried>,
}

// It is written out, so that no crate above proves again how each part is dropped.
impl Drop for Source {
    fn drop(self) {
        let Source {
            title: _,
            author: _,
            publisher: _,
            holdings: _,
            carried: _,
        } = self;
    }
}

impl Model for Source {
    ghost use Rattle.std.specs.Coded.{codes};
    ghost use Rattle.stored_lines.specs.Line.{lines_code, value_code};
    ghost use Rattle.record_kinds.specs.Model as model;

    ghost Value = { model.Source };

    ghost coded = { Prim.hlevel (codes, lines_code, value_code) };

    ghost view = { λ a. record {
      title = a.title;
      author = a.author;
      publisher = a.publisher;
      holdings = a.holdings.items;
      carried = a.carried.items;
    } };
}
