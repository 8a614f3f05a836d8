//! A row of `apply`, without its token.

ghost use Rattle.std.specs.Prelude.{◌≡◌, ◌++◌, ◌∷◌, [], IfOk, OnOk, decimal, map, string_bytes};
ghost use Rattle.put_back.specs.Rows as rows;

use record_fields::Date;
use record_text::Text;
use std::alloc::{AllocError, Global};
use std::marker::Model;

/// The cells of a row. Contracts see their bytes.
#[derive(Drop)]
pub struct Row {
    cells: Vec<String>,
}

impl Model for Row {
    ghost use Rattle.std.specs.Prelude.{List, ℕ, map, string_bytes};

    ghost Value = { List (List ℕ) };

    ghost view = { λ a. map string_bytes a.cells.items };
}

impl Row {
    /// The cells. Takes no memory.
    pub fn cells(&self) -> &[String]
        ensures { map string_bytes result.now ≡ self.now }
    {
        self.cells.as_slice()
    }
}

/// Appends a row of these cells.
pub(crate) fn push_cells(
    alloc: Global,
    out: &mut Vec<Row>,
    cells: &[&str],
) -> Result<(), AllocError>
    ensures { OnOk result (out.new.items ≡ out.old.items ++ map (λ c. c.now) cells.now ∷ []) }
{
    let row = row_of(alloc, cells)?;
    out.push(row)?;
    Ok(())
}

fn row_of(alloc: Global, texts: &[&str]) -> Result<Row, AllocError>
    ensures { IfOk result (λ row. row ≡ map (λ c. c.now) texts.now) }
{
    let mut cells = Vec::with_capacity(alloc, texts.len())?;
    'each: for text in texts {
        cells.push(String::from_str(alloc, text)?)?;
    }
    Ok(Row { cells })
}

/// Appends the row that puts back a field, where its value was another.
pub(crate) fn put(
    alloc: Global,
    out: &mut Vec<Row>,
    number: u32,
    word: &str,
    old: &str,
    now: &str,
) -> Result<(), AllocError>
    ensures { OnOk result (out.new.items ≡ out.old.items ++ rows.put number word.now old.now now.now) }
{
    if old == now {
        return Ok(());
    }
    let digits = number.to_string(alloc)?;
    push_cells(alloc, out, &["correct", digits.as_str(), word, old])
}

/// The same of a field of a list, by its place in it.
pub(crate) fn put_at(
    alloc: Global,
    out: &mut Vec<Row>,
    number: u32,
    front: &str,
    place: usize,
    old: &str,
    now: &str,
) -> Result<(), AllocError>
    ensures { OnOk result (out.new.items
        ≡ out.old.items ++ rows.put number (front.now ++ decimal place) old.now now.now) }
{
    let word = format!(in alloc; "{front}{place}")?;
    put(alloc, out, number, word.as_str(), old, now)
}

/// The same of a field with a number, or without one.
pub(crate) fn put_number(
    alloc: Global,
    out: &mut Vec<Row>,
    number: u32,
    word: &str,
    old: Option<u32>,
    now: Option<u32>,
) -> Result<(), AllocError>
    ensures { OnOk result (out.new.items
        ≡ out.old.items ++ rows.put number word.now (rows.number_cell old) (rows.number_cell now)) }
{
    let old = number_cell(alloc, old)?;
    let now = number_cell(alloc, now)?;
    put(alloc, out, number, word, old.as_str(), now.as_str())
}

fn number_cell(alloc: Global, number: Option<u32>) -> Result<String, AllocError>
    ensures { IfOk result (λ s. string_bytes s ≡ rows.number_cell number) }
{
    match number {
        None => Ok(String::new(alloc)),
        Some(number) => number.to_string(alloc),
    }
}

pub(crate) fn text_cell(text: &Option<Text>) -> &str
    ensures { result.now ≡ rows.text_cell text.now }
{
    match text {
        None => "",
        Some(text) => text.as_str(),
    }
}

pub(crate) fn date_cell(date: &Option<Date>) -> &str
    ensures { result.now ≡ rows.date_cell date.now }
{
    match date {
        None => "",
        Some(date) => date.as_str(),
    }
}
