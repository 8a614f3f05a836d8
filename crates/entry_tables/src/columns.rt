//! The columns of a table: how many of each role there are.

ghost use Rattle.std.specs.Prelude.{◌≡◌, ◌∷◌, ◌++◌, ◌<◌, [], IfOk, OnOk, string_bytes};
ghost use Rattle.std.specs.List.{flat_map};
ghost use Rattle.list_rows.specs.Cells.{cell};
ghost use Rattle.entry_tables.specs.Tables as tables;

use crate::written::Numbered;
use list_rows::Row;
use record_fields::Role;
use record_kinds::Mention;
use std::alloc::{AllocError, Global};
use std::marker::Model;

/// How many columns a role has. Contracts see both.
#[derive(Drop)]
pub(crate) struct Width {
    pub(crate) role: Role,
    pub(crate) columns: usize,
}

impl Model for Width {
    ghost use Rattle.std.specs.Prelude.{ℕ};
    ghost use Rattle.record_fields.specs.declared.entry_words.Role.{Role};

    ghost Value = { Role × ℕ };

    ghost view = { λ a. (a.role, a.columns) };
}

/// The roles in the order of their columns.
const ROLES: [Role; 11] = [
    Role::Child,
    Role::Buried,
    Role::Groom,
    Role::FatherOfGroom,
    Role::Bride,
    Role::FatherOfBride,
    Role::Spouse,
    Role::Father,
    Role::Mother,
    Role::Godparent,
    Role::Witness,
];

/// As many columns of each role as some entry has mentions in it.
pub(crate) fn widths(alloc: Global, entries: &[Numbered]) -> Result<Vec<Width>, AllocError>
    ensures { IfOk result (λ found. found.items ≡ tables.widths tables.roles entries.now) }
{
    widths_of(alloc, &ROLES, entries)
}

fn widths_of(alloc: Global, roles: &[Role], entries: &[Numbered]) -> Result<Vec<Width>, AllocError>
    ensures { IfOk result (λ found. found.items ≡ tables.widths roles.now entries.now) }
{
    let mut found = Vec::new(alloc);
    'each: for role in roles {
        let role = *role;
        let columns = widest(role, entries);
        found.push(Width { role, columns })?;
    }
    Ok(found)
}

fn widest(role: Role, entries: &[Numbered]) -> usize
    ensures { result ≡ tables.widest role entries.now }
{
    let mut most = 0;
    'each: for one in entries {
        most = more(most, count(role, &one.entry.mentions));
    }
    most
}

fn more(most: usize, found: usize) -> usize
    ensures { result ≡ tables.more most found }
{
    if most < found { found } else { most }
}

/// How many mentions are in a role.
pub(crate) fn count(role: Role, mentions: &[Mention]) -> usize
    ensures { result ≡ tables.count role mentions.now }
{
    mentions.iter().filter(|x| is_in(role, x)).count()
}

pub(crate) fn is_in(role: Role, mention: &Mention) -> bool
    ensures { result ≡ tables.is_in role mention.now }
{
    rank(mention.role) == rank(role)
}

fn rank(role: Role) -> u8
    ensures { result ≡ tables.rank role }
{
    match role {
        Role::Child => 1,
        Role::Father => 2,
        Role::Mother => 3,
        Role::Godparent => 4,
        Role::Groom => 5,
        Role::Bride => 6,
        Role::FatherOfGroom => 7,
        Role::FatherOfBride => 8,
        Role::Witness => 9,
        Role::Buried => 10,
        Role::Spouse => 11,
    }
}

/// The names of the columns.
pub(crate) fn header(alloc: Global, widths: &[Width]) -> Result<Row, AllocError>
    ensures { IfOk result (λ row. row ≡ tables.header widths.now) }
{
    let mut row = own_columns(alloc)?;
    push_columns(alloc, &mut row, widths)?;
    Ok(row)
}

fn own_columns(alloc: Global) -> Result<Row, AllocError>
    ensures { IfOk result (λ row. row ≡ tables.own_columns) }
{
    let mut row = Row::new(alloc);
    row.push(alloc, b"#number")?;
    row.push(alloc, b"kind")?;
    row.push(alloc, b"page")?;
    row.push(alloc, b"item")?;
    row.push(alloc, b"date")?;
    row.push(alloc, b"place")?;
    row.push(alloc, b"text")?;
    Ok(row)
}

fn push_columns(alloc: Global, row: &mut Row, widths: &[Width]) -> Result<(), AllocError>
    ensures { OnOk result (row.new ≡ row.old ++ flat_map (λ w. tables.role_columns w.0 w.1) widths.now) }
{
    'each: for width in widths {
        push_role(alloc, row, width.role, width.columns)?;
    }
    Ok(())
}

fn push_role(alloc: Global, row: &mut Row, role: Role, columns: usize) -> Result<(), AllocError>
    ensures { OnOk result (row.new ≡ row.old ++ tables.role_columns role columns) }
{
    'each: for before in 0..columns {
        push_column(alloc, row, role, before)?;
    }
    Ok(())
}

fn push_column(alloc: Global, row: &mut Row, role: Role, before: usize) -> Result<(), AllocError>
    requires { before < 18446744073709551615 }
    ensures { OnOk result (row.new ≡ row.old ++ cell (tables.column_name role before) ∷ []) }
{
    let name = column_name(alloc, role, before)?;
    row.push(alloc, name.as_bytes())
}

fn column_name(alloc: Global, role: Role, before: usize) -> Result<String, AllocError>
    requires { before < 18446744073709551615 }
    ensures { IfOk result (λ name. string_bytes name ≡ tables.column_name role before) }
{
    let word = role.as_str();
    if before == 0 {
        return word.to_string(alloc);
    }
    let number = before as u64 + 1;
    format!(in alloc; "{word} {number}")
}
