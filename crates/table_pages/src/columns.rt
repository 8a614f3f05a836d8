//! What a column of a page is.

ghost use Rattle.std.specs.Prelude.{◌≡◌, ◌≤◌};
ghost use Rattle.table_pages.specs.Columns as known;

use record_fields::Role;

/// What a column of a page is.
#[derive(Clone, Copy, Debug, PartialEq, Eq)]
pub enum Column {
    Kind,
    Page,
    Item,
    Date,
    Place,
    Text,
    /// Those who are named in this role, with its number from 1 to 100.
    Mention(Role, u8),
    /// The sheet's own, whose name begins with `#`. It is not read.
    Own,
    /// Without a name. Its cells have to be empty.
    Unnamed,
}

impl Column {
    /// A number of its own for each column that stands once; 0 for the others.
    pub fn code(self) -> u32
        ensures { result ≡ known.column_code self }
    {
        match self {
            Column::Kind => 1,
            Column::Page => 2,
            Column::Item => 3,
            Column::Date => 4,
            Column::Place => 5,
            Column::Text => 6,
            Column::Mention(role, number) => 256 * role_code(role) + u32::from(number),
            Column::Own | Column::Unnamed => 0,
        }
    }
}

fn role_code(role: Role) -> u32
    ensures code { result ≡ known.role_code role }
    ensures small { result ≤ 11 }
{
    match role {
        Role::Child => 1,
        Role::Father => 2,
        Role::Mother => 3,
        Role::Godparent => 4,
        Role::Groom => 5,
        Role::Bride => 6,
        Role::FatherOfGroom => 7,
        Role::FatherOfBride => 8,
        Role::Witness => 9,
        Role::Buried => 10,
        Role::Spouse => 11,
    }
}

/// Whether the column is one that stands once, and is one of these.
pub(crate) fn stands_in(columns: &[Column], column: Column) -> bool
    ensures { result ≡ known.stands_in columns.now column }
{
    let code = column.code();
    code > 0 && has_code(columns, code)
}

fn has_code(columns: &[Column], code: u32) -> bool
    ensures { result ≡ known.has_code code columns.now }
{
    columns.iter().any(|c| c.code() == code)
}
