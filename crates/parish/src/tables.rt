//! A table that is checked or entered, as a task on an open archive.

ghost use Rattle.std.specs.Prelude.{◌≡◌, option_map};
ghost use Rattle.parish.specs.Tables as tables;

use crate::converting::asked;
use command_line::{OrderName, TableWords};
use page_entries::DateOrder;
use receipts::Token;
use row_references::NumberWord;
use tasks::{TableForm, Task};

/// The table of the input, whose rows would be entries of a source, read as the words say.
pub(crate) fn table_task(source: NumberWord, words: TableWords) -> Task
    ensures { result ≡ tables.table_task source words }
{
    Task::CheckTable {
        source,
        form: form_of(words),
    }
}

/// The same, entered under a token.
pub(crate) fn entering_task(token: Token, source: NumberWord, words: TableWords) -> Task
    ensures { result ≡ tables.entering_task token source words }
{
    Task::EnterTable {
        token,
        source,
        form: form_of(words),
    }
}

fn form_of(words: TableWords) -> TableForm
    ensures { result ≡ tables.form_of words }
{
    TableForm {
        set: asked(words.set),
        order: order_given(words.order),
        makes: words.makes,
    }
}

fn order_given(dates: Option<OrderName>) -> Option<DateOrder>
    ensures { result ≡ option_map tables.order_of dates }
{
    match dates {
        Some(name) => Some(order_of(name)),
        None => None,
    }
}

fn order_of(name: OrderName) -> DateOrder
    ensures { result ≡ tables.order_of name }
{
    match name {
        OrderName::DayFirst => DateOrder::DayFirst,
        OrderName::MonthFirst => DateOrder::MonthFirst,
    }
}
