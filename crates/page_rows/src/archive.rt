//! The archive that pages are looked over against: the place Kent of number 1, Ashby within it of number 2, the source
//! of number 3 with an entry of number 4, BURIAL 7 1; and place 2 made under the token `p`.

use archive_state::State;
use receipts::{Answer, Receipt, Token};
use record_fields::{EntryKind, Item, Role};
use record_kinds::{Entry, Mention, Place, Record, Source};
use record_text::Text;
use std::alloc::{AllocError, Global};

pub(crate) fn small_archive(alloc: Global) -> Result<State, AllocError> {
    let mut state = State::new(alloc);
    put_place(alloc, &mut state, 1, "Kent", None)?;
    put_place(alloc, &mut state, 2, "Ashby", Some(1))?;
    put_place(alloc, &mut state, 6, " , ", None)?;
    let source = Source {
        title: Some(text(alloc, "Register")?),
        author: None,
        publisher: None,
        holdings: Vec::new(alloc),
        carried: Vec::new(alloc),
    };
    state.put_record(3, Record::Source(source))?;
    let entry = burial(alloc)?;
    state.put_record(4, Record::Entry(entry))?;
    keep(alloc, &mut state, "p", 2, 1)?;
    keep(alloc, &mut state, "none", 0, 0)?;
    keep(alloc, &mut state, "source", 3, 1)?;
    Ok(state)
}

fn text(alloc: Global, words: &str) -> Result<Text, AllocError> {
    let string = String::from_str(alloc, words)?;
    match Text::try_new(string) {
        Some(text) => Ok(text),
        None => Err(AllocError),
    }
}

fn put_place(
    alloc: Global,
    state: &mut State,
    number: u32,
    name: &str,
    parent: Option<u32>,
) -> Result<(), AllocError> {
    let place = Place {
        name: text(alloc, name)?,
        parent,
        carried: Vec::new(alloc),
    };
    state.put_record(number, Record::Place(place))?;
    Ok(())
}

fn burial(alloc: Global) -> Result<Entry, AllocError> {
    let mut mentions = Vec::new(alloc);
    mentions.push(Mention {
        role: Role::Buried,
        name: text(alloc, "Ann Lee")?,
        link: None,
    })?;
    let item = match Item::new(1) {
        Some(item) => item,
        None => return Err(AllocError),
    };
    Ok(Entry {
        source: 3,
        kind: EntryKind::Burial,
        page: text(alloc, "7")?,
        item,
        date: None,
        place: None,
        text: text(alloc, "")?,
        mentions,
    })
}

fn keep(
    alloc: Global,
    state: &mut State,
    words: &str,
    first: u32,
    count: u32,
) -> Result<(), AllocError> {
    let token = match Token::try_new(String::from_str(alloc, words)?) {
        Some(token) => token,
        None => return Err(AllocError),
    };
    let receipt = Receipt {
        digest: [0; 32],
        answer: Answer { first, count },
    };
    state.put_receipt(token, receipt)?;
    Ok(())
}
