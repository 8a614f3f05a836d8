//! What has no text: the values that words are turned into. And a command line without a word, not even the program's
//! name: no system of today gives one.

use command_line::{Asked, Refused, SheetKind, read_words};
use std::alloc::{AllocError, Global};

/// The text of refused words.
fn refusal(answer: Result<Asked, Refused>) -> Option<String> {
    match answer {
        Err(Refused::Words { text }) => Some(text),
        Err(Refused::OutOfMemory) => None,
        Ok(asked) => {
            drop(asked);
            None
        }
    }
}

/// The kind, the number, the generations and the day of the sheet that is asked for.
fn sheet_asked(words: &[String], alloc: Global) -> Option<(SheetKind, u32, u32, i32)> {
    match read_words(alloc, words) {
        Ok(
            Asked::Sheet {
                kind,
                number,
                generations,
                today,
                ..
            },
        ) => Some((kind, number, generations, today)),
        _ => None,
    }
}

/// The day of the export that is asked for: none of one of the whole archive.
fn day_of_export(words: &[String], alloc: Global) -> Option<Option<i32>> {
    match read_words(alloc, words) {
        Ok(Asked::Export { .. }) => Some(None),
        Ok(Asked::ExportPublic { today, .. }) => Some(Some(today)),
        _ => None,
    }
}

/// Whether a plain export is asked for, and its day: none of one of the whole archive.
fn day_of_plain_export(words: &[String], alloc: Global) -> Option<Option<i32>> {
    match read_words(alloc, words) {
        Ok(Asked::ExportPlain { .. }) => Some(None),
        Ok(Asked::ExportPublicPlain { today, .. }) => Some(Some(today)),
        _ => None,
    }
}

/// The port, the number of visitors and the day of the room that is asked for.
fn room_asked(words: &[String], alloc: Global) -> Option<(u16, u32, i32)> {
    match read_words(alloc, words) {
        Ok(
            Asked::Serve {
                port,
                count,
                today,
                ..
            },
        ) => Some((port, count, today)),
        _ => None,
    }
}

/// The words of a line, one space between each two.
fn split(alloc: Global, line: &str) -> Result<Vec<String>, AllocError> {
    let mut words = Vec::new(alloc);
    for word in line.split(' ') {
        words.push(word.to_string(alloc)?)?;
    }
    Ok(words)
}

#[test]
fn no_word_at_all_is_refused_with_the_usage(rt: HostRuntime) {
    let text = refusal(read_words(rt.alloc(), &[])).unwrap_or(String::new(rt.alloc()));
    assert!(rt; text.contains("\nUsage: parish <COMMAND>\n"));
    assert!(rt; text.ends_with('\n'));
}

#[test]
fn a_sheet_has_four_generations_where_none_are_given(rt: HostRuntime) -> Result<(), AllocError> {
    let alloc = rt.alloc();
    let words = split(alloc, "parish sheet a.db pedigree 17 --today 2024-01-01")?;
    assert_eq!(rt;
        sheet_asked(&words, alloc),
        Some((SheetKind::Pedigree, 17, 4, 19723))
    );
    let words = split(
        alloc,
        "parish sheet a.db register 4294967295 --today 1969-12-31 --generations 12",
    )?;
    assert_eq!(rt;
        sheet_asked(&words, alloc),
        Some((SheetKind::Register, 4_294_967_295, 12, -1))
    );
    Ok(())
}

#[test]
fn an_export_for_the_public_has_a_day(rt: HostRuntime) -> Result<(), AllocError> {
    let alloc = rt.alloc();
    let words = split(alloc, "parish export a.db --public --today 1970-01-01")?;
    assert_eq!(rt; day_of_export(&words, alloc), Some(Some(0)));
    let words = split(alloc, "parish export a.db")?;
    assert_eq!(rt; day_of_export(&words, alloc), Some(None));
    let words = split(alloc, "parish export a.db --today 1970-01-01")?;
    assert_eq!(rt; day_of_export(&words, alloc), None);
    Ok(())
}

#[test]
fn a_plain_export_has_a_day_if_it_is_for_the_public(rt: HostRuntime) -> Result<(), AllocError> {
    let alloc = rt.alloc();
    let words = split(
        alloc,
        "parish export --plain --public a.db --today 1970-01-02",
    )?;
    assert_eq!(rt; day_of_plain_export(&words, alloc), Some(Some(1)));
    let words = split(alloc, "parish export a.db --plain")?;
    assert_eq!(rt; day_of_plain_export(&words, alloc), Some(None));
    let words = split(alloc, "parish export a.db --plain --today 1970-01-02")?;
    assert_eq!(rt; day_of_plain_export(&words, alloc), None);
    let words = split(alloc, "parish export a.db --public --today 1970-01-02")?;
    assert_eq!(rt; day_of_plain_export(&words, alloc), None);
    Ok(())
}

#[test]
fn a_room_has_a_port_and_a_day(rt: HostRuntime) -> Result<(), AllocError> {
    let alloc = rt.alloc();
    let words = split(
        alloc,
        "parish serve a.db --port 65535 --count 0 --today 9999-12-31",
    )?;
    assert_eq!(rt; room_asked(&words, alloc), Some((65535, 0, 2_932_896)));
    Ok(())
}
