//! A file that is converted: a row has the word of a set, or `-`, and the bytes of the file in hexadecimal digits. The
//! answer is the set in which the file was read, what was written and what was reported, in such digits, or why it was
//! not, with the hint.

use character_sets::CharacterSet;
use conversion_reports::{Unconverted, convert_aloud};
use devices::Counted;
use file_conversion::ConversionError;
use std::alloc::Global;
use std::io::{self, ErrorKind};

/// What is written of a row.
pub(crate) fn answer(alloc: Global, line: &str) -> io::Result<String> {
    let mut words = line.split(' ');
    let asked = set_of(words.next().unwrap_or("-"));
    let file = match hex::decode(alloc, words.next().unwrap_or("")) {
        Ok(file) => file,
        Err(_) => return Err(io::Error::from(ErrorKind::InvalidData)),
    };
    let mut text: Vec<u8> = Vec::new(alloc);
    let mut said: Vec<u8> = Vec::new(alloc);
    let end = converted(alloc, asked, &file, &mut text, &mut said);
    let mut answer = match end {
        Ok(set) => String::from_str(alloc, word_of(set))?,
        Err(fault) => {
            said.extend_from_slice(&fault.hint)?;
            word_of_error(alloc, fault.error)?
        }
    };
    answer.push_str(" ")?;
    answer.push_str(hex::encode(alloc, &text)?.as_str())?;
    answer.push_str(" ")?;
    answer.push_str(hex::encode(alloc, &said)?.as_str())?;
    Ok(answer)
}

/// Converts a file; what is written, and what is reported, goes to the ends of these.
fn converted(
    alloc: Global,
    asked: Option<CharacterSet>,
    file: &[u8],
    text: &mut Vec<u8>,
    said: &mut Vec<u8>,
) -> Result<CharacterSet, Unconverted> {
    let mut reader = Counted::new(file);
    let mut writer = Counted::new(text);
    let mut faults = Counted::new(said);
    convert_aloud(alloc, asked, &mut reader, &mut writer, &mut faults)
}

/// Why there is no set.
fn word_of_error(alloc: Global, error: ConversionError) -> io::Result<String> {
    let text = match error {
        ConversionError::UnknownSet(line) => format!(in alloc; "29:{line}")?,
        ConversionError::TooLarge => String::from_str(alloc, "27")?,
        _ => return Err(io::Error::from(ErrorKind::OutOfMemory)),
    };
    Ok(text)
}

fn set_of(word: &str) -> Option<CharacterSet> {
    match word {
        "utf-8" => Some(CharacterSet::Utf8),
        "utf-16le" => Some(CharacterSet::Utf16Le),
        "utf-16be" => Some(CharacterSet::Utf16Be),
        "1252" => Some(CharacterSet::Windows1252),
        "437" => Some(CharacterSet::CodePage437),
        "850" => Some(CharacterSet::CodePage850),
        "macintosh" => Some(CharacterSet::Macintosh),
        "ansel" => Some(CharacterSet::Ansel),
        _ => None,
    }
}

fn word_of(set: CharacterSet) -> &'static str {
    match set {
        CharacterSet::Utf8 => "utf-8",
        CharacterSet::Utf16Le => "utf-16le",
        CharacterSet::Utf16Be => "utf-16be",
        CharacterSet::Windows1252 => "1252",
        CharacterSet::CodePage437 => "437",
        CharacterSet::CodePage850 => "850",
        CharacterSet::Macintosh => "macintosh",
        CharacterSet::Ansel => "ansel",
    }
}
