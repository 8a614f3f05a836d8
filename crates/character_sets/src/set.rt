//! The sets.

/// A set of characters, with the way in which a file has them as bytes.
#[derive(Clone, Copy, Debug, PartialEq, Eq)]
pub enum CharacterSet {
    /// UTF-8 (RFC 3629); a byte that is no part of a character is one of Windows-1252.
    Utf8,
    /// UTF-16 with the lower byte of each unit first (RFC 2781).
    Utf16Le,
    /// UTF-16 with the higher byte of each unit first (RFC 2781).
    Utf16Be,
    /// The code page of Windows in western Europe and America.
    Windows1252,
    /// The first code page of DOS.
    CodePage437,
    /// The code page of DOS in western Europe.
    CodePage850,
    /// MacRoman.
    Macintosh,
    /// ANSI/NISO Z39.47, with the additions of GEDCOM 5.5.1: a mark stands before its letter.
    Ansel,
}
