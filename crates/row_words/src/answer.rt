//! What is answered to a row.

use record_text::{RefusalKind, Text};
use std::alloc::Global;
use std::fmt;
use stored_lines::StoredLine;

/// What is answered to a row. Where memory is refused the answer is only that refusal, so that those who write
/// need not look whether they could.
#[derive(Drop)]
pub struct Answer {
    text: String,
    is_short: bool,
}

impl Answer {
    pub fn new(alloc: Global) -> Answer {
        Answer {
            text: String::new(alloc),
            is_short: false,
        }
    }

    pub fn as_str(&self) -> &str {
        if self.is_short {
            "1 OutOfMemory\n.\n"
        } else {
            self.text.as_str()
        }
    }

    /// The refusal in place of what was said so far.
    pub fn refuse(&mut self, kind: RefusalKind) {
        self.text.clear();
        self.say_printed(&kind);
        self.say("\n");
    }

    /// Says words as they are.
    pub fn say(&mut self, words: &str) {
        if self.text.push_str(words).is_err() {
            self.is_short = true;
        }
    }

    /// Says a line.
    pub fn say_line(&mut self, words: &str) {
        self.say(words);
        self.say("\n");
    }

    /// Says a line with the name of a field and its words.
    pub fn say_words(&mut self, name: &str, words: &str) {
        self.say(name);
        self.say_escaped(words);
        self.say("\n");
    }

    /// Says a line with the name of a field and its text.
    pub fn say_text(&mut self, name: &str, text: &Option<Text>) {
        self.say(name);
        self.say_optional(text);
        self.say("\n");
    }

    /// Says a line with the name of a field and its number.
    pub fn say_number(&mut self, name: &str, number: Option<u32>) {
        self.say(name);
        match number {
            Some(number) => self.say_printed(&number),
            None => self.say("-"),
        }
        self.say("\n");
    }

    /// Says a line with numbers after a word.
    pub fn say_numbers(&mut self, word: &str, numbers: &[u32]) {
        self.say(word);
        for number in numbers {
            self.say(" ");
            self.say_printed(number);
        }
        self.say("\n");
    }

    /// Says a line with a number.
    pub fn say_count(&mut self, number: u64) {
        self.say_printed(&number);
        self.say("\n");
    }

    /// Says bytes in hexadecimal.
    pub fn say_bytes(&mut self, bytes: &[u8]) {
        for byte in bytes {
            if write!(self.text, "{byte:02x}").is_err() {
                self.is_short = true;
            }
        }
    }

    /// Says stored lines, each with its depth, its tag, its text and its number.
    pub fn say_lines(&mut self, lines: &[StoredLine]) {
        for line in lines {
            self.say_printed(&line.depth);
            self.say("\t");
            self.say(line.tag.as_str());
            self.say("\t");
            self.say_optional(&line.text);
            self.say_number("\t", line.target);
        }
    }

    /// Says a line with the name of a value and its word.
    pub fn say_named<T: fmt::Debug>(&mut self, value: &T, word: &str) {
        if write!(self.text, "{value:?} {word}\n").is_err() {
            self.is_short = true;
        }
    }

    /// Says a value as it is printed.
    pub fn say_printed<T: fmt::Display>(&mut self, value: &T) {
        if write!(self.text, "{value}").is_err() {
            self.is_short = true;
        }
    }

    fn say_optional(&mut self, text: &Option<Text>) {
        match text {
            Some(text) => self.say_escaped(text.as_str()),
            None => self.say("-"),
        }
    }

    /// Says a sign `=` and words, with a backslash for what would end a word or a line.
    pub fn say_escaped(&mut self, words: &str) {
        self.say("=");
        for c in words.chars() {
            self.say_character(c);
        }
    }

    fn say_character(&mut self, c: char) {
        match c {
            '\n' => self.say("\\n"),
            '\r' => self.say("\\r"),
            '\t' => self.say("\\t"),
            '\0' => self.say("\\0"),
            '\\' => self.say("\\\\"),
            _ => {
                if self.text.push(c).is_err() {
                    self.is_short = true;
                }
            }
        }
    }
}
