//! The numbers of a definition as they were written.
use crate::place::Place;
use serde_json::Value;
use std::fmt;

/// How many digits of a number are shown at most.
const MOST_SHOWN: usize = 32;

/// A number as it was written, or as it was understood if it isn't found in the text.
#[derive(Clone, Copy)]
pub(crate) enum Written<'v> {
    As(&'v str),
    Understood(&'v Value),
}

impl<'v> Written<'v> {
    /// The number at a place, from the text and the value that was read from it.
    pub(crate) fn at(text: &'v [u8], value: &'v Value, place: Place<'_>) -> Written<'v> {
        match number_at(text, place).and_then(as_text) {
            Some(number) => Written::As(number),
            None => Written::Understood(value),
        }
    }

    /// Whether it is written as digits alone. If such a number isn't accepted, it is too large.
    pub(crate) fn is_in_digits(self) -> bool {
        match self {
            Written::As(number) => number.bytes().all(|byte| byte.is_ascii_digit()),
            Written::Understood(_) => false,
        }
    }
}

fn as_text(bytes: &[u8]) -> Option<&str> {
    std::str::from_utf8(bytes).ok()
}

impl fmt::Display for Written<'_> {
    fn fmt<W: fmt::Write>(&self, f: &mut fmt::Formatter<W>) -> fmt::Result {
        match *self {
            Written::As(number) => match number.get(..MOST_SHOWN) {
                Some(front) if number.len() > MOST_SHOWN => write!(f, "{front}.."),
                _ => f.write_str(number),
            },
            Written::Understood(value) => write!(f, "{value}"),
        }
    }
}

/// The bytes of the number at a place of a JSON text. If the place is written twice, the last one counts.
fn number_at<'t>(text: &'t [u8], place: Place<'_>) -> Option<&'t [u8]> {
    let mut walk = Walk::new(text);
    let mut found = None;
    for (at, byte) in text.iter().enumerate() {
        let is_number = walk.is_number() && walk.is_at(place);
        let begun = walk.begun;
        walk.step(at, *byte);
        if is_number && !walk.is_number() {
            found = text.get(begun..at);
        }
    }
    found
}

/// Which part of a text a byte belongs to.
#[derive(Clone, Copy)]
enum Within {
    Structure,
    Number,
    String,
    /// Behind a backslash in a string.
    Escape,
}

/// A position on the way through a text, and its place in the definition.
#[derive(Clone, Copy)]
struct Walk<'t> {
    text: &'t [u8],
    within: Within,
    /// The start of the string or the number that the position is in.
    begun: usize,
    /// The last string before the position.
    string: &'t [u8],
    depth: usize,
    /// The field of the definition, the index in its list, and the field of that item.
    field: &'t [u8],
    index: usize,
    field_of_item: &'t [u8],
}

impl<'t> Walk<'t> {
    fn new(text: &'t [u8]) -> Walk<'t> {
        Walk {
            text,
            within: Within::Structure,
            begun: 0,
            string: &[],
            depth: 0,
            field: &[],
            index: 0,
            field_of_item: &[],
        }
    }

    fn is_number(&self) -> bool {
        matches!(self.within, Within::Number)
    }

    /// Whether the position is at a place of the definition.
    fn is_at(&self, place: Place<'_>) -> bool {
        match place {
            Place::Whole => false,
            Place::Field(key) => self.depth == 1 && self.field == key.as_bytes(),
            Place::Item(item) => self.depth == 2 && item.is(self.field, self.index),
            Place::FieldOf(item, key) => {
                self.depth == 3
                    && item.is(self.field, self.index)
                    && self.field_of_item == key.as_bytes()
            }
        }
    }

    /// Moves on over the byte at `at`.
    fn step(&mut self, at: usize, byte: u8) {
        match (self.within, byte) {
            (Within::Escape, _) => self.within = Within::String,
            (Within::String, b'\\') => self.within = Within::Escape,
            (Within::String, b'"') => {
                self.string = self.text.get(self.begun..at).unwrap_or(&[]);
                self.within = Within::Structure;
            }
            (Within::String, _) => {}
            (Within::Number, b'0'..=b'9' | b'.' | b'e' | b'E' | b'+' | b'-') => {}
            (Within::Structure | Within::Number, byte) => self.step_in_structure(at, byte),
        }
    }

    fn step_in_structure(&mut self, at: usize, byte: u8) {
        self.within = Within::Structure;
        match byte {
            b'"' => {
                self.within = Within::String;
                self.begun = at.saturating_add(1);
            }
            b'0'..=b'9' | b'-' => {
                self.within = Within::Number;
                self.begun = at;
            }
            b'[' | b'{' => {
                self.depth = self.depth.saturating_add(1);
                if self.depth == 2 {
                    self.index = 0;
                }
            }
            b']' | b'}' => self.depth = self.depth.saturating_sub(1),
            b',' if self.depth == 2 => self.index = self.index.saturating_add(1),
            b':' if self.depth == 1 => self.field = self.string,
            b':' if self.depth == 3 => self.field_of_item = self.string,
            _ => {}
        }
    }
}
