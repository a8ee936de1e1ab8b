//! Why a text isn't JSON.
ghost use Rattle.std.specs.Prelude.{◌≡◌, ◌<◌, ◌↔◌, length, Ok, Some};
ghost use Rattle.hpb_reasons.specs.declared.json.TextFault.TheVariants.{TooLong};

use crate::shown::{Limit, QuotedCharacter};
use hpb_rules::MOST_DEFINITION_BYTES;
use serde_json::{Error, Value};
use std::alloc::{AllocError, Global};
use std::fmt;

/// How deep the lists and objects of a text may nest.
const MOST_DEPTH: usize = 127;

/// Why a text isn't JSON.
#[derive(Clone, Copy)]
pub(crate) enum TextFault {
    /// It has too many bytes.
    TooLong,
    /// It has nothing but blanks.
    Blank,
    /// It can't be read from this spot on.
    At(Spot, TextMisfit),
}

impl TextFault {
    /// Whether more text behind it could make it right.
    pub(crate) fn ends_early(self) -> bool {
        matches!(self, TextFault::Blank | TextFault::At(_, TextMisfit::End))
    }
}

impl fmt::Display for TextFault {
    fn fmt<W: fmt::Write>(&self, f: &mut fmt::Formatter<W>) -> fmt::Result {
        match self {
            TextFault::TooLong => {
                let most = Limit(MOST_DEFINITION_BYTES as u64);
                write!(f, "more than {most} bytes")
            }
            TextFault::Blank => f.write_str("the definition is empty"),
            TextFault::At(spot, misfit) => write!(f, "{spot}: {misfit}"),
        }
    }
}

/// The fault at a spot of a text.
#[derive(Clone, Copy)]
pub(crate) enum TextMisfit {
    NotUtf8,
    ByteOrderMark,
    TooDeep,
    TooLarge,
    /// The text ends too early.
    End,
    /// Reading stopped at this character, or at the end. The fault is there, or right before.
    Stopped(Option<char>),
}

impl fmt::Display for TextMisfit {
    fn fmt<W: fmt::Write>(&self, f: &mut fmt::Formatter<W>) -> fmt::Result {
        match *self {
            TextMisfit::NotUtf8 => f.write_str("not UTF-8"),
            TextMisfit::ByteOrderMark => {
                f.write_str("a byte order mark stands before the definition")
            }
            TextMisfit::TooDeep => write!(f, "nested more than {} deep", Limit(MOST_DEPTH as u64)),
            TextMisfit::TooLarge => f.write_str("a number is too large to be read"),
            TextMisfit::End => f.write_str("the text ends before the JSON does"),
            TextMisfit::Stopped(Some(character)) => {
                write!(f, "reading stopped at {}", QuotedCharacter(character))
            }
            TextMisfit::Stopped(None) => f.write_str("reading stopped at the end"),
        }
    }
}

/// A spot in a text: its line, and its byte of that line, both from 1.
#[derive(Clone, Copy)]
pub(crate) struct Spot {
    line: usize,
    column: usize,
}

impl fmt::Display for Spot {
    fn fmt<W: fmt::Write>(&self, f: &mut fmt::Formatter<W>) -> fmt::Result {
        let (line, column) = (self.line, self.column);
        write!(f, "line {line} column {column}")
    }
}

impl Spot {
    fn of(error: Error) -> Spot {
        Spot {
            line: error.line(),
            column: error.column(),
        }
    }

    /// The character at this spot of a text.
    fn character(self, text: &str) -> Option<char> {
        let line = text.split('\n').nth(self.line.saturating_sub(1))?;
        line.get(self.column.checked_sub(1)?..)?.chars().next()
    }

    /// How many bytes of a text there are up to this spot, its own included.
    fn length(self, text: &str) -> usize {
        let mut length = self.column;
        for line in text.split('\n').take(self.line.saturating_sub(1)) {
            length = length.saturating_add(line.len()).saturating_add(1);
        }
        length
    }
}

/// Why a text isn't the JSON of a definition, if it isn't.
pub(crate) fn text_fault(alloc: Global, text: &[u8]) -> Result<Option<TextFault>, AllocError>
    ensures { (result ≡ Ok (Some TooLong)) ↔ (MOST_DEFINITION_BYTES < length text.now) }
{
    if text.len() > MOST_DEFINITION_BYTES {
        return Ok(Some(TextFault::TooLong));
    }
    if text.iter().all(|byte| is_blank(*byte)) {
        return Ok(Some(TextFault::Blank));
    }
    let Err(error) = Value::from_slice(alloc, text) else {
        return Ok(None);
    };
    if error.is_memory() {
        return Err(AllocError);
    }
    let misfit = misfit_at(alloc, text, error)?;
    Ok(Some(TextFault::At(Spot::of(error), misfit)))
}

fn is_blank(byte: u8) -> bool {
    matches!(byte, b' ' | b'\t' | b'\r' | b'\n')
}

/// The fault at the spot at which reading a text stopped.
fn misfit_at(alloc: Global, text: &[u8], error: Error) -> Result<TextMisfit, AllocError> {
    let Ok(text) = std::str::from_utf8(text) else {
        return Ok(TextMisfit::NotUtf8);
    };
    if text.starts_with('\u{feff}') {
        return Ok(TextMisfit::ByteOrderMark);
    }
    let spot = Spot::of(error);
    let bytes = text.as_bytes();
    if depth_of(bytes.get(..spot.length(text)).unwrap_or(bytes)) > MOST_DEPTH {
        return Ok(TextMisfit::TooDeep);
    }
    if error
        .to_string(alloc)?
        .as_str()
        .starts_with("number out of range")
    {
        return Ok(TextMisfit::TooLarge);
    }
    if error.is_eof() {
        return Ok(TextMisfit::End);
    }
    Ok(TextMisfit::Stopped(spot.character(text)))
}

/// Whether a byte of a text is outside strings, in one, or behind a backslash.
#[derive(Clone, Copy)]
enum Within {
    Structure,
    String,
    /// Behind a backslash in a string.
    Escape,
}

/// How deep lists and objects nest at the end of these first bytes of a text.
fn depth_of(front: &[u8]) -> usize {
    let mut within = Within::Structure;
    let (mut depth, mut deepest) = (0usize, 0usize);
    for byte in front {
        within = match (within, *byte) {
            (Within::Structure, b'"') => Within::String,
            (Within::Structure, b'[' | b'{') => {
                depth = depth.saturating_add(1);
                deepest = deepest.max(depth);
                Within::Structure
            }
            (Within::Structure, b']' | b'}') => {
                depth = depth.saturating_sub(1);
                Within::Structure
            }
            (Within::String, b'"') => Within::Structure,
            (Within::String, b'\\') => Within::Escape,
            (Within::Escape, _) => Within::String,
            (within, _) => within,
        };
    }
    deepest
}
