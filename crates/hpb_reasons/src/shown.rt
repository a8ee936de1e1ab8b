//! How texts and limits are shown.
use std::fmt;

/// How many characters of a text are shown at most.
const MOST_SHOWN: usize = 32;

/// A text of the user's, in double quotes, with control characters escaped. A long text is cut.
#[derive(Clone, Copy)]
pub(crate) struct Quoted<'v>(pub(crate) &'v str);

impl fmt::Display for Quoted<'_> {
    fn fmt<W: fmt::Write>(&self, f: &mut fmt::Formatter<W>) -> fmt::Result {
        let text = self.0;
        f.write_str("\"")?;
        for character in text.chars().take(MOST_SHOWN) {
            write_escaped(f, character)?;
        }
        if text.chars().count() > MOST_SHOWN {
            f.write_str("..")?;
        }
        f.write_str("\"")
    }
}

/// A character of the user's, in double quotes, escaped as in a text.
#[derive(Clone, Copy)]
pub(crate) struct QuotedCharacter(pub(crate) char);

impl fmt::Display for QuotedCharacter {
    fn fmt<W: fmt::Write>(&self, f: &mut fmt::Formatter<W>) -> fmt::Result {
        f.write_str("\"")?;
        write_escaped(f, self.0)?;
        f.write_str("\"")
    }
}

/// Writes a character as `{:?}` writes it within a text.
fn write_escaped<W: fmt::Write>(f: &mut fmt::Formatter<W>, character: char) -> fmt::Result {
    match character {
        '\'' => f.write_str("'"),
        _ => write!(f, "{}", character.escape_debug()),
    }
}

/// A key in a path: as it is if it is a short word, otherwise in quotes.
#[derive(Clone, Copy)]
pub(crate) struct Key<'v>(pub(crate) &'v str);

impl fmt::Display for Key<'_> {
    fn fmt<W: fmt::Write>(&self, f: &mut fmt::Formatter<W>) -> fmt::Result {
        let key = self.0;
        if is_short_word(key) {
            f.write_str(key)
        } else {
            write!(f, "{}", Quoted(key))
        }
    }
}

fn is_short_word(key: &str) -> bool {
    !key.is_empty() && key.len() <= MOST_SHOWN && key.bytes().all(is_word_byte)
}

fn is_word_byte(byte: u8) -> bool {
    byte.is_ascii_alphanumeric() || byte == b'_'
}

/// A limit, with its digits in groups of three.
#[derive(Clone, Copy)]
pub(crate) struct Limit(pub(crate) u64);

/// The units of the groups of three digits, from the highest of a number of 64 bits.
const GROUPS: [u64; 7] = [
    1_000_000_000_000_000_000,
    1_000_000_000_000_000,
    1_000_000_000_000,
    1_000_000_000,
    1_000_000,
    1_000,
    1,
];

impl fmt::Display for Limit {
    fn fmt<W: fmt::Write>(&self, f: &mut fmt::Formatter<W>) -> fmt::Result {
        let mut is_begun = false;
        for group in GROUPS {
            let count = self.0.checked_div(group).unwrap_or(0);
            let digits = count % 1_000;
            if is_begun {
                write!(f, ",{digits:03}")?;
            } else if count > 0 || group == 1 {
                write!(f, "{digits}")?;
                is_begun = true;
            }
        }
        Ok(())
    }
}
