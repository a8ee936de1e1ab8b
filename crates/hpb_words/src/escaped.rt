//! The user's own texts, such as file names, in messages.

use std::fmt;

/// How many characters of a file's name are shown, at most.
const MOST_SHOWN: usize = 100;

/// How many bytes a name in a command has, at most.
const MOST_PASTED: usize = 400;

/// A file's name, with the characters escaped that a terminal obeys or doesn't show, and cut if it is long.
#[derive(Clone, Copy)]
pub struct Escaped<'a>(pub &'a str);

impl fmt::Display for Escaped<'_> {
    fn fmt<W: fmt::Write>(&self, f: &mut fmt::Formatter<W>) -> fmt::Result {
        let text = self.0;
        let mut shown = 0usize;
        for letter in text.chars() {
            shown = shown.saturating_add(width(letter));
            if shown > MOST_SHOWN {
                return f.write_str("..");
            }
            write_escaped(f, letter)?;
        }
        Ok(())
    }
}

/// A file's name in a command that is to be pasted. It is whole, and in quotes if a shell wants them. If it is too long
/// for a line, or has characters that a terminal obeys or doesn't show, `F` stands for it.
#[derive(Clone, Copy)]
pub struct Pasted<'a>(pub &'a str);

impl fmt::Display for Pasted<'_> {
    fn fmt<W: fmt::Write>(&self, f: &mut fmt::Formatter<W>) -> fmt::Result {
        let name = self.0;
        if name.len() > MOST_PASTED || name.chars().any(is_escaped) {
            return f.write_str("F");
        }
        // A name that begins like an option would be taken for one.
        let front = if name.starts_with('-') { "./" } else { "" };
        if name.chars().all(is_plain) {
            return write!(f, "{front}{name}");
        }
        write!(f, "'{front}")?;
        for letter in name.chars() {
            match letter {
                '\'' => f.write_str("'\\''")?,
                _ => f.write_char(letter)?,
            }
        }
        f.write_str("'")
    }
}

/// Whether a character means only itself to every shell.
fn is_plain(letter: char) -> bool {
    letter.is_ascii_alphanumeric()
        || matches!(
            letter,
            '.' | '_' | '/' | '-' | '+' | ',' | ':' | '@' | '%' | '='
        )
}

/// A word, whole: its characters that a terminal obeys or doesn't show are escaped.
#[derive(Clone, Copy)]
pub(crate) struct EscapedWord<'a>(pub(crate) &'a str);

impl fmt::Display for EscapedWord<'_> {
    fn fmt<W: fmt::Write>(&self, f: &mut fmt::Formatter<W>) -> fmt::Result {
        let word = self.0;
        for letter in word.chars() {
            write_escaped(f, letter)?;
        }
        Ok(())
    }
}

fn write_escaped<W: fmt::Write>(f: &mut fmt::Formatter<W>, letter: char) -> fmt::Result {
    if is_escaped(letter) {
        write!(f, "{}", letter.escape_debug())
    } else {
        f.write_char(letter)
    }
}

/// How many characters this one takes when it is shown.
fn width(letter: char) -> usize {
    if is_escaped(letter) {
        letter.escape_debug().count()
    } else {
        1
    }
}

/// Whether `{:?}` escapes this character. Quotes and backslashes stay as they are, since no quotes stand around.
pub(crate) fn is_escaped(letter: char) -> bool {
    match letter {
        '\'' | '"' | '\\' => false,
        _ => letter.escape_debug().next() != Some(letter),
    }
}
