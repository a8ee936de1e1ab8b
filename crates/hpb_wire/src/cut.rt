ghost use Rattle.std.specs.Prelude.{◌≡◌, ◌≢◌, ◌+◌, ◌<◌, ◌≤◌, ◌∷◌, length, take, drop, Some, IfSome};
ghost use Rattle.std.specs.List.{position};
ghost use Rattle.hpb_rules.specs.Lines.{line_words, is_space};
ghost use Rattle.hpb_wire.specs.ByteMaps.{IsMapped};
ghost use Rattle.hpb_wire.specs.Requests.{words_left, IsFrontLine};
ghost use Rattle.hpb_wire.specs.Words.{bytes_of};

use crate::byte_map::{MAPPED_BYTES, byte_map};
use crate::word::Word;

impl<'a> Word<'a> {
    /// The bytes of the part.
    #[inline(always)]
    pub(crate) fn text(self) -> &'a [u8]
        ensures { result.now ≡ bytes_of self.entry }
    {
        &self.bytes[..self.size]
    }
}

/// The words that are left of a line. If they are mapped, bit i of `spaces` is set if byte i is a space.
#[derive(Clone, Copy)]
pub(crate) struct Words<'a> {
    pub(crate) line: Word<'a>,
    spaces: u64,
    is_mapped: bool,
}

/// A line whose spaces are found one by one.
pub(crate) fn unmapped(line: &[u8]) -> Words<'_>
    ensures line { bytes_of result.line ≡ line.now }
    ensures mapped { IsMapped result }
{
    Words {
        line: Word {
            bytes: line,
            size: line.len(),
        },
        spaces: 0,
        is_mapped: false,
    }
}

/// The first line of some bytes, if its end is among the first 32. Its end and its spaces are found at once.
#[inline(always)]
pub(crate) fn front_line(bytes: &[u8]) -> Option<Words<'_>>
    ensures front { IfSome result (λ words. IsFrontLine bytes.now words.line.size) }
    ensures line { IfSome result (λ words. words.line.bytes.now ≡ bytes.now) }
    ensures short { IfSome result (λ words. words.line.size < 32) }
    ensures mapped { IfSome result IsMapped }
{
    if bytes.len() < MAPPED_BYTES {
        return None;
    }
    let size = front_size(bytes)?;
    Some(Words {
        line: Word { bytes, size },
        spaces: byte_map(bytes, b' ') % (1 << size),
        is_mapped: true,
    })
}

/// How many bytes the first line has.
#[inline(always)]
fn front_size(bytes: &[u8]) -> Option<usize>
    requires { 32 ≤ length bytes.now }
    ensures front { IfSome result (IsFrontLine bytes.now) }
    ensures short { IfSome result (λ size. size < 32) }
{
    let ends = byte_map(bytes, b'\n');
    if ends == 0 {
        return None;
    }
    Some(ends.trailing_zeros() as usize)
}

/// The first word of a line, and the words behind the space after it, if there is one.
#[inline(always)]
pub(crate) fn cut(words: Words<'_>) -> (Word<'_>, Option<Words<'_>>)
    requires { IsMapped words }
    ensures words { line_words (bytes_of words.entry.line) ≡ bytes_of result.0 ∷ words_left result.1 }
    ensures mapped { IfSome result.1 IsMapped }
{
    let line = words.line;
    if words.spaces == 0 {
        return if words.is_mapped {
            (line, None)
        } else {
            cut_unmapped(line)
        };
    }
    cut_at(words, first_mapped(words))
}

/// The place of the first space, if there is one.
#[inline(always)]
fn first_mapped(words: Words<'_>) -> usize
    requires mapped { IsMapped words }
    requires any { words.spaces ≢ 0 }
    ensures found { position is_space (bytes_of words.entry.line) ≡ Some result }
    ensures short { result < 32 }
    ensures within { result < words.entry.line.size }
{
    words.spaces.trailing_zeros() as usize
}

/// The word before the space at a place, and the words behind it.
#[inline(always)]
fn cut_at(words: Words<'_>, place: usize) -> (Word<'_>, Option<Words<'_>>)
    requires mapped { IsMapped words }
    requires found { position is_space (bytes_of words.line) ≡ Some place }
    requires short { place < 32 }
    requires within { place < words.line.size }
    ensures words { line_words (bytes_of words.entry.line) ≡ bytes_of result.0 ∷ words_left result.1 }
    ensures mapped { IfSome result.1 IsMapped }
{
    let word = Word {
        bytes: words.line.bytes,
        size: place,
    };
    (word, Some(behind(words, place)))
}

/// The words behind the space at a place.
#[inline(always)]
fn behind(words: Words<'_>, place: usize) -> Words<'_>
    requires mapped { IsMapped words }
    requires within { place < words.line.size }
    requires short { place < 32 }
    ensures line { bytes_of result.line ≡ drop (place + 1) (bytes_of words.entry.line) }
    ensures mapped { IsMapped result }
{
    Words {
        line: from_place(words.line, place + 1),
        spaces: words.spaces >> (place + 1),
        is_mapped: words.is_mapped,
    }
}

/// The part of a line behind its first `count` bytes.
#[inline(always)]
fn from_place(line: Word<'_>, count: usize) -> Word<'_>
    requires { count ≤ line.size }
    ensures line { bytes_of result ≡ drop count (bytes_of line.entry) }
    ensures size { result.size + count ≡ line.entry.size }
{
    Word {
        bytes: &line.bytes[count..],
        size: line.size - count,
    }
}

#[inline(never)]
fn cut_unmapped(line: Word<'_>) -> (Word<'_>, Option<Words<'_>>)
    ensures words { line_words (bytes_of line.entry) ≡ bytes_of result.0 ∷ words_left result.1 }
    ensures mapped { IfSome result.1 IsMapped }
{
    match space(line.text()) {
        Some(place) => {
            let word = Word {
                bytes: line.bytes,
                size: place,
            };
            let behind = Words {
                line: from_place(line, place + 1),
                spaces: 0,
                is_mapped: false,
            };
            (word, Some(behind))
        }
        None => (line, None),
    }
}

fn space(line: &[u8]) -> Option<usize>
    ensures { result ≡ position is_space line.now }
{
    line.iter().position(|byte| *byte == b' ')
}
