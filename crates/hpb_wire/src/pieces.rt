//! Writes pieces of a line one after another. Each writer returns the place behind the bytes that it wrote, at which
//! the next piece goes.
ghost use Rattle.std.specs.Prelude.{◌≡◌, ◌≤◌, ◌+◌, ◌*◌, ◌++◌, take, drop, length};

/// Writes a piece of a fixed size.
#[inline(always)]
pub(crate) fn put_piece<const N: usize>(bytes: &mut [u8], at: usize, piece: &[u8; N]) -> usize
    requires { at + N ≤ length bytes.old }
    ensures written { take result bytes.new ≡ take at bytes.old ++ piece.now }
    ensures next { result ≡ at + N }
{
    put_part::<N>(bytes, at, piece, 0)
}

/// Writes a name. One of 2 to 16 bytes is written as its front and its back, which may overlap.
#[inline(always)]
pub(crate) fn put_name(bytes: &mut [u8], at: usize, name: &str) -> usize
    requires { at + length name.now ≤ length bytes.old }
    ensures written { take result bytes.new ≡ take at bytes.old ++ name.now }
    ensures next { result ≡ at + length name.now }
{
    let name = name.as_bytes();
    match name.len() {
        2..=4 => put_ends::<2>(bytes, at, name),
        5..=8 => put_ends::<4>(bytes, at, name),
        9..=16 => put_ends::<8>(bytes, at, name),
        _ => put_text(bytes, at, name),
    }
}

/// Writes a text of any size.
#[inline(never)]
pub(crate) fn put_text(bytes: &mut [u8], at: usize, text: &[u8]) -> usize
    requires { at + length text.now ≤ length bytes.old }
    ensures written { take result bytes.new ≡ take at bytes.old ++ text.now }
    ensures next { result ≡ at + length text.now }
{
    bytes[at..at + text.len()].copy_from_slice(text);
    at + text.len()
}

/// Writes a text as its front and its back, which may overlap.
#[inline(always)]
fn put_ends<const N: usize>(bytes: &mut [u8], at: usize, text: &[u8]) -> usize
    requires least { N ≤ length text.now }
    requires most { length text.now ≤ N * 2 }
    requires room { at + length text.now ≤ length bytes.old }
    ensures written { take result bytes.new ≡ take at bytes.old ++ text.now }
    ensures next { result ≡ at + length text.now }
{
    let back = text.len() - N;
    put_part::<N>(bytes, at, text, 0);
    put_part::<N>(bytes, at + back, text, back)
}

/// Writes as many bytes of a text as the piece has, from one place on. All are read before the first is written, so
/// that they are moved together.
#[inline(always)]
fn put_part<const N: usize>(bytes: &mut [u8], at: usize, text: &[u8], from: usize) -> usize
    requires part { from + N ≤ length text.now }
    requires room { at + N ≤ length bytes.old }
    ensures written { take result bytes.new ≡ take at bytes.old ++ take N (drop from text.now) }
    ensures next { result ≡ at + N }
{
    let mut part = [0; N];
    for i in 0..N {
        part[i] = text[from + i];
    }
    for i in 0..N {
        bytes[at + i] = part[i];
    }
    at + N
}
