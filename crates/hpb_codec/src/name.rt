//! A name in 16 bytes: its own bytes, padded with zeros.
ghost use Rattle.std.specs.Prelude.{◌≡◌, ◌≤◌, ◌+◌, ◌++◌, ◌==◌, ℕ, List, IsSomeAnd, length};
ghost use Rattle.std.specs.List.{position};
ghost use Rattle.hpb_rules.specs.Definitions.{IsName};
ghost use Rattle.hpb_codec.specs.Numbers.{before, filled};

use crate::writer::{put_bytes, put_zeros};
use hpb_rules::MOST_NAME_BYTES;

/// Writes a name.
pub(crate) fn put_name(out: &mut [u8], at: usize, name: &str) -> usize
    requires room { at + MOST_NAME_BYTES ≤ length out.old }
    requires name { length name.now ≤ MOST_NAME_BYTES }
    ensures written { before result out.new ≡ before at out.old ++ filled MOST_NAME_BYTES name.now }
    ensures next { result ≡ at + MOST_NAME_BYTES }
{
    let end = put_bytes(out, at, name.as_bytes());
    put_zeros(out, end, MOST_NAME_BYTES - name.len())
}

/// The only name that the bytes may spell: the bytes before the first zero.
pub(crate) fn name_in(bytes: &[u8]) -> Option<&str>
    requires { length bytes.now ≡ MOST_NAME_BYTES }
    ensures { (name : List ℕ) → IsName name → bytes.now ≡ filled MOST_NAME_BYTES name → IsSomeAnd result (λ found. found.now ≡ name) }
{
    let end = zero_byte(bytes).unwrap_or(bytes.len());
    match str::from_utf8(&bytes[..end]) {
        Ok(name) => Some(name),
        Err(_) => None,
    }
}

/// The place of the first zero byte.
fn zero_byte(bytes: &[u8]) -> Option<usize>
    ensures { result ≡ position (λ byte. byte == 0) bytes.now }
{
    bytes.iter().position(|byte| *byte == 0)
}
