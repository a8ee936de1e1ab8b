//! Makes room for bytes to be written behind those that count.
ghost use Rattle.std.specs.Prelude.{◌≡◌, ◌≤◌, ◌+◌, take, vec_len, OnOk};

use std::alloc::AllocError;

/// Makes room for `more` bytes behind the first ones, which stay as they are.
#[inline(always)]
pub(crate) fn make_room(bytes: &mut Vec<u8>, length: usize, more: usize) -> Result<(), AllocError>
    requires { length ≤ vec_len bytes.old }
    ensures room { OnOk result (length + more ≤ vec_len bytes.new) }
    ensures within { length ≤ vec_len bytes.new }
    ensures kept { take length bytes.new.items ≡ take length bytes.old.items }
{
    if bytes.len() - length < more {
        return grow(bytes, length, more);
    }
    Ok(())
}

/// Doubles the bytes that count, and makes room for `more` behind them.
#[cold]
#[inline(never)]
fn grow(bytes: &mut Vec<u8>, length: usize, more: usize) -> Result<(), AllocError>
    requires { length ≤ vec_len bytes.old }
    ensures room { OnOk result (length + more ≤ vec_len bytes.new) }
    ensures within { length ≤ vec_len bytes.new }
    ensures kept { take length bytes.new.items ≡ take length bytes.old.items }
{
    let doubled = length.checked_add(length).ok_or(AllocError)?;
    let wanted = doubled.checked_add(more).ok_or(AllocError)?;
    bytes.resize(wanted, 0)
}
