//! Writes fields one after another. Each writer returns the place behind the bytes that it wrote, at which the next
//! field begins.
ghost use Rattle.std.specs.Prelude.{◌≡◌, ◌≤◌, ◌+◌, ◌++◌, length};
ghost use Rattle.hpb_codec.specs.Numbers.{before, filled, number, zeros};

/// Writes a byte.
#[tactic(auto, unfolding(crate::specs::Numbers::number, crate::specs::Numbers::before))]
pub fn put_u8(out: &mut [u8], at: usize, n: u8) -> usize
    requires { at + 1 ≤ length out.old }
    ensures written { before result out.new ≡ before at out.old ++ number 1 n }
    ensures next { result ≡ at + 1 }
{
    out[at] = n;
    at + 1
}

/// Writes a number in two bytes.
#[tactic(auto, unfolding(crate::specs::Numbers::number, crate::specs::Numbers::before))]
pub fn put_u16(out: &mut [u8], at: usize, n: u16) -> usize
    requires { at + 2 ≤ length out.old }
    ensures written { before result out.new ≡ before at out.old ++ number 2 n }
    ensures next { result ≡ at + 2 }
{
    let next = at + 2;
    out[at..next].copy_from_slice(&n.to_be_bytes());
    next
}

/// Writes a number in four bytes.
#[tactic(auto, unfolding(crate::specs::Numbers::number, crate::specs::Numbers::before))]
pub fn put_u32(out: &mut [u8], at: usize, n: u32) -> usize
    requires { at + 4 ≤ length out.old }
    ensures written { before result out.new ≡ before at out.old ++ number 4 n }
    ensures next { result ≡ at + 4 }
{
    let next = at + 4;
    out[at..next].copy_from_slice(&n.to_be_bytes());
    next
}

/// Writes a number in eight bytes.
#[tactic(auto, unfolding(crate::specs::Numbers::number, crate::specs::Numbers::before))]
pub fn put_u64(out: &mut [u8], at: usize, n: u64) -> usize
    requires { at + 8 ≤ length out.old }
    ensures written { before result out.new ≡ before at out.old ++ number 8 n }
    ensures next { result ≡ at + 8 }
{
    let next = at + 8;
    out[at..next].copy_from_slice(&n.to_be_bytes());
    next
}

/// Writes a number in sixteen bytes.
pub fn put_u128(out: &mut [u8], at: usize, n: u128) -> usize
    requires { at + 16 ≤ length out.old }
    ensures written { before result out.new ≡ before at out.old ++ number 16 n }
    ensures next { result ≡ at + 16 }
{
    put_bytes(out, at, &n.to_be_bytes())
}

/// Writes `count` zero bytes.
pub fn put_zeros(out: &mut [u8], at: usize, count: usize) -> usize
    requires { at + count ≤ length out.old }
    ensures written { before result out.new ≡ before at out.old ++ zeros count }
    ensures next { result ≡ at + count }
{
    let next = at + count;
    out[at..next].fill(0);
    next
}

/// Writes zero bytes from a place to the end.
#[tactic(auto, using(crate::proofs::Numbers::filled_is))]
pub fn fill_zeros(out: &mut [u8], at: usize)
    requires { at ≤ length out.old }
    ensures { out.new ≡ filled (length out.old) (before at out.old) }
{
    let left = out.len() - at;
    put_zeros(out, at, left);
}

/// Writes bytes unchanged.
#[tactic(auto, unfolding(crate::specs::Numbers::before))]
pub fn put_bytes(out: &mut [u8], at: usize, bytes: &[u8]) -> usize
    requires { at + length bytes.now ≤ length out.old }
    ensures written { before result out.new ≡ before at out.old ++ bytes.now }
    ensures next { result ≡ at + length bytes.now }
{
    let next = at + bytes.len();
    out[at..next].copy_from_slice(bytes);
    next
}
