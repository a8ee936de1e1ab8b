ghost use Rattle.std.specs.Prelude.{◌≤◌, length};

/// A part of a line with the bytes behind it: the first `size` bytes are its own.
#[derive(Clone, Copy)]
pub(crate) struct Word<'a> {
    pub(crate) bytes: &'a [u8],
    pub(crate) size: usize,
    ghost within: { size ≤ length bytes.now },
}
