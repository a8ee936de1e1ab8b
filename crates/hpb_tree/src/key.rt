ghost use Rattle.std.specs.Prelude.{◌≡◌, ◌<◌, ◌≤◌, length, take};
ghost use Rattle.hpb_tree.specs.Keys.{number, key_of};

/// How many bytes of a name one number of a key holds.
pub(crate) const WORD: usize = 8;

/// The key that names are compared by. Names of at most 16 bytes that differ have different keys.
#[derive(Clone, Copy, Debug, PartialEq, Eq)]
pub(crate) struct NameKey {
    pub(crate) len: usize,
    /// The number that its first eight bytes spell.
    pub(crate) first: u64,
    /// The number that the next eight bytes spell, or 0 if there are none.
    pub(crate) rest: u64,
}

impl NameKey {
    /// The key of a name. For a short name one number is enough.
    #[inline(always)]
    pub(crate) fn of(name: &[u8]) -> NameKey
        ensures { result ≡ key_of name.now }
    {
        let len = name.len();
        if len <= WORD {
            return NameKey {
                len,
                first: number(name),
                rest: 0,
            };
        }
        let (front, behind) = name.split_at(WORD);
        NameKey {
            len,
            first: number(front),
            rest: front_number(behind),
        }
    }

    /// The key of the short name that is the first `len` bytes, read together with the bytes behind it.
    #[inline(always)]
    pub(crate) fn of_word(bytes: &[u8], len: usize) -> NameKey
        requires some { 0 < len }
        requires most { len ≤ WORD }
        requires word { WORD ≤ length bytes.now }
        ensures { result ≡ key_of (take len bytes.now) }
    {
        let word = u64::from_be_bytes([
            bytes[0], bytes[1], bytes[2], bytes[3], bytes[4], bytes[5], bytes[6], bytes[7],
        ]);
        NameKey {
            len,
            first: word >> (8 * (WORD - len)),
            rest: 0,
        }
    }
}

/// The number that the first bytes spell, eight at most.
#[cold]
#[inline(never)]
fn front_number(bytes: &[u8]) -> u64
    ensures { result ≡ number (take WORD bytes.now) }
{
    number(&bytes[..bytes.len().min(WORD)])
}

/// The number that bytes spell as digits of base 256, the first one the highest.
#[inline(always)]
fn number(bytes: &[u8]) -> u64
    requires { length bytes.now ≤ WORD }
    ensures { result ≡ number bytes.now }
{
    let mut number = 0;
    for byte in bytes {
        number = number * 256 + u64::from(*byte);
    }
    number
}
