//! Tables of entries that stand one after another, each of the same size.
ghost use Rattle.std.specs.Prelude.{◌≡◌, ◌↔◌, ◌≤◌, ◌+◌, ◌*◌, ◌++◌, ℕ, List, Some, IsTrue, length};
ghost use Rattle.std.specs.List.{flat_map, AllByRecursion};
ghost use Rattle.hpb_codec.specs.Numbers.{before};

/// A value that is spelled in a fixed number of bytes.
pub trait Entry: Copy {
    /// How many bytes spell it.
    const SIZE: usize;

    ghost SIZE: { ℕ };

    /// The bytes that spell a value.
    ghost spelling: { Self → List ℕ };

    /// The values that have a spelling.
    ghost fits: { Self → Type 0 };

    /// The condition for a spelling, besides the ranges of the types.
    ghost sound: { Self → Type 0 };

    /// Writes the bytes, and returns the place behind them.
    fn put(&self, out: &mut [u8], at: usize) -> usize
        requires { at + SIZE ≤ length out.old }
        ensures written { before result out.new ≡ before at out.old ++ spelling self.now }
        ensures fits { sound self.now → fits self.now }
        ensures next { result ≡ at + SIZE };

    /// The value that the bytes spell, if they spell one.
    fn read(bytes: &[u8]) -> Option<Self>
        requires { length bytes.now ≡ SIZE }
        ensures { (value : Self) → result ≡ Some value ↔ (fits value × (bytes.now ≡ spelling value)) };

    ghost sized: { (value : Self) → length (spelling value) ≡ SIZE };
}

/// Writes entries one after another, and returns the place behind them.
pub fn put_table<T: Entry>(out: &mut [u8], at: usize, table: &[T]) -> usize
    requires { at + length table.now * T.SIZE ≤ length out.old }
    ensures written { before result out.new ≡ before at out.old ++ flat_map T.spelling table.now }
    ensures fits { AllByRecursion T.sound table.now → AllByRecursion T.fits table.now }
    ensures next { result ≡ at + length table.now * T.SIZE }
{
    let mut next = at;
    for entry in table {
        next = entry.put(out, next);
    }
    next
}

/// Reads entries that stand one after another, as many as the table has room for. Returns whether the bytes spell them
/// all; if not, the contents of the table are of no use.
pub fn read_table<T: Entry>(bytes: &[u8], table: &mut [T]) -> bool
    requires { length bytes.now ≡ length table.old * T.SIZE }
    ensures found { IsTrue result → AllByRecursion T.fits table.new × (bytes.now ≡ flat_map T.spelling table.new) }
    ensures only { (values : List T) → length values ≡ length table.old → AllByRecursion T.fits values
        → bytes.now ≡ flat_map T.spelling values → IsTrue result × (table.new ≡ values) }
{
    let mut rest = bytes;
    for place in table.iter_mut() {
        let (front, after) = rest.split_at(T::SIZE);
        match T::read(front) {
            Some(value) => *place = value,
            None => return false,
        }
        rest = after;
    }
    true
}
