ghost use Rattle.std.specs.Prelude.{◌≡◌, ◌<◌, ◌≤◌, All, IfOk, IfSome, Some, length, map, slice_get, take};
ghost use Rattle.hpb_rules.specs.declared.limits.TheConstants.{MOST_NODES};
ghost use Rattle.hpb_tree.specs.Keys.{key_of};
ghost use Rattle.hpb_tree.specs.declared.hints.TheConstants.{HINTS};

use crate::key::{NameKey, WORD};
use crate::named::Named;
use std::alloc::{AllocError, Global};

/// How many hints there are: many more than names, so that few names share one.
const HINTS: usize = 4096;

/// An odd number with mixed bits: the highest bits of a product with it depend on each bit of a key. Under this one
/// names that end in numbers seldom share a hint.
const MIXED: u64 = 0xd0e1_ee28_c676_6bfd;

/// Leads from a name to the place at which it may stand: a hint for each hash of a key, and the key of the name at each
/// place.
#[derive(Debug, Drop)]
pub(crate) struct Hints {
    places: Vec<u8>,
    pub(crate) keys: Vec<NameKey>,
    ghost size: { length places.items ≡ HINTS },
    ghost within: { All (λ place. place < length keys.items) places.items },
}

impl Hints {
    /// Hints to the places of items. If two names share a hint, the later one has it.
    pub(crate) fn new<T: Named>(alloc: Global, items: &[T]) -> Result<Hints, AllocError>
        requires some { 0 < length items.now }
        requires most { length items.now ≤ MOST_NODES }
        ensures { IfOk result (λ hints. hints.keys.items ≡ map (λ item. key_of (T.named item)) items.now) }
    {
        let mut places = vec![in alloc; 0; HINTS]?;
        let mut keys = Vec::with_capacity(alloc, items.len())?;
        for (place, item) in items.iter().enumerate() {
            let key = NameKey::of(item.name().as_bytes());
            places[hint_of(key)] = place as u8;
            keys.push(key)?;
        }
        Ok(Hints { places, keys })
    }

    /// A copy of the hints. Fails only if memory is refused.
    pub(crate) fn copy(&self, alloc: Global) -> Result<Hints, AllocError>
        ensures { IfOk result (λ hints. hints.keys.items ≡ self.now.keys.items) }
    {
        let places = self.places.as_slice().to_vec(alloc)?;
        let keys = self.keys.as_slice().to_vec(alloc)?;
        Ok(Hints { places, keys })
    }

    /// The place that is hinted at, if the name there is the one sought.
    #[inline(always)]
    pub(crate) fn find(&self, name: &[u8]) -> Option<usize>
        ensures { IfSome result (λ place. slice_get self.now.keys.items place ≡ Some (key_of name.now)) }
    {
        self.find_key(NameKey::of(name))
    }

    /// The place that is hinted at, if the name there is the first `len` bytes. A short name is read at once, with the
    /// bytes behind it.
    #[inline(always)]
    pub(crate) fn find_front(&self, bytes: &[u8], len: usize) -> Option<usize>
        requires { len ≤ length bytes.now }
        ensures { IfSome result (λ place. slice_get self.now.keys.items place ≡ Some (key_of (take len bytes.now))) }
    {
        if len == 0 || len > WORD || bytes.len() < WORD {
            return self.find_apart(&bytes[..len]);
        }
        self.find_key(NameKey::of_word(bytes, len))
    }

    /// The same as `find`, kept out of line so that the path of short names stays small.
    #[cold]
    #[inline(never)]
    fn find_apart(&self, name: &[u8]) -> Option<usize>
        ensures { IfSome result (λ place. slice_get self.now.keys.items place ≡ Some (key_of name.now)) }
    {
        self.find(name)
    }

    /// The place that is hinted at, if the name there has the key.
    #[inline(always)]
    fn find_key(&self, key: NameKey) -> Option<usize>
        ensures { IfSome result (λ place. slice_get self.now.keys.items place ≡ Some key) }
    {
        let place = usize::from(self.places[hint_of(key)]);
        if self.keys[place] == key {
            Some(place)
        } else {
            None
        }
    }
}

/// The hint of a key: the highest 12 bits of a product.
#[inline(always)]
fn hint_of(key: NameKey) -> usize
    ensures { result < HINTS }
{
    let folded = key.first.wrapping_add(key.rest.wrapping_mul(MIXED));
    (folded.wrapping_mul(MIXED) >> 52) as usize
}
