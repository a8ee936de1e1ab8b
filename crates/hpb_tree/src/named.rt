ghost use Rattle.std.specs.Prelude.{◌≡◌, ◌<◌, length, IfSome, position};
ghost use Rattle.std.specs.Str.{bytes_eq};

use crate::definition::Bidder;
use crate::draft::{BidderDraft, NodeDraft};
use crate::tree::TreeNode;

/// A node or a bidder: an item with a name.
pub(crate) trait Named {
    ghost use Rattle.std.specs.Prelude.{ℕ, List};

    ghost named: { Self → List ℕ };

    fn name(&self) -> &str
        ensures { result.now ≡ named self.now };
}

impl Named for NodeDraft {
    ghost use Rattle.std.specs.Prelude.{string_bytes};

    ghost named = { λ node. string_bytes node.name };

    fn name(&self) -> &str {
        self.name.as_str()
    }
}

impl Named for BidderDraft {
    ghost use Rattle.std.specs.Prelude.{string_bytes};

    ghost named = { λ bidder. string_bytes bidder.name };

    fn name(&self) -> &str {
        self.name.as_str()
    }
}

impl Named for TreeNode {
    ghost use Rattle.std.specs.Prelude.{string_bytes};

    ghost named = { λ node. string_bytes node.name };

    fn name(&self) -> &str {
        self.name.as_str()
    }
}

impl Named for Bidder {
    ghost use Rattle.std.specs.Prelude.{string_bytes};

    ghost named = { λ bidder. string_bytes bidder.name };

    fn name(&self) -> &str {
        self.name.as_str()
    }
}

/// The place of the first item with a name, if there is one. Used when no hint leads to the name.
#[cold]
#[inline(never)]
pub(crate) fn place_named<T: Named>(items: &[T], name: &[u8]) -> Option<usize>
    ensures value { result ≡ position (λ item. bytes_eq (T.named item) name.now) items.now }
    ensures within { IfSome result (λ place. place < length items.now) }
{
    items.iter().position(|item| item.name().as_bytes() == name)
}
