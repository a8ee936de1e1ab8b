ghost use Rattle.std.specs.Prelude.{◌≡◌, not, map, IfOk};
ghost use Rattle.std.specs.List.{list_all, list_any};
ghost use Rattle.hpb_rules.specs.Drafts.{is_name, is_name_byte, has_bad_name, has_twice, has_duplicate};
ghost use Rattle.hpb_tree.specs.Draft.{rules_of};

use crate::draft::Draft;
use crate::named::Named;
use hpb_rules::MOST_NAME_BYTES;
use std::alloc::{AllocError, Global};
use std::collections::HashSet;

/// Whether a name isn't 1 to 16 bytes of `a-z0-9_`.
pub(crate) fn has_bad_name(draft: &Draft) -> bool
    ensures { result ≡ has_bad_name (rules_of draft.now) }
{
    has_bad_name_among(&draft.nodes) || has_bad_name_among(&draft.bidders)
}

fn has_bad_name_among<T: Named>(items: &[T]) -> bool
    ensures { result ≡ list_any (λ item. not (is_name (T.named item))) items.now }
{
    items.iter().any(|item| !is_name(item.name()))
}

/// Whether two nodes, or two bidders, have the same name.
pub(crate) fn has_duplicate(alloc: Global, draft: &Draft) -> Result<bool, AllocError>
    ensures { IfOk result (λ found. found ≡ has_duplicate (rules_of draft.now)) }
{
    let nodes = draft.nodes.as_slice();
    let bidders = draft.bidders.as_slice();
    Ok(has_name_twice(alloc, nodes)? || has_name_twice(alloc, bidders)?)
}

fn has_name_twice<T: Named>(alloc: Global, items: &[T]) -> Result<bool, AllocError>
    ensures { IfOk result (λ found. found ≡ has_twice (map T.named items.now)) }
{
    let mut seen = HashSet::new(alloc);
    for item in items {
        if !seen.insert(item.name())? {
            return Ok(true);
        }
    }
    Ok(false)
}

fn is_name(name: &str) -> bool
    ensures { result ≡ is_name name.now }
{
    1 <= name.len() && name.len() <= MOST_NAME_BYTES && has_name_bytes(name.as_bytes())
}

fn has_name_bytes(bytes: &[u8]) -> bool
    ensures { result ≡ list_all is_name_byte bytes.now }
{
    bytes.iter().all(|byte| (b'a' <= *byte && *byte <= b'z')
        || (b'0' <= *byte && *byte <= b'9')
        || *byte == b'_')
}
