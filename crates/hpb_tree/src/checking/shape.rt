ghost use Rattle.std.specs.Prelude.{◌≡◌, ◌<◌, ◌&&◌, nat_lt, length, is_some, is_none};
ghost use Rattle.hpb_rules.specs.Drafts.{is_late, has_late_parent, children_of, has_thin_package, has_licence_with_child};
ghost use Rattle.hpb_rules.specs.Tree.{terms_of};
ghost use Rattle.hpb_rules.specs.declared.limits.TheConstants.{LEAST_CHILDREN};
ghost use Rattle.hpb_tree.specs.Draft.{nodes_said};

use crate::draft::NodeDraft;
use crate::outline::{children_before, is_licence, parent_at};
use hpb_rules::LEAST_CHILDREN;

/// Whether some parent doesn't stand before its node.
pub(crate) fn has_late_parent(nodes: &[NodeDraft]) -> bool
    ensures { result ≡ has_late_parent (nodes_said nodes.now) }
{
    for place in 0..nodes.len() {
        if is_late(place, parent_at(nodes, place)) {
            return true;
        }
    }
    false
}

fn is_late(place: usize, parent: Option<u64>) -> bool
    ensures { result ≡ is_late place parent }
{
    match parent {
        Some(other) => place as u64 <= other,
        None => false,
    }
}

/// Whether some package has fewer than two children.
pub(crate) fn has_thin_package(nodes: &[NodeDraft]) -> bool
    ensures { result ≡ has_thin_package (nodes_said nodes.now) }
{
    for place in 0..nodes.len() {
        if is_thin_package(nodes, place) {
            return true;
        }
    }
    false
}

fn is_thin_package(nodes: &[NodeDraft], place: usize) -> bool
    requires { place < length nodes.now }
    ensures { result ≡ (is_none (terms_of (nodes_said nodes.now) place) && nat_lt (children_of (nodes_said nodes.now) place) LEAST_CHILDREN) }
{
    !is_licence(nodes, place) && children_before(nodes, place, nodes.len()) < LEAST_CHILDREN
}

/// Whether some licence has a child.
pub(crate) fn has_parted_licence(nodes: &[NodeDraft]) -> bool
    ensures { result ≡ has_licence_with_child (nodes_said nodes.now) }
{
    for place in 0..nodes.len() {
        if is_parted_licence(nodes, place) {
            return true;
        }
    }
    false
}

fn is_parted_licence(nodes: &[NodeDraft], place: usize) -> bool
    requires { place < length nodes.now }
    ensures { result ≡ (is_some (terms_of (nodes_said nodes.now) place) && nat_lt 0 (children_of (nodes_said nodes.now) place)) }
{
    is_licence(nodes, place) && 0 < children_before(nodes, place, nodes.len())
}
