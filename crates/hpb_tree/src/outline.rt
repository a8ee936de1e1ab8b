ghost use Rattle.std.specs.Prelude.{◌≡◌, ◌<◌, ◌≤◌, length, is_some, option_map};
ghost use Rattle.std.specs.List.{range_with_len};
ghost use Rattle.hpb_rules.specs.Drafts.{licence_count};
ghost use Rattle.hpb_rules.specs.Tree.{parent_of, terms_of};
ghost use Rattle.hpb_rules.specs.Choices.{is_node};
ghost use Rattle.hpb_rules.specs.Prices.{children_among};
ghost use Rattle.hpb_tree.specs.Draft.{nodes_said, terms_said};

use crate::draft::{NodeDraft, TermsDraft};

/// The parent of a node of a draft, as it was written.
pub(crate) fn parent_at(nodes: &[NodeDraft], place: usize) -> Option<u64>
    requires { place < length nodes.now }
    ensures { result ≡ parent_of (nodes_said nodes.now) place }
{
    nodes[place].parent
}

/// The terms of a node of a draft, as they were written.
pub(crate) fn terms_at(nodes: &[NodeDraft], place: usize) -> Option<TermsDraft>
    requires { place < length nodes.now }
    ensures { option_map terms_said result ≡ terms_of (nodes_said nodes.now) place }
{
    nodes[place].terms
}

/// How many of the nodes before a place are children of a node.
pub(crate) fn children_before(nodes: &[NodeDraft], parent: usize, end: usize) -> usize
    requires { end ≤ length nodes.now }
    ensures value { result ≡ children_among (nodes_said nodes.now) parent (range_with_len 0 end) }
    ensures most { result ≤ end }
{
    let mut count = 0;
    for place in 0..end {
        if is_child(nodes, place, parent) {
            count += 1;
        }
    }
    count
}

fn is_child(nodes: &[NodeDraft], place: usize, parent: usize) -> bool
    requires { place < length nodes.now }
    ensures { result ≡ is_node parent (parent_of (nodes_said nodes.now) place) }
{
    match parent_at(nodes, place) {
        Some(other) => other == parent as u64,
        None => false,
    }
}

/// How many nodes are licences.
pub(crate) fn licence_count(nodes: &[NodeDraft]) -> usize
    ensures value { result ≡ licence_count (nodes_said nodes.now) }
    ensures most { result ≤ length nodes.now }
{
    let mut count = 0;
    for place in 0..nodes.len() {
        if is_licence(nodes, place) {
            count += 1;
        }
    }
    count
}

/// Whether a node is a licence.
pub(crate) fn is_licence(nodes: &[NodeDraft], place: usize) -> bool
    requires { place < length nodes.now }
    ensures { result ≡ is_some (terms_of (nodes_said nodes.now) place) }
{
    terms_at(nodes, place).is_some()
}
