ghost use Rattle.std.specs.Prelude.{◌≡◌, ◌≤◌, ◌<◌, ◌+◌, false, length};
ghost use Rattle.hpb_rules.specs.Drafts.{has_late_parent, depth};
ghost use Rattle.hpb_rules.specs.Tree.{at_or_under};
ghost use Rattle.hpb_tree.specs.Draft.{nodes_said};

use crate::draft::NodeDraft;
use crate::outline::parent_at;

/// The levels down to a node: a top node has one.
pub(crate) fn depth(nodes: &[NodeDraft], place: usize) -> usize
    requires before { has_late_parent (nodes_said nodes.now) ≡ false }
    requires within { place < length nodes.now }
    ensures value { result ≡ depth (nodes_said nodes.now) place }
    ensures most { result ≤ place + 1 }
{
    match parent_at(nodes, place) {
        Some(parent) => 1 + depth(nodes, parent as usize),
        None => 1,
    }
}

/// Whether a node is at or under another.
pub(crate) fn is_at_or_under(nodes: &[NodeDraft], above: usize, place: usize) -> bool
    requires before { has_late_parent (nodes_said nodes.now) ≡ false }
    requires within { place < length nodes.now }
    ensures { result ≡ at_or_under (nodes_said nodes.now) above place }
{
    if above == place {
        return true;
    }
    match parent_at(nodes, place) {
        Some(parent) => is_at_or_under(nodes, above, parent as usize),
        None => false,
    }
}
