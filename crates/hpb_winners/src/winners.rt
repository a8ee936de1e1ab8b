ghost use Rattle.std.specs.Prelude.{◌≡◌, ℕ, ◌<◌, ◌≤◌, ◌+◌, Some, length, slice_index, slice_set, max, take};
ghost use Rattle.hpb_rules.specs.Choices.{IsWinners};
ghost use Rattle.hpb_rules.specs.Tree.{parent_of};
ghost use Rattle.hpb_bids.specs.View.{bid_of};
ghost use Rattle.hpb_winners.specs.View.{IsOutcome};
ghost use Rattle.hpb_winners.specs.Along.{WasOutcome, AreSums, AreSmall, IsOthersSum, reached_count};

use crate::outcome::Outcome;
use crate::places::{first_bits, take_greatest};
use hpb_bids::Books;
use hpb_rules::{MOST_AMOUNT, MOST_NODES, NodeId};
use hpb_tree::Tree;

/// Finds the outcome of the high bids, and forms the value of each node. The winners are the choice of greatest
/// revenue; on a tie the parts of a package win.
pub fn upward(tree: &Tree, books: &Books, outcome: &mut Outcome)
    ensures outcome { IsOutcome tree.now.nodes (bid_of books.now) outcome.new }
    ensures winners { IsWinners tree.now.nodes (bid_of books.now) (take (length tree.now.nodes) outcome.new.wins) }
    ensures formed { outcome.new.formed ≡ length tree.now.nodes }
{
    tree.facts();
    outcome.restart(tree);
    upward_along(tree, books, u128::MAX, outcome);
}

/// Finds the outcome of the high bids from that of earlier ones. Those may have differed only on the nodes of a mask:
/// bit n is for node n. Only the values of these nodes and of the nodes above them are formed.
pub fn upward_along(tree: &Tree, books: &Books, changed: u128, outcome: &mut Outcome)
    requires { WasOutcome tree.now.nodes (bid_of books.now) changed outcome.old }
    ensures outcome { IsOutcome tree.now.nodes (bid_of books.now) outcome.new }
    ensures winners { IsWinners tree.now.nodes (bid_of books.now) (take (length tree.now.nodes) outcome.new.wins) }
    ensures formed { outcome.new.formed ≡ reached_count tree.now.nodes changed }
{
    tree.facts();
    outcome.facts();
    outcome.begin();
    let nodes = tree.nodes();
    let mut pending = first_bits(changed, nodes.len());
    while let Some(place) = take_greatest(&mut pending) {
        if let Some(parent) = renew(tree, books, nodes[place], outcome) {
            pending |= 1 << parent.place();
        }
    }
    outcome.facts();
}

/// Forms the value of a node from its high bid and its children's values. It replaces its earlier value in the sum over
/// its parent's children, or in the revenue. Returns its parent.
fn renew(tree: &Tree, books: &Books, node: NodeId, outcome: &mut Outcome) -> Option<NodeId>
    requires node { node < length tree.now.nodes }
    requires few { outcome.old.formed < MOST_NODES }
    requires sums { AreSums tree.now.nodes outcome.old }
    requires small { AreSmall tree.now.nodes outcome.old }
    ensures parent { result ≡ parent_of tree.now.nodes node }
    ensures within { node < MOST_NODES }
    ensures value { outcome.new.values ≡ slice_set outcome.old.values node (max (bid_of books.now node) (slice_index outcome.old.inside node)) }
    ensures others { IsOthersSum tree.now.nodes node outcome.old.inside outcome.new.inside }
    ensures sums { AreSums tree.now.nodes outcome.new }
    ensures small { AreSmall tree.now.nodes outcome.new }
    ensures formed { outcome.new.formed ≡ outcome.old.formed + 1 }
    ensures parents { outcome.new.parents ≡ outcome.old.parents }
{
    tree.facts();
    let older = outcome.value(node);
    let newer = high_bid(books, node).max(outcome.inside(node));
    outcome.form(node, newer);
    let above = tree.parent(node);
    match above {
        Some(parent) => outcome.replace_inside(parent, older, newer),
        None => outcome.replace_revenue(older, newer),
    }
    above
}

/// The high bid of a node, or 0 if it has none.
fn high_bid(books: &Books, node: NodeId) -> u64
    ensures value { result ≡ bid_of books.now node }
    ensures most { result ≤ MOST_AMOUNT }
{
    books.facts();
    books.standing(node).map_or(0, |offer| offer.amount)
}
