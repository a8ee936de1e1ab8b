ghost use Rattle.std.specs.Prelude.{◌≡◌, ℕ, ◌<◌, ◌≤◌, length, slice_index};
ghost use Rattle.hpb_rules.specs.Tree.{opening as opening_of};
ghost use Rattle.hpb_rules.specs.Prices.{IsMinimum, minimum_of};

use hpb_money::{Dollars, MOST_DOLLARS, ceil_percent, round_up};
use hpb_rules::{MOST_NODES, MOST_STEP, NodeId};
use hpb_tree::Tree;

/// Sets the least bid on each node of a tree without a bid, whose prices are 0.
pub(crate) fn set_first_minima(tree: &Tree, minima: &mut [Dollars])
    requires { length minima.old ≡ MOST_NODES }
    ensures { (n : ℕ) → n < length tree.now.nodes → slice_index minima.new n ≡ minimum_of tree.now.step tree.now.percent (opening_of tree.now.nodes n) 0 }
{
    tree.facts();
    for (place, &node) in tree.nodes().iter().enumerate() {
        minima[place] = least_bid(tree, node, 0);
    }
}

/// The least bid on a node at this price.
pub(crate) fn least_bid(tree: &Tree, node: NodeId, price: Dollars) -> Dollars
    requires node { node < length tree.now.nodes }
    requires price { price ≤ MOST_DOLLARS }
    ensures { result ≡ minimum_of tree.now.step tree.now.percent (opening_of tree.now.nodes node) price }
{
    let step = u64::from(tree.step());
    let percent = u64::from(tree.percent());
    minimum_bid(step, percent, tree.opening(node), price)
}

/// The least multiple of the step that is at least the opening, and at least the price raised by the percentage.
fn minimum_bid(step: u64, percent: u64, opening: Dollars, price: Dollars) -> Dollars
    requires some { 0 < step }
    requires step { step ≤ MOST_STEP }
    requires percent { percent ≤ 100 }
    requires opening { opening ≤ MOST_DOLLARS }
    requires price { price ≤ MOST_DOLLARS }
    ensures value { result ≡ minimum_of step percent opening price }
    ensures minimum { IsMinimum step percent opening price result }
{
    let raised = price + ceil_percent(price, percent);
    round_up(opening.max(raised), step)
}
