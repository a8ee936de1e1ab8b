ghost use Rattle.std.specs.Prelude.{◌≡◌, ℕ, ◌+◌, ◌<◌, ◌≤◌, length, slice_index, slice_set};
ghost use Rattle.hpb_rules.specs.Choices.{winners};
ghost use Rattle.hpb_rules.specs.Prices.{carried as carried_of, price, IsCertificate};
ghost use Rattle.hpb_bids.specs.View.{bid_of};
ghost use Rattle.hpb_winners.specs.View.{IsOutcome};
ghost use Rattle.hpb_prices.specs.Along.{WasPriced, AreMinima};
ghost use Rattle.hpb_prices.specs.Shares.{IsPassedDown};
ghost use Rattle.hpb_prices.specs.View.{HasMinima, HasPrices};

use crate::minimum::least_bid;
use crate::prices::Prices;
use hpb_bids::Books;
use hpb_money::{Dollars, MOST_DOLLARS, Shares};
use hpb_rules::{MOST_NODES, NodeId};
use hpb_tree::Tree;
use hpb_winners::{MOST_VALUE, Outcome};

/// Sets the prices and the least bids, from the top down. The part of a package's high bid above the best revenue
/// inside it is shared among its children. The prices prove the winners: they cover each high bid and sum to the
/// winners' revenue.
pub fn downward(tree: &Tree, books: &Books, outcome: &Outcome, prices: &mut Prices)
    requires { IsOutcome tree.now.nodes (bid_of books.now) outcome.now }
    ensures prices { HasPrices tree.now.nodes (bid_of books.now) prices.new }
    ensures minima { HasMinima tree.now (bid_of books.now) prices.new }
    ensures certificate { IsCertificate tree.now.nodes (bid_of books.now) (λ node. slice_index prices.new.prices node) (winners tree.now.nodes (bid_of books.now)) }
{
    prices.restart(tree);
    downward_along(tree, books, outcome, prices);
}

/// Sets the prices and the least bids, given those of earlier high bids. The least bid on a node is found anew only if
/// the node's price changes.
pub fn downward_along(tree: &Tree, books: &Books, outcome: &Outcome, prices: &mut Prices)
    requires outcome { IsOutcome tree.now.nodes (bid_of books.now) outcome.now }
    requires prices { WasPriced tree.now prices.old }
    ensures prices { HasPrices tree.now.nodes (bid_of books.now) prices.new }
    ensures minima { HasMinima tree.now (bid_of books.now) prices.new }
    ensures certificate { IsCertificate tree.now.nodes (bid_of books.now) (λ node. slice_index prices.new.prices node) (winners tree.now.nodes (bid_of books.now)) }
{
    tree.facts();
    pass_down(
        tree,
        books,
        outcome,
        &mut prices.shares,
        &mut prices.prices,
        &mut prices.minima,
    );
}

/// Sets the price of each node, from the first to the last: its value and the dollars carried down to it.
fn pass_down(
    tree: &Tree,
    books: &Books,
    outcome: &Outcome,
    shares: &mut [Shares],
    prices: &mut [Dollars],
    minima: &mut [Dollars],
)
    requires outcome { IsOutcome tree.now.nodes (bid_of books.now) outcome.now }
    requires shares { length shares.old ≡ MOST_NODES }
    requires prices { length prices.old ≡ MOST_NODES }
    requires count { length minima.old ≡ MOST_NODES }
    requires minima { AreMinima tree.now prices.old minima.old }
    ensures prices { (n : ℕ) → n < length tree.now.nodes → slice_index prices.new n ≡ price tree.now.nodes (bid_of books.now) n }
    ensures minima { AreMinima tree.now prices.new minima.new }
{
    tree.facts();
    outcome.facts();
    for &node in tree.nodes() {
        let price = outcome.value(node) + carried_to(tree, books, shares, node);
        set_price(tree, node, price, prices, minima);
        pass_on(tree, outcome, node, price, shares);
    }
}

/// The dollars carried down to a node: its share of those that its parent passes on, and 0 for a top node.
fn carried_to(tree: &Tree, books: &Books, shares: &[Shares], node: NodeId) -> Dollars
    requires shares { IsPassedDown tree.now.nodes (bid_of books.now) node shares.now }
    requires node { node < length tree.now.nodes }
    ensures value { result ≡ carried_of tree.now.nodes (bid_of books.now) node }
    ensures most { result ≤ MOST_VALUE }
{
    tree.facts();
    books.facts();
    match tree.parent(node) {
        Some(parent) => shares[parent.place()].at(tree.rank(node)),
        None => 0,
    }
}

/// Notes the dollars that a package passes on to its children: those carried down to it and its surplus. Together they
/// are the part of its price above the best revenue inside it. A licence passes nothing on.
fn pass_on(tree: &Tree, outcome: &Outcome, node: NodeId, price: Dollars, shares: &mut [Shares])
    requires node { node < length tree.now.nodes }
    requires price { slice_index outcome.now.inside node ≤ price }
    requires shares { length shares.old ≡ MOST_NODES }
    ensures { (bid : ℕ → ℕ) → IsOutcome tree.now.nodes bid outcome.now → price ≡ slice_index outcome.now.values node + carried_of tree.now.nodes bid node
        → IsPassedDown tree.now.nodes bid node shares.old → IsPassedDown tree.now.nodes bid (node + 1) shares.new }
{
    tree.facts();
    let children = tree.children(node);
    if children == 0 {
        return;
    }
    shares[node.place()] = Shares::of(price - outcome.inside(node), children);
}

/// Sets the price of a node, and if it changes, the least bid on it.
fn set_price(
    tree: &Tree,
    node: NodeId,
    price: Dollars,
    prices: &mut [Dollars],
    minima: &mut [Dollars],
)
    requires node { node < length tree.now.nodes }
    requires price { price ≤ MOST_DOLLARS }
    requires prices { length prices.old ≡ MOST_NODES }
    requires count { length minima.old ≡ MOST_NODES }
    requires minima { AreMinima tree.now prices.old minima.old }
    ensures prices { prices.new ≡ slice_set prices.old node price }
    ensures count { length minima.new ≡ MOST_NODES }
    ensures minima { AreMinima tree.now prices.new minima.new }
{
    tree.facts();
    let place = node.place();
    if prices[place] != price {
        prices[place] = price;
        minima[place] = least_bid(tree, node, price);
    }
}
