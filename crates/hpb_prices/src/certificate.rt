ghost use Rattle.std.specs.Prelude.{◌≡◌, ◌<◌, ◌≤◌, ◌↔◌, List, Bool, IsTrue, length};
ghost use Rattle.hpb_rules.specs.Choices.{IsChoice, revenue};
ghost use Rattle.hpb_rules.specs.Prices.{Covers, IsCertificate};
ghost use Rattle.hpb_tree.specs.Licences.{licence_count as count_of_licences};
ghost use Rattle.hpb_prices.specs.Certificate.{Certifies, IsBelowWinner, bid_listed, price_listed, set_of, sum_where as sum_of_set};

use hpb_money::Dollars;
use hpb_rules::{MOST_NODES, NodeId};
use hpb_tree::Tree;

/// Whether prices prove that the winners are a choice of greatest revenue.
///
/// - `highs` has the high bid of each node, or 0 if it has none.
/// - `prices` has the price of each licence, in the licences' order.
/// - Bit n of `winners` is for node n.
///
/// Yes if all of this holds:
///
/// - each winner is a node with a high bid;
/// - no two winners have a licence in common;
/// - no high bid exceeds the sum of its licences' prices;
/// - the prices sum to the winners' high bids.
///
/// No for lists of another length, and for a bit that no node has.
pub fn check_certificate(tree: &Tree, highs: &[Dollars], prices: &[Dollars], winners: u128) -> bool
    ensures yes { IsTrue result ↔ Certifies tree.now.nodes highs.now prices.now winners }
    ensures best { IsTrue result → (c : List Bool) → IsChoice tree.now.nodes (bid_listed highs.now) c → revenue (bid_listed highs.now) c ≤ revenue (bid_listed highs.now) (set_of tree.now.nodes winners) }
{
    let count = tree.node_count();
    if highs.len() != count || prices.len() != licence_count(tree) || winners >> count != 0 {
        return false;
    }
    is_certificate(tree, highs, prices, winners)
}

/// The same, for lists of the right lengths.
fn is_certificate(tree: &Tree, highs: &[Dollars], prices: &[Dollars], winners: u128) -> bool
    requires highs { length highs.now ≡ length tree.now.nodes }
    requires prices { length prices.now ≡ count_of_licences tree.now.nodes }
    requires most { count_of_licences tree.now.nodes ≤ MOST_NODES }
    requires nodes { length tree.now.nodes ≤ MOST_NODES }
    ensures { IsTrue result ↔ IsCertificate tree.now.nodes (bid_listed highs.now) (price_listed tree.now.nodes prices.now) (set_of tree.now.nodes winners) }
{
    if !is_choice(tree, highs, winners) || !are_covered(tree, highs, prices) {
        return false;
    }
    sum_where(prices, u128::MAX) == sum_where(highs, winners)
}

/// How many licences a tree has.
fn licence_count(tree: &Tree) -> usize
    ensures value { result ≡ count_of_licences tree.now.nodes }
    ensures most { result ≤ MOST_NODES }
{
    tree.facts();
    let mut count = 0;
    for &node in tree.nodes() {
        if tree.terms(node).is_some() {
            count += 1;
        }
    }
    count
}

/// Whether each winner has a high bid, and no winner stands below another.
fn is_choice(tree: &Tree, highs: &[Dollars], winners: u128) -> bool
    requires { length highs.now ≡ length tree.now.nodes }
    ensures { IsTrue result ↔ IsChoice tree.now.nodes (bid_listed highs.now) (set_of tree.now.nodes winners) }
{
    tree.facts();
    for (place, &node) in tree.nodes().iter().enumerate() {
        if winners >> place & 1 == 0 {
            continue;
        }
        if highs[place] == 0 || is_below_winner(tree, winners, node) {
            return false;
        }
    }
    true
}

/// Whether a node stands below a winner.
fn is_below_winner(tree: &Tree, winners: u128, node: NodeId) -> bool
    requires { node < length tree.now.nodes }
    ensures { IsTrue result ↔ IsBelowWinner tree.now.nodes winners node }
{
    let mut above = tree.parent(node);
    while let Some(parent) = above {
        if winners >> parent.place() & 1 == 1 {
            return true;
        }
        above = tree.parent(parent);
    }
    false
}

/// Whether no high bid exceeds the sum of its licences' prices.
fn are_covered(tree: &Tree, highs: &[Dollars], prices: &[Dollars]) -> bool
    requires highs { length highs.now ≡ length tree.now.nodes }
    requires prices { length prices.now ≡ count_of_licences tree.now.nodes }
    requires most { count_of_licences tree.now.nodes ≤ MOST_NODES }
    ensures { IsTrue result ↔ Covers tree.now.nodes (bid_listed highs.now) (price_listed tree.now.nodes prices.now) }
{
    for (place, &node) in tree.nodes().iter().enumerate() {
        let licences = tree.licences(node);
        if u128::from(highs[place]) > sum_where(prices, u128::from(licences)) {
            return false;
        }
    }
    true
}

/// The sum of the amounts at the places whose bits are set.
fn sum_where(amounts: &[Dollars], set: u128) -> u128
    requires { length amounts.now ≤ 128 }
    ensures { result ≡ sum_of_set set 0 amounts.now }
{
    let mut sum = 0;
    for (place, amount) in amounts.iter().enumerate() {
        if set >> place & 1 == 1 {
            sum += u128::from(*amount);
        }
    }
    sum
}
