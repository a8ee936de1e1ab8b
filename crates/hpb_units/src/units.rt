ghost use Rattle.std.specs.Prelude.{◌≡◌, ℕ, ◌<◌, ◌≤◌, ◌&&◌, ◌↔◌, IsTrue, IsSome, length};
ghost use Rattle.hpb_rules.specs.Choices.{is_in};
ghost use Rattle.hpb_rules.specs.History.{is_of};
ghost use Rattle.hpb_rules.specs.Tree.{terms_of, sum_over, units_at};
ghost use Rattle.hpb_bids.specs.View.{offer_at};
ghost use Rattle.hpb_units.specs.Activity.{is_active_on, held, activity_of, activity_with, has_licence};

use hpb_bids::Books;
use hpb_rules::{BidderId, NodeId};
use hpb_tree::Tree;
use hpb_winners::Outcome;

/// The activity of a bidder, in bidding units. It counts, once each, the licences of the nodes on which the bidder bid
/// in the open round or which it won at the last close.
pub fn activity(tree: &Tree, books: &Books, outcome: &Outcome, bidder: BidderId) -> u32
    ensures { result ≡ activity_of tree.now.nodes books.now outcome.now bidder }
{
    units_of(tree, licences_held(tree, books, outcome, bidder))
}

/// Whether a bidder's activity with one more node is within its eligibility, in bidding units.
pub fn fits(
    tree: &Tree,
    books: &Books,
    outcome: &Outcome,
    bidder: BidderId,
    node: NodeId,
    eligibility: u32,
) -> bool
    requires { node < length tree.now.nodes }
    ensures { IsTrue result ↔ (activity_with tree.now.nodes books.now outcome.now bidder node ≤ eligibility) }
{
    let licences = licences_held(tree, books, outcome, bidder) | tree.licences(node);
    units_of(tree, licences) <= eligibility
}

/// A mask of the licences of the nodes on which a bidder bid in the open round or which it won, a bit for each licence.
pub(crate) fn licences_held(tree: &Tree, books: &Books, outcome: &Outcome, bidder: BidderId) -> u64
    ensures { (l : ℕ) → IsSome (terms_of tree.now.nodes l) → has_licence tree.now.nodes result l ≡ held tree.now.nodes books.now outcome.now bidder l }
{
    let mut licences = 0;
    for &node in tree.nodes() {
        if is_active_on(books, outcome, bidder, node) {
            licences |= tree.licences(node);
        }
    }
    licences
}

/// Whether a bidder bid on a node in the open round, or won it.
fn is_active_on(books: &Books, outcome: &Outcome, bidder: BidderId, node: NodeId) -> bool
    ensures { result ≡ is_active_on books.now outcome.now bidder node }
{
    books.has_bid_on(bidder, node) || has_won(books, outcome, bidder, node)
}

/// Whether a node won, and by this bidder's bid.
fn has_won(books: &Books, outcome: &Outcome, bidder: BidderId, node: NodeId) -> bool
    ensures { result ≡ (is_in outcome.now.wins node && is_of bidder (offer_at books.now.standing node)) }
{
    match books.standing(node) {
        Some(offer) => outcome.wins(node) && offer.bidder == bidder,
        None => false,
    }
}

/// The bidding units of these licences: bit i is for the i-th licence of the tree, from 0.
#[inline(never)]
pub(crate) fn units_of(tree: &Tree, licences: u64) -> u32
    ensures { result ≡ sum_over tree.now.nodes (has_licence tree.now.nodes licences) (units_at tree.now.nodes) }
{
    tree.facts();
    let mut total = 0;
    let mut number: u32 = 0;
    for &node in tree.nodes() {
        if tree.terms(node).is_some() {
            if (licences >> number) & 1 == 1 {
                total += tree.units(node);
            }
            number += 1;
        }
    }
    total
}
