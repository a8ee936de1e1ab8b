ghost use Rattle.std.specs.Prelude.{◌≡◌, ◌≤◌, ◌<◌, ◌^◌, ◌↔◌, ◌||◌, ◌&&◌, ℕ, IfOk, IsTrue, length, slice_index};
ghost use Rattle.hpb_rules.specs.Choices.{is_in};
ghost use Rattle.hpb_rules.specs.Saved.{has_bit};
ghost use Rattle.hpb_rules.specs.Tree.{sum_over, at_or_under, units_at};
ghost use Rattle.hpb_tree.specs.Licences.{licence_count};
ghost use Rattle.hpb_bids.specs.View.{BooksView, IsQuiet};
ghost use Rattle.hpb_winners.specs.View.{OutcomeView};
ghost use Rattle.hpb_units.specs.Activity.{activity_with, has_licence};
ghost use Rattle.hpb_units.specs.Holdings.{HoldingsView, holds, IsNothing, AreLicenceUnits, AreSummed, AreSmall, AreHoldings, HoldsMore};
ghost use Rattle.hpb_units.specs.Inside.{holdings_view, IsKept};

use crate::units::{licences_held, units_of};
use hpb_bids::Books;
use hpb_rules::{BidderId, MOST_BIDDERS, MOST_LICENCES, NodeId};
use hpb_tree::Tree;
use hpb_winners::{Outcome, first_bits, take_greatest};
use std::alloc::{AllocError, Global};
use std::marker::Model;

/// The licences that each bidder holds, and its activity. Both follow from the books and the outcome; they are kept so
/// that they needn't be found anew for each bid.
#[derive(Debug, Drop)]
pub struct Holdings {
    /// A mask for each bidder: bit i is for the i-th licence of the tree, from 0.
    pub(crate) licences: Vec<u64>,
    /// The bidding units of these licences.
    pub(crate) units: Vec<u32>,
    /// The bidding units of each licence of the tree, by its number from 0.
    pub(crate) licence_units: Vec<u32>,
}

impl Model for Holdings {
    ghost Value = { HoldingsView };

    ghost view = { holdings_view };

    ghost invariant = { IsKept };
}

impl Holdings {
    /// The holdings that follow from books and an outcome. Fails only if memory is refused.
    pub fn new(
        alloc: Global,
        tree: &Tree,
        books: &Books,
        outcome: &Outcome,
    ) -> Result<Holdings, AllocError>
        ensures { IfOk result (AreHoldings tree.now.nodes books.now outcome.now) }
    {
        let mut holdings = Holdings {
            licences: vec![in alloc; 0; MOST_BIDDERS]?,
            units: vec![in alloc; 0; MOST_BIDDERS]?,
            licence_units: vec![in alloc; 0; MOST_LICENCES]?,
        };
        holdings.find(tree, books, outcome);
        Ok(holdings)
    }

    /// A copy of the holdings. Fails only if memory is refused.
    pub fn copy(&self, alloc: Global) -> Result<Holdings, AllocError>
        ensures { IfOk result (λ holdings. holdings ≡ self.now) }
    {
        Ok(Holdings {
            licences: self.licences.as_slice().to_vec(alloc)?,
            units: self.units.as_slice().to_vec(alloc)?,
            licence_units: self.licence_units.as_slice().to_vec(alloc)?,
        })
    }

    /// Makes these holdings equal to others. Takes no memory.
    pub fn copy_from(&mut self, other: &Holdings)
        ensures { self.new ≡ other.now }
    {
        self.licences.copy_from_slice(other.licences.as_slice());
        self.units.copy_from_slice(other.units.as_slice());
        self.licence_units
            .copy_from_slice(other.licence_units.as_slice());
    }

    /// The activity of a bidder, in bidding units: the units of the licences that it holds, each counted once.
    #[inline(always)]
    pub fn activity(&self, bidder: BidderId) -> u32
        ensures { result ≡ slice_index self.now.units bidder }
    {
        self.units[bidder.place()]
    }

    /// Whether a bidder's activity with one more node is within its eligibility, in bidding units.
    #[inline(always)]
    pub fn fits(&self, tree: &Tree, bidder: BidderId, node: NodeId, eligibility: u32) -> bool
        requires node { node < length tree.now.nodes }
        requires small { AreSmall tree.now.nodes }
        requires summed { AreSummed tree.now.nodes self.now }
        ensures { (books : BooksView) (outcome : OutcomeView) → AreHoldings tree.now.nodes books outcome self.now → IsTrue result ↔ (activity_with tree.now.nodes books outcome bidder node ≤ eligibility) }
    {
        self.units_with(tree, bidder, node) <= eligibility
    }

    /// Makes these the holdings that follow from books and an outcome.
    pub fn find(&mut self, tree: &Tree, books: &Books, outcome: &Outcome)
        ensures { AreHoldings tree.now.nodes books.now outcome.now self.new }
    {
        self.find_licence_units(tree);
        for place in 0..MOST_BIDDERS {
            let bidder = BidderId::new(place);
            let licences = licences_held(tree, books, outcome, bidder);
            self.set(bidder, licences, units_of(tree, licences));
        }
    }

    /// Makes these the holdings that follow from an outcome and books without a bid in the open round. `winners` is the
    /// mask of the winners, bit n for node n. The bidding units of the tree's licences must be known; holdings that
    /// follow from any books on the tree know them.
    pub fn find_won(&mut self, tree: &Tree, books: &Books, outcome: &Outcome, winners: u128)
        requires quiet { IsQuiet books.now }
        requires small { AreSmall tree.now.nodes }
        requires units { AreLicenceUnits tree.now.nodes self.old.licence_units }
        requires winners { (n : ℕ) → has_bit winners n ≡ is_in outcome.now.wins n }
        ensures { AreHoldings tree.now.nodes books.now outcome.now self.new }
    {
        tree.facts();
        let nodes = tree.nodes();
        let mut winners = first_bits(winners, nodes.len());
        self.clear();
        while let Some(place) = take_greatest(&mut winners) {
            let node = nodes[place];
            if let Some(offer) = books.standing(node) {
                self.add(tree, offer.bidder, node);
            }
        }
    }

    /// Adds the licences of one node to those that a bidder holds.
    #[inline(always)]
    pub fn add(&mut self, tree: &Tree, bidder: BidderId, node: NodeId)
        requires node { node < length tree.now.nodes }
        requires small { AreSmall tree.now.nodes }
        requires summed { AreSummed tree.now.nodes self.old }
        ensures more { HoldsMore tree.now.nodes self.old self.new bidder node }
        ensures summed { AreSummed tree.now.nodes self.new }
    {
        let units = self.units_with(tree, bidder, node);
        let licences = self.licences(bidder) | tree.licences(node);
        self.set(bidder, licences, units);
    }

    /// The units of the licences that a bidder holds, together with those of a node. If the bidder holds some of the
    /// node's licences, only the others are added, licence by licence.
    #[inline(always)]
    fn units_with(&self, tree: &Tree, bidder: BidderId, node: NodeId) -> u32
        requires node { node < length tree.now.nodes }
        requires small { AreSmall tree.now.nodes }
        requires summed { AreSummed tree.now.nodes self.now }
        ensures within { bidder < MOST_BIDDERS }
        ensures value { result ≡ sum_over tree.now.nodes (λ licence. holds tree.now.nodes self.now bidder licence || at_or_under tree.now.nodes node licence) (units_at tree.now.nodes) }
    {
        tree.facts();
        let own = self.licences(bidder);
        let more = tree.licences(node);
        if own | more == own {
            return self.activity(bidder);
        }
        if own & more == 0 {
            return self.activity(bidder) + tree.units(node);
        }
        self.activity(bidder) + self.units_of_licences(tree, more & !own)
    }

    /// The bidding units of these licences: bit i is for the i-th licence of the tree, from 0. Walks the set bits from
    /// the lowest up; clear bits cost nothing.
    #[inline(always)]
    fn units_of_licences(&self, tree: &Tree, licences: u64) -> u32
        requires within { licences < 2 ^ licence_count tree.now.nodes }
        requires small { AreSmall tree.now.nodes }
        requires units { AreLicenceUnits tree.now.nodes self.now.licence_units }
        ensures { result ≡ sum_over tree.now.nodes (has_licence tree.now.nodes licences) (units_at tree.now.nodes) }
    {
        tree.facts();
        let mut rest = licences;
        let mut total = 0;
        while rest != 0 {
            total += self.licence_units[rest.trailing_zeros() as usize];
            rest &= rest - 1;
        }
        total
    }

    /// The licences that a bidder holds: bit i is for the i-th licence of the tree, from 0.
    #[inline(always)]
    fn licences(&self, bidder: BidderId) -> u64
        ensures value { result ≡ slice_index self.now.licences bidder }
        ensures within { bidder < MOST_BIDDERS }
    {
        self.licences[bidder.place()]
    }

    /// Finds the bidding units of each licence of the tree, and changes nothing else.
    fn find_licence_units(&mut self, tree: &Tree)
        ensures found { AreLicenceUnits tree.now.nodes self.new.licence_units }
        ensures same_licences { self.new.licences ≡ self.old.licences }
        ensures same_units { self.new.units ≡ self.old.units }
    {
        tree.facts();
        let mut number = 0;
        for &node in tree.nodes() {
            if tree.terms(node).is_some() {
                self.licence_units[number] = tree.units(node);
                number += 1;
            }
        }
    }

    /// Sets the licences and the units of a bidder, and nothing else.
    #[inline(always)]
    fn set(&mut self, bidder: BidderId, licences: u64, units: u32)
        ensures licences { slice_index self.new.licences bidder ≡ licences }
        ensures units { slice_index self.new.units bidder ≡ units }
        ensures other_licences { (other : ℕ) → (other ≡ bidder → ⊥) → slice_index self.new.licences other ≡ slice_index self.old.licences other }
        ensures other_units { (other : ℕ) → (other ≡ bidder → ⊥) → slice_index self.new.units other ≡ slice_index self.old.units other }
        ensures same_licence_units { self.new.licence_units ≡ self.old.licence_units }
    {
        let place = bidder.place();
        self.licences[place] = licences;
        self.units[place] = units;
    }

    /// Clears the licences and the units of each bidder, and nothing else.
    fn clear(&mut self)
        ensures nothing { IsNothing self.new }
        ensures same_licence_units { self.new.licence_units ≡ self.old.licence_units }
    {
        self.licences.fill(0);
        self.units.fill(0);
    }
}
