ghost use Rattle.std.specs.Prelude.{◌≡◌, ℕ, ◌+◌, ◌-◌, ◌<◌, ◌≤◌, IfOk, None, length, not, slice_index, slice_index_or, slice_set};
ghost use Rattle.hpb_rules.specs.Choices.{is_in};
ghost use Rattle.hpb_rules.specs.Saved.{has_bit};
ghost use Rattle.hpb_winners.specs.Inside.{outcome_view, IsKept};
ghost use Rattle.hpb_winners.specs.View.{OutcomeView, IsOutcome, no_bid, is_ahead, is_free, or_top, wins_of, AreParents, AreBefore};

use crate::forming::Values;
use hpb_rules::{MOST_AMOUNT, MOST_NODES, NodeId};
use hpb_tree::Tree;
use std::alloc::{AllocError, Global};
use std::marker::Model;

/// The greatest value of a node, and the greatest revenue, in whole dollars: each of `MOST_NODES` nodes adds at most
/// the greatest amount.
pub const MOST_VALUE: u64 = MOST_NODES as u64 * MOST_AMOUNT;

/// The outcome of the high bids on a tree: the values of its nodes and the winners' revenue. The winners follow from
/// the values. There is room for `MOST_NODES` nodes; only the places of the tree's nodes count.
#[derive(Debug, Drop)]
pub struct Outcome {
    pub(crate) parents: Vec<Option<NodeId>>,
    pub(crate) inside: Vec<u64>,
    pub(crate) values: Values,
    pub(crate) revenue: u64,
}

impl Model for Outcome {
    ghost Value = { OutcomeView };

    ghost view = { outcome_view };

    ghost invariant = { IsKept };
}

impl Outcome {
    /// The outcome of a tree without a bid: no winner, no revenue. Fails only if memory is refused.
    pub fn new(alloc: Global, tree: &Tree) -> Result<Outcome, AllocError>
        ensures { IfOk result (IsOutcome tree.now.nodes no_bid) }
    {
        tree.facts();
        let mut parents = vec![in alloc; None; MOST_NODES]?;
        keep_parents(tree, &mut parents);
        Ok(Outcome {
            parents,
            inside: vec![in alloc; 0; MOST_NODES]?,
            values: Values::new(alloc)?,
            revenue: 0,
        })
    }

    /// Makes this the outcome of a tree without a bid.
    pub(crate) fn restart(&mut self, tree: &Tree)
        ensures { IsOutcome tree.now.nodes no_bid self.new }
    {
        tree.facts();
        keep_parents(tree, &mut self.parents);
        self.inside.fill(0);
        self.values.clear();
        self.revenue = 0;
    }

    /// Proves what holds of all outcomes: no amount is above `MOST_VALUE`, and the winners follow from the values.
    pub fn facts(&self)
        ensures inside { (n : ℕ) → slice_index self.now.inside n ≤ MOST_VALUE }
        ensures values { (n : ℕ) → slice_index self.now.values n ≤ MOST_VALUE }
        ensures revenue { self.now.revenue ≤ MOST_VALUE }
        ensures insides { length self.now.inside ≡ MOST_NODES }
        ensures count { length self.now.values ≡ MOST_NODES }
        ensures before { AreBefore self.now.parents }
        ensures wins { self.now.wins ≡ wins_of self.now.parents self.now.inside self.now.values }
    {
        let _ = &self.revenue;
    }

    /// The sum of the values of a node's children, in whole dollars: the best revenue without its own bid.
    pub fn inside(&self, node: NodeId) -> u64
        ensures { result ≡ slice_index self.now.inside node }
    {
        let index = node.place();
        self.inside[index]
    }

    /// Whether a node's high bid wins: it exceeds the best revenue inside the node, and no node above has such a bid.
    pub fn wins(&self, node: NodeId) -> bool
        ensures { result ≡ is_in self.now.wins node }
    {
        self.facts();
        self.is_ahead(node) && self.is_free(node)
    }

    /// The nodes whose high bids win: bit n is for node n. Nodes are taken from the first to the last. A node is
    /// covered if it is ahead or its parent is covered; it wins if it is ahead and its parent isn't covered.
    pub fn winners(&self) -> u128
        ensures { (n : ℕ) → has_bit result n ≡ is_in self.now.wins n }
    {
        self.facts();
        let mut winners = 0;
        let mut covered = [false; MOST_NODES];
        // The bit of the place. It moves up by one each turn, because a shift of 128 bits by a variable takes ten
        // instructions.
        let mut bit = 1;
        for place in 0..MOST_NODES {
            let under = self.is_under(place, &covered);
            let ahead = self.is_ahead(NodeId::new(place));
            covered[place] = under || ahead;
            if ahead && !under {
                winners |= bit;
            }
            bit <<= 1;
        }
        winners
    }

    /// Whether the parent of the node at a place is flagged.
    fn is_under(&self, place: usize, flags: &[bool]) -> bool
        requires place { place < MOST_NODES }
        requires flags { length flags.now ≡ MOST_NODES }
        ensures { result ≡ not (or_top (slice_index_or self.now.parents place None) (λ parent. not (is_in flags.now parent))) }
    {
        match self.parents[place] {
            Some(parent) => flags[parent.place()],
            None => false,
        }
    }

    /// Whether a node's high bid is greater than the sum of its children's values.
    fn is_ahead(&self, node: NodeId) -> bool
        ensures value { result ≡ is_ahead self.now.inside self.now.values node }
        ensures within { node < MOST_NODES }
    {
        self.inside(node) < self.value(node)
    }

    /// Whether no node above this one has a bid that is ahead.
    fn is_free(&self, node: NodeId) -> bool
        ensures { result ≡ is_free self.now.parents (is_ahead self.now.inside self.now.values) node }
    {
        let index = node.place();
        match self.parents[index] {
            Some(parent) => !self.is_ahead(parent) && self.is_free(parent),
            None => true,
        }
    }

    /// The revenue of the winners, in whole dollars.
    pub fn revenue(&self) -> u64
        ensures value { result ≡ self.now.revenue }
    {
        self.revenue
    }

    /// Replaces a node's older value by its newer one in the sum over a node's children.
    pub(crate) fn replace_inside(&mut self, node: NodeId, older: u64, newer: u64)
        requires part { older ≤ slice_index self.old.inside node }
        requires most { slice_index self.old.inside node - older + newer ≤ MOST_VALUE }
        ensures inside { self.new.inside ≡ slice_set self.old.inside node (slice_index self.old.inside node - older + newer) }
        ensures values { self.new.values ≡ self.old.values }
        ensures formed { self.new.formed ≡ self.old.formed }
        ensures parents { self.new.parents ≡ self.old.parents }
        ensures revenue { self.new.revenue ≡ self.old.revenue }
    {
        let index = node.place();
        self.inside[index] = self.inside[index] - older + newer;
    }

    /// Replaces a top node's older value by its newer one in the revenue.
    pub(crate) fn replace_revenue(&mut self, older: u64, newer: u64)
        requires part { older ≤ self.old.revenue }
        requires most { self.old.revenue - older + newer ≤ MOST_VALUE }
        ensures revenue { self.new.revenue ≡ self.old.revenue - older + newer }
        ensures inside { self.new.inside ≡ self.old.inside }
        ensures values { self.new.values ≡ self.old.values }
        ensures formed { self.new.formed ≡ self.old.formed }
        ensures parents { self.new.parents ≡ self.old.parents }
    {
        self.revenue = self.revenue - older + newer;
    }

    /// Makes this outcome equal to another. Takes no memory.
    pub fn copy_from(&mut self, other: &Outcome)
        ensures { self.new ≡ other.now }
    {
        self.parents.copy_from_slice(other.parents.as_slice());
        self.inside.copy_from_slice(other.inside.as_slice());
        self.values.copy_from(&other.values);
        self.revenue = other.revenue;
    }

    /// A copy of the outcome. Fails only if memory is refused.
    pub fn copy(&self, alloc: Global) -> Result<Outcome, AllocError>
        ensures { IfOk result (λ outcome. outcome ≡ self.now) }
    {
        Ok(Outcome {
            parents: self.parents.to_vec(alloc)?,
            inside: self.inside.to_vec(alloc)?,
            values: self.values.copy(alloc)?,
            revenue: self.revenue,
        })
    }
}

/// Writes the parents of a tree's nodes into a table.
fn keep_parents(tree: &Tree, parents: &mut [Option<NodeId>])
    requires count { length parents.old ≡ MOST_NODES }
    requires before { AreBefore parents.old }
    ensures parents { AreParents tree.now.nodes parents.new }
    ensures before { AreBefore parents.new }
{
    tree.facts();
    let nodes = tree.nodes();
    for place in 0..nodes.len() {
        parents[place] = tree.parent(nodes[place]);
    }
}
