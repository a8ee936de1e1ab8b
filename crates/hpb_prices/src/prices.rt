ghost use Rattle.std.specs.Prelude.{◌≡◌, IfOk, slice_index};
ghost use Rattle.hpb_winners.specs.View.{no_bid};
ghost use Rattle.hpb_prices.specs.Along.{WasPriced};
ghost use Rattle.hpb_prices.specs.Inside.{prices_view, IsKept};
ghost use Rattle.hpb_prices.specs.View.{PricesView, HasMinima, HasPrices};

use crate::minimum::set_first_minima;
use hpb_money::{Dollars, Shares};
use hpb_rules::{MOST_NODES, NodeId};
use hpb_tree::Tree;
use std::alloc::{AllocError, Global};
use std::marker::Model;

/// The price of each node, and the least bid on it, all in whole dollars. There is room for `MOST_NODES` nodes; only
/// the places of the tree's nodes count.
#[derive(Debug, Drop)]
pub struct Prices {
    pub(crate) prices: Vec<Dollars>,
    pub(crate) minima: Vec<Dollars>,
    /// The shares that each package passes on to its children, while prices are found.
    pub(crate) shares: Vec<Shares>,
}

impl Model for Prices {
    ghost Value = { PricesView };

    ghost view = { prices_view };

    ghost invariant = { IsKept };
}

impl Prices {
    /// The prices of a tree without a bid: all are 0, so the least bids are the openings. Fails only if memory is
    /// refused.
    pub fn new(alloc: Global, tree: &Tree) -> Result<Prices, AllocError>
        ensures prices { IfOk result (HasPrices tree.now.nodes no_bid) }
        ensures minima { IfOk result (HasMinima tree.now no_bid) }
    {
        tree.facts();
        let prices = vec![in alloc; 0; MOST_NODES]?;
        let mut minima = vec![in alloc; 0; MOST_NODES]?;
        set_first_minima(tree, &mut minima);
        Ok(Prices {
            prices,
            minima,
            shares: vec![in alloc; Shares::none(); MOST_NODES]?,
        })
    }

    /// Makes these the prices of a tree without a bid.
    pub(crate) fn restart(&mut self, tree: &Tree)
        ensures { WasPriced tree.now self.new }
    {
        tree.facts();
        self.prices.fill(0);
        set_first_minima(tree, &mut self.minima);
    }

    /// The price of a node. For a package it is the sum over its licences.
    pub fn price(&self, node: NodeId) -> Dollars
        ensures { result ≡ slice_index self.now.prices node }
    {
        let index = node.place();
        self.prices[index]
    }

    /// The least bid on a node, a multiple of the step.
    pub fn minimum(&self, node: NodeId) -> Dollars
        ensures { result ≡ slice_index self.now.minima node }
    {
        let index = node.place();
        self.minima[index]
    }

    /// Makes these prices equal to others. Takes no memory.
    pub fn copy_from(&mut self, other: &Prices)
        ensures { self.new ≡ other.now }
    {
        self.prices.copy_from_slice(other.prices.as_slice());
        self.minima.copy_from_slice(other.minima.as_slice());
    }

    /// A copy of the prices. Fails only if memory is refused.
    pub fn copy(&self, alloc: Global) -> Result<Prices, AllocError>
        ensures { IfOk result (λ prices. prices ≡ self.now) }
    {
        Ok(Prices {
            prices: self.prices.to_vec(alloc)?,
            minima: self.minima.to_vec(alloc)?,
            shares: self.shares.to_vec(alloc)?,
        })
    }
}
