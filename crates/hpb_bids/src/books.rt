ghost use Rattle.std.specs.Prelude.{ℕ, List, [], ◌∷◌, ◌≡◌, ◌≤◌, ◌↔◌, ◌==◌, ◌&&◌, ◌||◌, if◌then◌else◌, Some, None, IsTrue, IfOk, IfSome, slice_index, slice_set};
ghost use Rattle.hpb_rules.specs.declared.command.Command.{Command};
ghost use Rattle.hpb_rules.specs.declared.command.Command.TheVariants.{Bid, Close};
ghost use Rattle.hpb_rules.specs.History.{amount_of, greater};
ghost use Rattle.hpb_bids.specs.View.{offer_at, bid_of, no_bid, has_bid, placed, folded, AreChanged, IsBooks, IsQuiet, IsEmpty};
ghost use Rattle.hpb_bids.specs.Past.{AreBooksOf};

use hpb_rules::{BidderId, MOST_AMOUNT, MOST_BIDDERS, MOST_NODES, NodeId, Offer};
use hpb_tree::Tree;
use std::alloc::{AllocError, Global};
use std::marker::Model;

/// The bids on one node: the high bid of closed rounds, and the greatest of the open round.
#[derive(Clone, Copy, Debug)]
pub(crate) struct NodeBids {
    pub(crate) standing: Option<Offer>,
    pub(crate) incoming: Option<Offer>,
}

/// The bids of an auction. Amounts are whole dollars, at most `MOST_AMOUNT`.
#[derive(Debug, Drop)]
pub struct Books {
    pub(crate) nodes: Vec<NodeBids>,
    /// For each bidder a mask of the nodes on which it bid in the open round: bit n is for node n.
    pub(crate) bids: Vec<u128>,
}

impl NodeBids {
    ghost use Rattle.hpb_bids.specs.Inside.{received, closed, is_raised};

    /// Takes a bid in the open round. It becomes the round's best bid if it is greater than that.
    #[inline(always)]
    fn receive(&mut self, offer: Offer)
        ensures { self.new ≡ received self.old offer }
    {
        if amount_or_zero(&self.incoming) < offer.amount {
            self.incoming = Some(offer);
        }
    }

    /// Closes the round: its best bid becomes the standing bid if it is greater than that.
    fn close(&mut self)
        ensures { self.new ≡ closed self.old }
    {
        let incoming = self.incoming.take();
        if amount_or_zero(&self.standing) < amount_or_zero(&incoming) {
            self.standing = incoming;
        }
    }

    /// Whether the round's best bid is greater than the standing one, so that a close changes the high bid.
    fn is_raised(&self) -> bool
        ensures { result ≡ is_raised self.now }
    {
        amount_or_zero(&self.standing) < amount_or_zero(&self.incoming)
    }

    /// Closes the round, and returns whether the high bid changed. A node without a bid in the round isn't written.
    fn fold(&mut self) -> bool
        ensures closed { self.new ≡ closed self.old }
        ensures raised { result ≡ is_raised self.old }
    {
        if self.incoming.is_none() {
            return false;
        }
        let raised = self.is_raised();
        self.close();
        raised
    }
}

impl Model for Books {
    ghost use Rattle.hpb_bids.specs.View.{BooksView};

    ghost Value = { BooksView };

    ghost use Rattle.hpb_bids.specs.Inside.{books_view, IsKept};

    ghost view = { books_view };

    ghost invariant = { IsKept };
}

impl Books {
    /// Books without a bid, for any auction on the tree. Fails only if memory is refused.
    pub fn new(alloc: Global, _tree: &Tree) -> Result<Books, AllocError>
        ensures empty { IfOk result IsEmpty }
        ensures high { IfOk result (λ books. bid_of books ≡ no_bid) }
        ensures history { IfOk result (λ books. AreBooksOf books []) }
    {
        let none = NodeBids {
            standing: None,
            incoming: None,
        };
        Ok(Books {
            nodes: vec![in alloc; none; MOST_NODES]?,
            bids: vec![in alloc; 0; MOST_BIDDERS]?,
        })
    }

    /// A copy of the books. Fails only if memory is refused.
    pub fn copy(&self, alloc: Global) -> Result<Books, AllocError>
        ensures { IfOk result (λ books. books ≡ self.now) }
    {
        Ok(Books {
            nodes: self.nodes.as_slice().to_vec(alloc)?,
            bids: self.bids.as_slice().to_vec(alloc)?,
        })
    }

    /// Makes these books equal to others. Takes no memory.
    pub fn copy_from(&mut self, other: &Books)
        ensures { self.new ≡ other.now }
    {
        self.nodes.copy_from_slice(other.nodes.as_slice());
        self.bids.copy_from_slice(other.bids.as_slice());
    }

    /// Proves what holds of all books: their tables have their sizes, and no bid is above `MOST_AMOUNT`.
    pub fn facts(&self)
        ensures { IsBooks self.now }
    {
        let _ = &self.nodes;
    }

    /// The high bid of a node, from closed rounds.
    pub fn standing(&self, node: NodeId) -> Option<Offer>
        ensures value { result ≡ offer_at self.now.standing node }
    {
        self.nodes[node.place()].standing
    }

    /// The greatest bid on a node in the open round. If several are equal, it is the first of them.
    pub fn incoming(&self, node: NodeId) -> Option<Offer>
        ensures value { result ≡ offer_at self.now.incoming node }
    {
        self.nodes[node.place()].incoming
    }

    /// The nodes on which a bidder bid in the open round: bit n is for node n.
    #[inline(always)]
    pub fn bid_on(&self, bidder: BidderId) -> u128
        ensures { result ≡ slice_index self.now.bids bidder }
    {
        self.bids[bidder.place()]
    }

    /// Whether a bidder bid on a node in the open round.
    #[inline(always)]
    pub fn has_bid_on(&self, bidder: BidderId, node: NodeId) -> bool
        ensures { result ≡ has_bid self.now bidder node }
    {
        (self.bid_on(bidder) >> node.place()) & 1 == 1
    }

    /// Whether nobody bid in the open round.
    pub fn is_quiet(&self) -> bool
        ensures { IsTrue result ↔ IsQuiet self.now }
    {
        self.bids.iter().all(|nodes| *nodes == 0)
    }

    /// Takes a bid in the open round. It becomes the node's best bid of the round if it is greater than that.
    #[inline(always)]
    pub fn place(&mut self, bidder: BidderId, node: NodeId, amount: u64)
        requires { amount ≤ MOST_AMOUNT }
        ensures value { self.new ≡ placed self.old bidder node amount }
        ensures incoming { (n : ℕ) → offer_at self.new.incoming n ≡ (if node == n then greater (offer_at self.old.incoming n) (Some (record { amount = amount; bidder = bidder })) else offer_at self.old.incoming n) }
        ensures bids { (b n : ℕ) → has_bid self.new b n ≡ (((bidder == b) && (node == n)) || has_bid self.old b n) }
        ensures history { (past : List Command) (t : ℕ) → AreBooksOf self.old past → AreBooksOf self.new (Bid bidder t node amount ∷ past) }
    {
        let index = node.place();
        self.nodes[index].receive(Offer { amount, bidder });
        self.bids[bidder.place()] |= 1 << index;
    }

    /// Closes the round: its bids count from now on, and the next round has no bid. Returns the nodes whose high bid
    /// changed: bit n is for node n.
    pub fn fold_round(&mut self) -> u128
        ensures changed { AreChanged self.old self.new result }
        ensures value { self.new ≡ folded self.old }
        ensures standing { (n : ℕ) → offer_at self.new.standing n ≡ greater (offer_at self.old.standing n) (offer_at self.old.incoming n) }
        ensures incoming { (n : ℕ) → offer_at self.new.incoming n ≡ None }
        ensures quiet { IsQuiet self.new }
        ensures history { (past : List Command) (t : ℕ) → AreBooksOf self.old past → AreBooksOf self.new (Close t ∷ past) }
    {
        let mut changed = 0;
        for (place, bids) in self.nodes.iter_mut().enumerate() {
            if bids.fold() {
                changed |= 1 << place;
            }
        }
        self.bids.fill(0);
        changed
    }

    /// Sets the bids on a node, and nothing else.
    pub fn set_node(&mut self, node: NodeId, standing: Option<Offer>, incoming: Option<Offer>)
        requires standing { IfSome standing (λ o. o.amount ≤ MOST_AMOUNT) }
        requires incoming { IfSome incoming (λ o. o.amount ≤ MOST_AMOUNT) }
        ensures { self.new ≡ record { standing = slice_set self.old.standing node standing; incoming = slice_set self.old.incoming node incoming; bids = self.old.bids } }
    {
        self.nodes[node.place()] = NodeBids { standing, incoming };
    }

    /// Sets the nodes on which a bidder bid in the open round, and nothing else.
    pub fn set_bids(&mut self, bidder: BidderId, mask: u128)
        ensures { self.new ≡ record self.old { bids = slice_set self.old.bids bidder mask } }
    {
        self.bids[bidder.place()] = mask;
    }
}

/// An offer's amount, or 0 if there is none.
fn amount_or_zero(offer: &Option<Offer>) -> u64
    ensures { result ≡ amount_of offer.now }
{
    match offer {
        Some(offer) => offer.amount,
        None => 0,
    }
}
