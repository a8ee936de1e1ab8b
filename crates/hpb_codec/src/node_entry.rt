//! The entry of a node in a state.
ghost use Rattle.std.specs.Prelude.{◌≡◌, ◌≤◌, ◌<◌, ◌+◌, ◌++◌, Option, Some, IfSome, length};
ghost use Rattle.hpb_rules.specs.declared.command.Offer.{Offer};
ghost use Rattle.hpb_rules.specs.declared.limits.TheConstants.{MOST_BIDDERS};
ghost use Rattle.hpb_rules.specs.declared.saved.SavedNode.{SavedNode};
ghost use Rattle.hpb_codec.specs.Numbers.{before};
ghost use Rattle.hpb_codec.specs.NodeEntries.{amount_or_zero, bidder_or_zero, node_entry, node_sized, HasAmounts, HasBid, HasNodeEntry, SpellsNode};

use crate::reader::{front_u8, front_u64, is_same};
use crate::table::Entry;
use crate::writer::{put_u8, put_u64, put_zeros};
use hpb_rules::{BidderId, MOST_BIDDERS, Offer, SavedNode};

/// How many bytes the entry of a node has.
pub(crate) const NODE_SIZE: usize = 24;

/// The amount and the bidder of a bid, both 0 if there is none.
fn said(bid: &Option<Offer>) -> (u64, u8)
    ensures amount { result.0 ≡ amount_or_zero bid.now }
    ensures bidder { result.1 ≡ bidder_or_zero bid.now }
    ensures bound { result.1 < MOST_BIDDERS }
{
    match bid {
        None => (0, 0),
        Some(offer) => (offer.amount, offer.bidder.place() as u8),
    }
}

/// The only bid that an amount and a bidder may spell, if there can be one. It is none if the amount is 0.
fn bid_of(amount: u64, bidder: u8) -> Option<Option<Offer>>
    ensures is { IfSome result HasBid }
    ensures only { (bid : Option Offer) → HasBid bid → amount ≡ amount_or_zero bid → bidder ≡ bidder_or_zero bid → result ≡ Some bid }
{
    if amount == 0 {
        return Some(None);
    }
    let bidder = usize::from(bidder);
    if bidder >= MOST_BIDDERS {
        return None;
    }
    Some(Some(Offer {
        amount,
        bidder: BidderId::new(bidder),
    }))
}

/// The only node whose entry the bytes may be, if there can be one.
#[tactic(auto, using(crate::proofs::Numbers::fields))]
fn candidate(bytes: &[u8]) -> Option<SavedNode>
    requires { length bytes.now ≡ 24 }
    ensures is { IfSome result HasNodeEntry }
    ensures only { (node : SavedNode) → SpellsNode bytes.now node → result ≡ Some node }
{
    let (high_amount, rest) = front_u64(bytes);
    let (incoming_amount, rest) = front_u64(rest);
    let (high_bidder, rest) = front_u8(rest);
    let (incoming_bidder, _) = front_u8(rest);
    Some(SavedNode {
        high: bid_of(high_amount, high_bidder)?,
        incoming: bid_of(incoming_amount, incoming_bidder)?,
    })
}

impl Entry for SavedNode {
    const SIZE: usize = NODE_SIZE;

    ghost SIZE = { 24 };

    ghost spelling = { node_entry };

    ghost fits = { HasNodeEntry };

    ghost sound = { HasAmounts };

    fn put(&self, out: &mut [u8], at: usize) -> usize {
        let (high_amount, high_bidder) = said(&self.high);
        let (incoming_amount, incoming_bidder) = said(&self.incoming);
        let at = put_u64(out, at, high_amount);
        let at = put_u64(out, at, incoming_amount);
        let at = put_u8(out, at, high_bidder);
        let at = put_u8(out, at, incoming_bidder);
        put_zeros(out, at, 6)
    }

    #[tactic(auto, using(crate::proofs::Numbers::whole))]
    fn read(bytes: &[u8]) -> Option<Self> {
        let node = candidate(bytes)?;
        let mut spelled = [0; NODE_SIZE];
        node.put(&mut spelled, 0);
        if is_same(&spelled, bytes) {
            Some(node)
        } else {
            None
        }
    }

    ghost sized = { node_sized };
}
