ghost use Rattle.std.specs.Prelude.{◌≡◌, ◌↔◌, ◌%◌, ◌<◌, ◌≤◌, ℕ, None, IsTrue, IfSome, length, slice_index_or};
ghost use Rattle.std.specs.List.{list_any};
ghost use Rattle.hpb_rules.specs.declared.limits.TheConstants.{MOST_AMOUNT, MOST_BIDDERS, MOST_NODES};
ghost use Rattle.hpb_rules.specs.declared.saved.SavedBidder.{SavedBidder};
ghost use Rattle.hpb_rules.specs.declared.saved.SavedNode.{SavedNode};
ghost use Rattle.hpb_rules.specs.Definitions.{IsWithin};
ghost use Rattle.hpb_rules.specs.History.{auctioneer, bidder as bidder_sender};
ghost use Rattle.hpb_rules.specs.ProperValues.{IsOfferOn};
ghost use Rattle.hpb_rules.specs.Saved.{empty_bidder, IsSavedLast, IsSaved};
ghost use Rattle.hpb_rules.specs.Tree.{opening};
ghost use Rattle.hpb_bids.specs.Entries.{AreNumbers, AreBits, IsNodeEntry, IsOwnEntry, IsBidderEntry};

use hpb_rules::{
    Accepted, BidderId, Command, MOST_AMOUNT, MOST_BIDDERS, MOST_COMMANDS, MOST_NODES, NodeId,
    Offer, Saved, SavedBidder, SavedNode,
};
use hpb_tree::Definition;

/// Whether a number is from 1 to `most`.
fn is_within(number: u32, most: u32) -> bool
    ensures { IsTrue result ↔ IsWithin 1 most number }
{
    number > 0 && number <= most
}

/// Whether stage, round and count are in their ranges.
fn are_numbers(saved: &Saved, definition: &Definition) -> bool
    ensures { IsTrue result ↔ AreNumbers definition.now saved.now }
{
    if saved.count > MOST_COMMANDS {
        return false;
    }
    if !is_within(saved.round, saved.count + 1) {
        return false;
    }
    is_within(u32::from(saved.stage), definition.stage_count() as u32)
}

/// Whether an amount is a multiple of the step, greater than 0, at least the opening and at most the greatest amount.
fn is_amount(amount: u64, step: u32, opening: u64) -> bool
    requires { 0 < step }
    ensures { IsTrue result ↔ ((amount % step ≡ 0) × (opening ≤ amount) × (0 < amount) × (amount ≤ MOST_AMOUNT)) }
{
    amount % u64::from(step) == 0 && opening <= amount && 0 < amount && amount <= MOST_AMOUNT
}

/// The opening of the node at a place.
fn opening_at(definition: &Definition, place: usize) -> u64
    requires { place < length definition.now.nodes }
    ensures { result ≡ opening definition.now.nodes place }
{
    let count = definition.node_count();
    prove!(count <= MOST_NODES);
    definition.tree().opening(NodeId::new(place))
}

/// Whether the offer on the node at a place meets the rules, or there is none.
fn is_offer(offer: &Option<Offer>, place: usize, definition: &Definition) -> bool
    ensures { IsTrue result ↔ IfSome offer.now (IsOfferOn definition.now place) }
{
    let Some(offer) = offer else {
        return true;
    };
    if place >= definition.node_count() {
        return false;
    }
    if offer.bidder.place() >= definition.bidder_count() {
        return false;
    }
    is_amount(
        offer.amount,
        definition.step(),
        opening_at(definition, place),
    )
}

/// Whether all bids meet the rules.
fn are_nodes(nodes: &[SavedNode], definition: &Definition) -> bool
    requires { length nodes.now ≤ MOST_NODES }
    ensures { IsTrue result ↔ ((n : ℕ) (d : SavedNode) → n < length nodes.now → IsNodeEntry definition.now n (slice_index_or nodes.now n d)) }
{
    for place in 0..nodes.len() {
        if !is_offer(&nodes[place].high, place, definition) {
            return false;
        }
        if !is_offer(&nodes[place].incoming, place, definition) {
            return false;
        }
    }
    true
}

/// Whether no node has an incoming bid.
fn are_quiet(nodes: &[SavedNode]) -> bool
    ensures { IsTrue result ↔ ((n : ℕ) (d : SavedNode) → n < length nodes.now → (slice_index_or nodes.now n d).incoming ≡ None) }
{
    for place in 0..nodes.len() {
        if nodes[place].incoming.is_some() {
            return false;
        }
    }
    true
}

/// Whether a bidder waived.
fn has_waiver(bidders: &[SavedBidder]) -> bool
    ensures { result ≡ list_any (λ (bidder : SavedBidder). bidder.has_waived) bidders.now }
{
    bidders.iter().any(|bidder| bidder.has_waived)
}

/// Whether the last command can be the auctioneer's, or there is none.
fn is_auctioneers(last: &Option<Accepted>, count: u32, definition: &Definition) -> bool
    ensures { IsTrue result ↔ IfSome last.now (IsSavedLast definition.now count auctioneer) }
{
    let Some(last) = last else {
        return true;
    };
    match last.command {
        Command::Bid { .. } | Command::Waive { .. } => false,
        Command::Close { ticket } | Command::Stage { ticket } => {
            is_within(ticket, count) && is_within(last.number, count)
        }
    }
}

/// Whether the last command can be that of the bidder at a place, or there is none.
fn is_bidders(last: &Option<Accepted>, place: usize, count: u32, definition: &Definition) -> bool
    requires { place < length definition.now.bidders }
    ensures { IsTrue result ↔ IfSome last.now (IsSavedLast definition.now count (bidder_sender place)) }
{
    let Some(last) = last else {
        return true;
    };
    match last.command {
        Command::Bid {
            bidder,
            ticket,
            node,
            ..
        } => {
            bidder.place() == place
                && node.place() < definition.node_count()
                && is_within(ticket, count)
                && is_within(last.number, count)
        }
        Command::Waive { bidder, ticket } => {
            bidder.place() == place && is_within(ticket, count) && is_within(last.number, count)
        }
        Command::Close { .. } | Command::Stage { .. } => false,
    }
}

/// Whether each bit names a node that has an incoming bid.
fn are_bits(mask: u128, nodes: &[SavedNode]) -> bool
    ensures { IsTrue result ↔ AreBits nodes.now mask }
{
    for place in 0..128 {
        if (mask >> place) & 1 == 1 {
            if place >= nodes.len() {
                return false;
            }
            if nodes[place].incoming.is_none() {
                return false;
            }
        }
    }
    true
}

/// Whether the entry of a bidder of the definition is in order.
fn is_own(
    entry: &SavedBidder,
    place: usize,
    count: u32,
    nodes: &[SavedNode],
    definition: &Definition,
) -> bool
    requires place { place < length definition.now.bidders }
    ensures { IsTrue result ↔ IsOwnEntry definition.now count nodes.now place entry.now }
{
    let bidders = definition.bidder_count();
    prove!(bidders <= MOST_BIDDERS);
    if entry.eligibility > definition.bidder_units(BidderId::new(place)) {
        return false;
    }
    if !is_bidders(&entry.last, place, count, definition) {
        return false;
    }
    if entry.waivers > definition.waivers() {
        return false;
    }
    if entry.has_waived && entry.waivers == definition.waivers() {
        return false;
    }
    are_bits(entry.bid_on, nodes)
}

/// Whether a bidder's entry is empty.
fn is_empty(entry: &SavedBidder) -> bool
    ensures { IsTrue result ↔ (entry.now ≡ empty_bidder) }
{
    entry.eligibility == 0
        && entry.last.is_none()
        && entry.bid_on == 0
        && entry.waivers == 0
        && !entry.has_waived
}

/// Whether the entries of all bidders are in order, and those behind the definition's bidders are empty.
fn are_bidders(
    bidders: &[SavedBidder],
    count: u32,
    nodes: &[SavedNode],
    definition: &Definition,
) -> bool
    requires { length bidders.now ≤ MOST_BIDDERS }
    ensures { IsTrue result ↔ ((b : ℕ) (d : SavedBidder) → b < length bidders.now → IsBidderEntry definition.now count nodes.now b (slice_index_or bidders.now b d)) }
{
    for place in 0..bidders.len() {
        if !is_bidder(&bidders[place], place, count, nodes, definition) {
            return false;
        }
    }
    true
}

/// Whether the entry of the bidder at a place is in order.
fn is_bidder(
    entry: &SavedBidder,
    place: usize,
    count: u32,
    nodes: &[SavedNode],
    definition: &Definition,
) -> bool
    ensures { IsTrue result ↔ IsBidderEntry definition.now count nodes.now place entry.now }
{
    if place < definition.bidder_count() {
        is_own(entry, place, count, nodes, definition)
    } else {
        is_empty(entry)
    }
}

/// Whether a saved auction may be restored under the definition.
pub fn is_saved(saved: &Saved, definition: &Definition) -> bool
    ensures found { IsTrue result → IsSaved definition.now saved.now }
    ensures only { IsSaved definition.now saved.now → IsTrue result }
{
    if !are_numbers(saved, definition) {
        return false;
    }
    if !is_auctioneers(&saved.auctioneer, saved.count, definition) {
        return false;
    }
    if !are_nodes(&saved.nodes, definition) {
        return false;
    }
    if !are_bidders(&saved.bidders, saved.count, &saved.nodes, definition) {
        return false;
    }
    if !saved.over {
        return true;
    }
    if has_waiver(&saved.bidders) {
        return false;
    }
    are_quiet(&saved.nodes)
}
