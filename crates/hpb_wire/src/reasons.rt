ghost use Rattle.std.specs.Prelude.{◌≡◌, option_map};
ghost use Rattle.hpb_rules.specs.Rounds.{sender_of};
ghost use Rattle.hpb_wire.specs.Reasons.{known_reason, least_of, reason_in, text_of, ticket_text, units_of, AreKnown};

use crate::senders::{is_known, next_of_auctioneer, next_of_bidder};
use hpb_auction::Auction;
use hpb_rules::{BidderId, Command, MOST_AMOUNT, Refusal};
use std::fmt;

/// The number that would do in place of a refused one.
#[derive(Clone, Copy, Debug, PartialEq, Eq)]
pub enum Reason<'a> {
    /// For 13 `old`, 14 `ticket` and 15 `gap`: a bidder's next ticket.
    BidderTicket {
        bidder: &'a str,
        ticket: u64,
    },
    /// For 13 `old`, 14 `ticket` and 15 `gap`: the auctioneer's next ticket.
    AuctioneerTicket {
        ticket: u64,
    },
    /// For 21 `step`: the step, in whole dollars.
    Step {
        dollars: u32,
    },
    /// For 22 `low`: the least amount that may be bid on a node, in whole dollars.
    Least {
        node: &'a str,
        dollars: u64,
    },
    /// For 23 `high`: the greatest amount that may be bid, in whole dollars.
    Most {
        dollars: u64,
    },
    /// For 25 `eligibility`: a bidder's eligibility, and its activity without the bid, in bidding units.
    Units {
        bidder: &'a str,
        eligibility: u32,
        activity: u32,
    },
}

impl fmt::Display for Reason<'_> {
    ghost use Rattle.std.specs.Prelude.{Some};

    ghost output = { λ r. Some (text_of r) };

    fn fmt<W: fmt::Write>(&self, f: &mut fmt::Formatter<W>) -> fmt::Result {
        match *self {
            Reason::BidderTicket { bidder, ticket } => {
                write!(f, "the next ticket of {bidder} is {ticket}")
            }
            Reason::AuctioneerTicket { ticket } => {
                write!(f, "the next ticket of the auctioneer is {ticket}")
            }
            Reason::Step { dollars } => write!(f, "an amount is a multiple of {dollars} dollars"),
            Reason::Least { node, dollars } => {
                write!(
                    f,
                    "the least that may be bid on {node} is {dollars} dollars"
                )
            }
            Reason::Most { dollars } => {
                write!(f, "the most that may be bid is {dollars} dollars")
            }
            Reason::Units {
                bidder,
                eligibility,
                activity,
            } => write!(
                f,
                "{bidder} is eligible for {eligibility} bidding units, and active on {activity} without this bid"
            ),
        }
    }
}

/// The number that would do in place of the one for which a command is refused, by the auction as it stands:
///
/// - for 13 `old`, 14 `ticket` and 15 `gap` the sender's next ticket;
/// - for 21 `step` the step, for 22 `low` the least amount, for 23 `high` the greatest;
/// - for 25 `eligibility` the bidder's eligibility with its activity.
///
/// `None` for any other refusal, and if the definition doesn't have the command's bidder or node.
pub fn reason_of<'a>(
    auction: &'a Auction,
    command: &Command,
    refusal: Refusal,
) -> Option<Reason<'a>>
    ensures { option_map text_of result ≡ reason_in auction.now command.now refusal }
{
    if is_known(auction.definition(), command) {
        known_reason(auction, command, refusal)
    } else {
        None
    }
}

/// The same for a command whose bidder and node the definition has.
fn known_reason<'a>(auction: &'a Auction, command: &Command, refusal: Refusal) -> Option<Reason<'a>>
    requires { AreKnown auction.now.rules command.now }
    ensures { option_map text_of result ≡ known_reason auction.now command.now refusal }
{
    match refusal {
        Refusal::Old | Refusal::Ticket | Refusal::Gap => Some(next_ticket(auction, command)),
        Refusal::Step => Some(Reason::Step {
            dollars: auction.definition().step(),
        }),
        Refusal::Low => least_of(auction, command),
        Refusal::High => Some(Reason::Most {
            dollars: MOST_AMOUNT,
        }),
        Refusal::Eligibility => units_of(auction, command),
        _ => None,
    }
}

/// The next ticket of a command's sender.
fn next_ticket<'a>(auction: &'a Auction, command: &Command) -> Reason<'a>
    requires { AreKnown auction.now.rules command.now }
    ensures { text_of result ≡ ticket_text auction.now (sender_of command.now) }
{
    match *command {
        Command::Bid { bidder, .. } | Command::Waive { bidder, .. } => Reason::BidderTicket {
            bidder: auction.definition().bidder_name(bidder),
            ticket: next_of_bidder(auction, bidder),
        },
        Command::Close { .. } | Command::Stage { .. } => Reason::AuctioneerTicket {
            ticket: next_of_auctioneer(auction),
        },
    }
}

/// The least amount that may be bid on a bid's node.
fn least_of<'a>(auction: &'a Auction, command: &Command) -> Option<Reason<'a>>
    requires { AreKnown auction.now.rules command.now }
    ensures { option_map text_of result ≡ least_of auction.now command.now }
{
    match *command {
        Command::Bid { node, .. } => Some(Reason::Least {
            node: auction.definition().name(node),
            dollars: auction.node_view(node).minimum,
        }),
        _ => None,
    }
}

/// The bidding units of a bid's bidder.
fn units_of<'a>(auction: &'a Auction, command: &Command) -> Option<Reason<'a>>
    requires { AreKnown auction.now.rules command.now }
    ensures { option_map text_of result ≡ units_of auction.now command.now }
{
    match *command {
        Command::Bid { bidder, .. } => {
            let view = auction.bidder_view(bidder);
            Some(Reason::Units {
                bidder: auction.definition().bidder_name(bidder),
                eligibility: view.eligibility,
                activity: view.activity,
            })
        }
        _ => None,
    }
}
