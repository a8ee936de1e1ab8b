//! Letters to offer, and answers to them, in the auction of six nodes and four bidders.
ghost use Rattle.std.specs.Prelude.{◌≡◌, ◌+◌, ◌<◌};
ghost use Rattle.hpb_rules.specs.declared.command.Command.TheVariants as commands;
ghost use Rattle.hpb_rules.specs.declared.limits.TheConstants.{MOST_COMMANDS};
ghost use Rattle.hpb_rules.specs.declared.reply.Reply.TheVariants as replies;
ghost use Rattle.hpb_test_engine.specs.Places.{bidder_place, node_place, auctioneer_seat};

use hpb_rules::{Answer, BidderId, Command, Letter, Letters, NodeId, Refusal, Reply};

/// A bidder.
#[derive(Clone, Copy, Debug, PartialEq, Eq)]
pub enum Bidder {
    X,
    Y,
    Z,
    W,
}

impl Bidder {
    ghost use Rattle.std.specs.Prelude.{◌≡◌, ◌<◌};
    ghost use Rattle.hpb_test_engine.specs.Places.{bidder_place};

    /// Its place in the definition.
    pub fn place(self) -> usize
        ensures value { result ≡ bidder_place self }
        ensures bound { result < 4 }
    {
        match self {
            Bidder::X => 0,
            Bidder::Y => 1,
            Bidder::Z => 2,
            Bidder::W => 3,
        }
    }
}

/// A node.
#[derive(Clone, Copy, Debug, PartialEq, Eq)]
pub enum Node {
    All,
    East,
    A,
    B,
    C,
    D,
}

impl Node {
    ghost use Rattle.std.specs.Prelude.{◌≡◌, ◌<◌};
    ghost use Rattle.hpb_test_engine.specs.Places.{node_place};

    /// Its place in the definition.
    pub fn place(self) -> usize
        ensures value { result ≡ node_place self }
        ensures bound { result < 6 }
    {
        match self {
            Node::All => 0,
            Node::East => 1,
            Node::A => 2,
            Node::B => 3,
            Node::C => 4,
            Node::D => 5,
        }
    }
}

/// The auctioneer's seat.
const AUCTIONEER: u8 = 33;

/// A bid. Its seat is its bidder's place.
pub fn bid(bidder: Bidder, ticket: u32, node: Node, amount: u64) -> Letter
    ensures seat { result.seat ≡ bidder_place bidder }
    ensures command { result.command ≡ commands.Bid (bidder_place bidder) ticket (node_place node) amount }
{
    let (bidder, node) = (bidder.place(), node.place());
    Letter {
        seat: bidder as u8,
        command: Command::Bid {
            bidder: BidderId::new(bidder),
            ticket,
            node: NodeId::new(node),
            amount,
        },
    }
}

/// The end of a round.
pub fn close(ticket: u32) -> Letter
    ensures seat { result.seat ≡ auctioneer_seat }
    ensures command { result.command ≡ commands.Close ticket }
{
    Letter {
        seat: AUCTIONEER,
        command: Command::Close { ticket },
    }
}

/// The next stage.
pub fn stage(ticket: u32) -> Letter
    ensures seat { result.seat ≡ auctioneer_seat }
    ensures command { result.command ≡ commands.Stage ticket }
{
    Letter {
        seat: AUCTIONEER,
        command: Command::Stage { ticket },
    }
}

/// Bids of x on the licence a: one in each of 32 rounds, twice the one before, and then the close of the round. This is
/// the one at this place.
pub fn in_round(place: u32) -> Letter {
    let before = (place / 2).min(31);
    if place % 2 == 0 {
        bid(Bidder::X, before + 1, Node::A, 100 << before)
    } else {
        close(before + 1)
    }
}

/// The bids of three bidders and the close of the first round.
pub fn four() -> [Letter; 4] {
    [
        bid(Bidder::X, 1, Node::A, 100),
        bid(Bidder::Y, 1, Node::B, 150),
        bid(Bidder::W, 1, Node::C, 100),
        close(1),
    ]
}

/// The command after `count` others: bids of x and closes, round by round. These four are the first.
pub fn after_four(count: u32) -> Letter {
    in_round(count.saturating_sub(2))
}

/// Letters in this order, as many as there is room for.
pub fn list_of(items: &[Letter]) -> Letters {
    let mut letters = Letters::new();
    for item in items {
        let _ = letters.push(*item);
    }
    letters
}

/// One letter.
pub fn one(letter: Letter) -> Letters {
    list_of(&[letter])
}

/// Two letters.
pub fn two(first: Letter, second: Letter) -> Letters {
    list_of(&[first, second])
}

/// The answer to a letter that is accepted as the next after `at` commands.
pub fn accepted(letter: Letter, at: u32) -> Answer
    ensures letter { result.letter ≡ letter }
    ensures at { result.at ≡ at }
    ensures reply { at < MOST_COMMANDS → result.reply ≡ replies.Ok (at + 1) }
{
    Answer {
        letter,
        at,
        reply: Reply::Ok(at.saturating_add(1)),
    }
}

/// The answer to a letter that is refused after `at` commands.
pub fn refused(letter: Letter, at: u32, refusal: Refusal) -> Answer
    ensures { result ≡ record { letter = letter; at = at; reply = replies.Refused refusal } }
{
    Answer {
        letter,
        at,
        reply: Reply::Refused(refusal),
    }
}
