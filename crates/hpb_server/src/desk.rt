ghost use Rattle.std.specs.Prelude.{◌≡◌, ◌<◌, ◌≤◌, true, false, length, IfOk, IfSome, OnErr};
ghost use Rattle.std.specs.Borrow.{sem};
ghost use Rattle.std.specs.Io.BufRead.{Rests};

use hpb_auction::Auction;
use hpb_rules::{Command, Commands, Refusal, Replies, Reply};
use hpb_tree::Definition;
use std::alloc::{AllocError, Global};
use std::marker::Model;

/// The desk that a session asks. `ScriptDesk` is the auction of a script.
///
/// Commands that have come may be asked together; they are judged one after another all the same.
///
/// The replies and auctions of a desk are described by its states (`is_at`) and by its ways over these (`ways`). A desk
/// may have no known state.
pub trait Desk {
    ghost use Rattle.std.specs.Prelude.{Bool};
    ghost use Rattle.hpb_rules.specs.Tree.{Rules};
    ghost use Rattle.hpb_server.specs.Desk.{seen, AsksAll, HasPlaces};
    ghost use Rattle.hpb_server.specs.Ways.{Ways};

    /// The states of a desk, in the contracts of a session.
    ghost State: { Type 0 };

    /// The rules of the definition.
    ghost rules: { Self → Rules };

    /// The session is over: its desk is asked nothing more.
    ghost over: { Self → Bool };

    /// The desk has this state.
    ghost is_at: { Self → State → Type 0 };

    /// What the desk may reply and show at each state, and which state follows.
    ghost ways: { Ways State };

    /// The definition that lines are read by.
    fn definition(&self) -> &Definition
        ensures { result.now ≡ rules self.now };

    /// Whether the last reply ended the session, so that nothing more is read or answered.
    fn is_over(&self) -> bool
        ensures { result ≡ over self.now };

    /// How many commands are asked together, if that many have come.
    fn most_asked(&self) -> usize
        ensures some { 0 < result }
        ensures most { result ≤ ways.most };

    /// Whether asking takes a wait, as for a commit. If so, earlier answers are written first.
    fn waits_when_asked(&self) -> bool
        ensures { result ≡ ways.waits };

    /// Asks for commands together, and returns the reply to each, up to the one that ends the session. If memory is
    /// refused, none is asked.
    fn ask(&mut self, alloc: Global, commands: &Commands) -> Result<Replies, AllocError>
        requires some { 0 < length commands.now }
        requires most { length commands.now ≤ ways.most }
        ensures asked { (state : State) → is_at self.old state → IfOk result (λ replies. (next : State) × AsksAll ways state commands.now replies next × is_at self.new next) }
        ensures kept { (state : State) → is_at self.old state → OnErr result (is_at self.new state) }
        ensures refused { OnErr result (ways.takes_memory ≡ true) }
        ensures rules { rules self.new ≡ rules self.old };

    /// Asks for one command, and returns its reply. If memory is refused, it isn't asked.
    ///
    /// A desk that is asked for one command at a time overrides this, so that no lists are needed.
    fn ask_one(&mut self, alloc: Global, command: &Command) -> Result<Reply, AllocError>
        requires goes_on { over self.old ≡ false }
        ensures asked { (state : State) → is_at self.old state → IfOk result (λ reply. (next : State) × ways.asks state command.now reply next × is_at self.new next) }
        ensures kept { (state : State) → is_at self.old state → OnErr result (is_at self.new state) }
        ensures refused { OnErr result (ways.takes_memory ≡ true) }
        ensures rules { rules self.new ≡ rules self.old }
    {
        let mut commands = Commands::new();
        let _ = commands.push(*command);
        let replies = self.ask(alloc, &commands)?;
        Ok(replies.get(0).unwrap_or(Reply::Refused(Refusal::Failed)))
    }

    /// Does work that could wait until the answers were written.
    fn upkeep(&mut self, alloc: Global) -> Result<(), AllocError>
        ensures kept { (state : State) → is_at self.old state → is_at self.new state }
        ensures refused { OnErr result (ways.takes_memory ≡ true) }
        ensures over { over self.new ≡ over self.old }
        ensures rules { rules self.new ≡ rules self.old };

    /// The auction as it stands, if the desk can still show one. It has as many nodes and bidders as the definition.
    fn look(&mut self) -> Option<&Auction>
        ensures shown { IfSome result (λ a. HasPlaces (rules self.old) a.now.rules) }
        ensures* after { sem 𝓛 (Rests Self.row self.entry (λ new. ((state : State) → is_at self.old state → (next : State) × ways.looks state (seen result) next × is_at new next) × (rules new ≡ rules self.old))) };

    /// Each state of the desk has the desk's definition.
    ghost rules_are: { (desk : Self) (state : State) → is_at desk state → ways.rules state ≡ rules desk };

    /// Each state of the desk says whether the session is over.
    ghost over_is: { (desk : Self) (state : State) → is_at desk state → ways.over state ≡ over desk };
}

/// The desk of an auction in memory.
#[derive(Drop)]
pub struct ScriptDesk {
    auction: Auction,
}

impl Model for ScriptDesk {
    ghost use Rattle.hpb_rules.specs.AuctionValue.{AuctionValue};

    ghost Value = { AuctionValue };

    ghost view = { λ d. d.auction };
}

impl ScriptDesk {
    /// A desk that asks the auction itself.
    pub fn new(auction: Auction) -> Self
        ensures { result ≡ auction }
    {
        ScriptDesk { auction }
    }

    /// The auction, with all that was accepted here.
    pub fn into_auction(self) -> Auction
        ensures { result ≡ self }
    {
        self.auction
    }
}

impl Desk for ScriptDesk {
    ghost use Rattle.hpb_rules.specs.AuctionValue.{AuctionValue};
    ghost use Rattle.hpb_server.specs.AuctionDesk.{auction_over, auction_rules, auction_ways};
    ghost use Rattle.hpb_server.specs.Desk.{never_over, rules_in, IsItself};

    ghost State = { AuctionValue };

    ghost rules = { rules_in };

    ghost over = { never_over };

    ghost is_at = { IsItself };

    ghost ways = { auction_ways };

    ghost rules_are = { auction_rules };

    ghost over_is = { auction_over };

    fn definition(&self) -> &Definition {
        self.auction.definition()
    }

    fn is_over(&self) -> bool {
        false
    }

    fn most_asked(&self) -> usize {
        1
    }

    fn waits_when_asked(&self) -> bool {
        false
    }

    fn ask(&mut self, _alloc: Global, commands: &Commands) -> Result<Replies, AllocError> {
        let mut replies = Replies::new();
        for command in commands.as_slice() {
            let _ = replies.push(self.auction.apply(command));
        }
        Ok(replies)
    }

    fn ask_one(&mut self, _alloc: Global, command: &Command) -> Result<Reply, AllocError> {
        Ok(self.auction.apply(command))
    }

    fn upkeep(&mut self, _alloc: Global) -> Result<(), AllocError> {
        Ok(())
    }

    fn look(&mut self) -> Option<&Auction> {
        Some(&self.auction)
    }
}
