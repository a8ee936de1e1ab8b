//! The desk of a session on a house.
ghost use Rattle.std.specs.Prelude.{◌≡◌, [], None, Some, true, ◌⊎◌};
ghost use Rattle.hpb_serve.specs.declared.stop.Stop.TheVariants.{Halted, Order};
ghost use Rattle.hpb_serve.specs.Stops.{IsInOrder};

use crate::asking::{ask_client, refuse_later};
use crate::end::SessionEnd;
use crate::session::finish_client;
use crate::stop::Stop;
use hpb_auction::Auction;
use hpb_rings::Client;
use hpb_rules::{Commands, MOST_WAITING, Replies};
use hpb_server::Desk;
use hpb_tree::Definition;
use std::alloc::{AllocError, Global};
use std::sync::Wait;

/// The desk of a session on a house. It posts up to 16 commands that have come together, as letters of its client's
/// seat, and then waits for their answers in order.
///
/// The state of a desk is relative to the history that its client's viewer opened. A command's reply is the answer to
/// its letter. The answer fits the auction that the viewer then shows, and was judged after all that the session has
/// reported.
///
/// Two things end such replies, from a first command on:
/// - 93 `failed`: the client is halted, and one more look finds no answer;
/// - 95 `order`: an answer comes that isn't the one that it waits for. It ends the session: no command behind it gets a
///   reply.
///
/// Questions are answered by the published auction.
#[derive(Drop)]
pub struct HouseDesk<M: Copy, R: Wait + Drop> {
    rt: R,
    client: Client<M>,
    /// Why its commands get no more answers of the rules, or `None`.
    stop: Option<Stop>,
    /// How often it looks for an answer before it sleeps.
    looks: u32,
    ghost idle: { stop ≡ None → client.waiting.items ≡ [] },
    ghost halted: { stop ≡ Some Halted → client.is_halted ≡ true },
    ghost order: { stop ≡ Some Order → IsInOrder client.seat client.viewer client.taken client.waiting.items → ⊥ },
}

impl<M: Copy, R: Wait + Drop> HouseDesk<M, R> {
    ghost use Rattle.std.specs.Prelude.{◌≡◌, ◌<◌, ◌≤◌, [], None, true, length, IsSome};
    ghost use Rattle.rtrb.specs.Ring.{SameProducer, sent};
    ghost use Rattle.hpb_rules.specs.declared.limits.TheConstants.{MOST_WAITING};
    ghost use Rattle.hpb_server.specs.Desk.{AsksAll};
    ghost use Rattle.hpb_serve.specs.Ends.{EndsBy, posts_of, seat_of, viewer_of};
    ghost use Rattle.hpb_serve.specs.Sessions.{DeskStands, State};
    ghost use Rattle.hpb_serve.specs.Telling.{house_ways};
    ghost use Rattle.hpb_serve.specs.Stops.{is_over};

    /// A desk with a client without outstanding letters. It sleeps until its answers come.
    pub fn new(rt: R, client: Client<M>) -> Self
        requires idle { client.waiting.items ≡ [] }
        ensures client { result.client ≡ client }
        ensures serves { result.stop ≡ None }
    {
        HouseDesk {
            rt,
            client,
            stop: None,
            looks: 0,
        }
    }

    /// The same desk, which looks this many times for each answer before it sleeps. Other threads run between two
    /// looks.
    pub fn looking(mut self, looks: u32) -> Self
        ensures client { result.client ≡ self.client }
        ensures stop { result.stop ≡ self.stop }
    {
        self.looks = looks;
        self
    }

    /// The client, in its present state.
    pub fn client(self) -> Client<M>
        ensures { result ≡ self.client }
    {
        let HouseDesk { client, .. } = self;
        client
    }

    /// Finishes the client. After a 95 it hands the client back instead.
    pub(crate) fn finish(self) -> SessionEnd<M>
        ensures seat { seat_of result ≡ self.client.seat }
        ensures viewer { viewer_of result ≡ self.client.viewer }
        ensures ring { SameProducer self.client.letters (posts_of result) }
        ensures ended { EndsBy self.stop result }
    {
        let HouseDesk {
            rt,
            client,
            stop,
            ..
        } = self;
        match stop {
            Some(Stop::Order) => SessionEnd::Left(client),
            Some(Stop::Halted) | None => SessionEnd::Finished(finish_client(rt, client)),
        }
    }

    /// The replies to commands that are sent together.
    fn reply(&mut self, commands: &Commands) -> Replies
        requires some { 0 < length commands.now }
        requires most { length commands.now ≤ MOST_WAITING }
        ensures replied { (state : State) → DeskStands self.old.client self.old.stop state
            → (next : State) × AsksAll house_ways state commands.now result next × DeskStands self.new.client self.new.stop next }
        ensures rules { self.new.client.viewer.opened ≡ self.old.client.viewer.opened }
        // A halted client posts nothing.
        ensures silent { self.old.client.is_halted ≡ true → sent self.new.client.letters ≡ sent self.old.client.letters }
        // A desk that has stopped posts nothing either.
        ensures stopped { IsSome self.old.stop → self.new.client ≡ self.old.client }
    {
        if let Some(stop) = self.stop {
            return refuse_later(stop, commands.len());
        }
        let mut replies = Replies::new();
        self.stop = ask_client(
            &self.rt,
            &mut self.client,
            commands.as_slice(),
            self.looks,
            &mut replies,
        );
        replies
    }
}

impl<M: Copy, R: Wait + Drop> Desk for HouseDesk<M, R> {
    ghost use Rattle.std.proofs.Common.{ap};
    ghost use Rattle.hpb_serve.specs.Sessions.{DeskStands, State as Standing};
    ghost use Rattle.hpb_serve.specs.Stops.{is_over};
    ghost use Rattle.hpb_serve.specs.Telling.{house_ways};

    ghost State = { Standing };

    ghost rules = { λ desk. desk.client.viewer.opened.rules };

    ghost over = { λ desk. is_over desk.stop };

    ghost is_at = { λ desk state. DeskStands desk.client desk.stop state };

    ghost ways = { house_ways };

    ghost rules_are = { λ desk state is. ap (λ viewing. viewing.opened.rules) is.1 };

    ghost over_is = { λ desk state is. ap is_over is.3 };

    fn definition(&self) -> &Definition {
        self.client.viewer.auction().definition()
    }

    fn is_over(&self) -> bool {
        matches!(self.stop, Some(Stop::Order))
    }

    fn most_asked(&self) -> usize {
        MOST_WAITING
    }

    fn waits_when_asked(&self) -> bool {
        true
    }

    fn ask(&mut self, _alloc: Global, commands: &Commands) -> Result<Replies, AllocError> {
        Ok(self.reply(commands))
    }

    fn upkeep(&mut self, _alloc: Global) -> Result<(), AllocError> {
        Ok(())
    }

    fn look(&mut self) -> Option<&Auction> {
        if self.client.refresh() {
            Some(self.client.viewer.auction())
        } else {
            None
        }
    }
}
