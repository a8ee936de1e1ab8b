ghost use Rattle.std.specs.Prelude.{◌≡◌, [], Some, None, length, IfOk};
ghost use Rattle.hpb_rules.specs.Rendering.{node_text, reply_text};
ghost use Rattle.hpb_wire.specs.Responses.{Adds, text_of, text_of_round, text_of_node, text_of_bidder};

use crate::response::{BidderLine, HighBid, NodeLine, Response, RoundLine};
use crate::room::make_room;
use crate::writing::{
    BIDDER_BYTES, NODE_BYTES, REPLY_BYTES, ROUND_BYTES, put_bidder, put_free, put_reply, put_round,
    put_standing,
};
use hpb_rules::Reply;
use std::alloc::{AllocError, Global};
use std::marker::Model;

/// More bytes than any response has.
pub const RESPONSE_BYTES: usize = 256;

/// Responses one after another, a line each. A text that is used again takes no memory once it has grown.
#[derive(Drop)]
pub struct ResponseText {
    bytes: Vec<u8>,
    /// How many of its bytes are responses.
    length: usize,
}

impl Model for ResponseText {
    ghost use Rattle.std.specs.Prelude.{ℕ, List, take, vec_len, ◌≤◌};

    ghost Value = { List ℕ };

    ghost view = { λ t. take t.length t.bytes.items };

    ghost invariant = { λ t. t.length ≤ vec_len t.bytes };
}

impl ResponseText {
    /// A text without a response, with room for this many bytes.
    pub fn new(alloc: Global, bytes: usize) -> Result<Self, AllocError>
        ensures { IfOk result (λ t. t ≡ []) }
    {
        Ok(ResponseText {
            bytes: vec![in alloc; 0; bytes]?,
            length: 0,
        })
    }

    /// Adds the line of a response, with its end. If memory is refused, the text stays as it is.
    pub fn render(&mut self, response: &Response<'_>) -> Result<(), AllocError>
        ensures { Adds self.old self.new (text_of response.now) result }
    {
        self.render_for::<()>(response)
    }

    /// The same, with a copy for each caller, as `parse_front` has. So a response needn't be built in memory only to be
    /// taken apart again.
    #[inline(always)]
    pub fn render_for<Caller>(&mut self, response: &Response<'_>) -> Result<(), AllocError>
        ensures { Adds self.old self.new (text_of response.now) result }
    {
        match response {
            Response::Reply(reply) => self.render_reply(*reply),
            Response::Show(line) => self.render_round::<Caller>(line),
            Response::Node(line) => self.render_node::<Caller>(line),
            Response::Who(line) => self.render_bidder::<Caller>(line),
        }
    }

    /// Adds the line of a reply, with its end. If memory is refused, the text stays as it is.
    #[inline(always)]
    pub fn render_reply(&mut self, reply: Reply) -> Result<(), AllocError>
        ensures { Adds self.old self.new (reply_text reply) result }
    {
        make_room(&mut self.bytes, self.length, REPLY_BYTES)?;
        self.length = put_reply(self.bytes.as_mut_slice(), self.length, reply);
        Ok(())
    }

    fn render_round<Caller>(&mut self, line: &RoundLine) -> Result<(), AllocError>
        ensures { Adds self.old self.new (text_of_round line.now) result }
    {
        make_room(&mut self.bytes, self.length, ROUND_BYTES)?;
        self.length = put_round(self.bytes.as_mut_slice(), self.length, line);
        Ok(())
    }

    fn render_node<Caller>(&mut self, line: &NodeLine<'_>) -> Result<(), AllocError>
        ensures { Adds self.old self.new (text_of_node line.now) result }
    {
        match &line.high {
            Some(bid) => self.render_standing::<Caller>(line, bid),
            None => self.render_free(line),
        }
    }

    /// Adds the line of a node with a high bid.
    #[inline(always)]
    fn render_standing<Caller>(
        &mut self,
        line: &NodeLine<'_>,
        bid: &HighBid<'_>,
    ) -> Result<(), AllocError>
        ensures { Adds self.old self.new (node_text line.now.name.now (Some (bid.now.amount, bid.now.bidder.now)) line.now.price line.now.minimum line.now.wins) result }
    {
        let around = bid.bidder.len() + NODE_BYTES;
        let more = around.checked_add(line.name.len()).ok_or(AllocError)?;
        make_room(&mut self.bytes, self.length, more)?;
        self.length = put_standing::<Caller>(self.bytes.as_mut_slice(), self.length, line, bid);
        Ok(())
    }

    /// Adds the line of a node without a high bid.
    #[inline(always)]
    fn render_free(&mut self, line: &NodeLine<'_>) -> Result<(), AllocError>
        ensures { Adds self.old self.new (node_text line.now.name.now None line.now.price line.now.minimum line.now.wins) result }
    {
        make_room(&mut self.bytes, self.length, line.name.len() + NODE_BYTES)?;
        self.length = put_free(self.bytes.as_mut_slice(), self.length, line);
        Ok(())
    }

    fn render_bidder<Caller>(&mut self, line: &BidderLine<'_>) -> Result<(), AllocError>
        ensures { Adds self.old self.new (text_of_bidder line.now) result }
    {
        make_room(&mut self.bytes, self.length, line.name.len() + BIDDER_BYTES)?;
        self.length = put_bidder(self.bytes.as_mut_slice(), self.length, line);
        Ok(())
    }

    /// How many bytes it has.
    #[inline(always)]
    pub fn len(&self) -> usize
        ensures { result ≡ length self.now }
    {
        self.length
    }

    /// Its bytes.
    pub fn as_bytes(&self) -> &[u8]
        ensures { result.now ≡ self.now }
    {
        &self.bytes[..self.length]
    }

    /// Removes all responses, and keeps the room.
    pub fn clear(&mut self)
        ensures { self.new ≡ [] }
    {
        self.length = 0;
    }
}
