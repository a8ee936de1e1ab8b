//! The bytes of a new device behind its gates.
ghost use Rattle.std.specs.Prelude.{◌≡◌, length, IfOk};
ghost use Rattle.hpb_codec.specs.declared.state.TheConstants.{STATE_SIZE};
ghost use Rattle.hpb_codec.specs.declared.head.TheConstants.{HEAD_SIZE};
ghost use Rattle.hpb_codec.specs.Layouts.{IsShape};
ghost use Rattle.hpb_format.specs.Beginnings.{IsFirstHead, IsFirstState};

use hpb_auction::Auction;
use hpb_codec::{HEAD_SIZE, JournalShape, STATE_SIZE, StateFormat, encode_head, encode_state};
use hpb_rules::{MOST_BIDDERS, MOST_NODES, Saved, SavedBidder, SavedNode};
use hpb_tree::Definition;
use std::alloc::{AllocError, Global};

const NO_BID: SavedNode = SavedNode {
    high: None,
    incoming: None,
};

const NOBODY: SavedBidder = SavedBidder {
    eligibility: 0,
    last: None,
    bid_on: 0,
    waivers: 0,
    has_waived: false,
};

/// The bytes of a new device.
#[derive(Drop)]
pub(crate) struct NewDevice {
    /// The head, from behind its gate on.
    pub(crate) head: Vec<u8>,
    /// The body of the first slot.
    pub(crate) state: Vec<u8>,
}

impl NewDevice {
    /// The bytes of a device with a journal of this shape and the auction before its first command. Fails only if
    /// memory is refused.
    pub(crate) fn new(
        alloc: Global,
        definition: &Definition,
        journal: JournalShape,
    ) -> Result<NewDevice, AllocError>
        requires { IsShape journal }
        ensures head { IfOk result (λ new. IsFirstHead definition.now journal new.head.items) }
        ensures head_size { IfOk result (λ new. length new.head.items ≡ HEAD_SIZE) }
        ensures state { IfOk result (λ new. IsFirstState definition.now new.state.items) }
        ensures state_size { IfOk result (λ new. length new.state.items ≡ STATE_SIZE) }
    {
        Ok(NewDevice {
            head: first_head(alloc, definition, journal)?,
            state: first_state(alloc, definition)?,
        })
    }
}

/// The body of a slot with the auction before its first command, which covers no batch.
fn first_state(alloc: Global, definition: &Definition) -> Result<Vec<u8>, AllocError>
    ensures state { IfOk result (λ bytes. IsFirstState definition.now bytes.items) }
    ensures size { IfOk result (λ bytes. length bytes.items ≡ STATE_SIZE) }
{
    let auction = Auction::new(alloc, definition)?;
    let mut saved = Saved {
        round: 1,
        stage: 1,
        over: false,
        count: 0,
        auctioneer: None,
        nodes: [NO_BID; MOST_NODES],
        bidders: [NOBODY; MOST_BIDDERS],
    };
    auction.save(&mut saved);
    let mut bytes = vec![in alloc; 0; STATE_SIZE]?;
    encode_state(&saved, 0, &mut bytes);
    Ok(bytes)
}

/// The head of a device with this definition and a journal of this shape.
fn first_head(
    alloc: Global,
    definition: &Definition,
    journal: JournalShape,
) -> Result<Vec<u8>, AllocError>
    requires { IsShape journal }
    ensures head { IfOk result (λ bytes. IsFirstHead definition.now journal bytes.items) }
    ensures size { IfOk result (λ bytes. length bytes.items ≡ HEAD_SIZE) }
{
    definition.is_accepted_draft();
    let mut bytes = vec![in alloc; 0; HEAD_SIZE]?;
    encode_head(definition, journal, StateFormat::Two, &mut bytes);
    Ok(bytes)
}
