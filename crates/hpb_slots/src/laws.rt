//! The laws of slots.
ghost use Rattle.hpb_slots.specs.Laws.{ChunksAreWhole, HoldsOne, NewestIsOne, OpenOrClosed, SlotsStay};

use hpb_codec::states_are_one;

/// Each slot is open or closed.
pub fn open_or_closed()
    ensures { OpenOrClosed }
{
    hpb_disk::open_or_closed();
}

/// A slot holds at most one state.
pub fn holds_one()
    ensures { HoldsOne }
{
    states_are_one();
}

/// A device has at most one newest state.
pub fn newest_is_one()
    ensures { NewestIsOne }
{
    holds_one();
}

/// A slot that has all chunks of a body has the body.
pub fn chunks_are_whole()
    ensures { ChunksAreWhole }
{
    states_are_one();
}

/// If the bytes of the slots stay, the slots stay as they were.
pub fn slots_stay()
    ensures { SlotsStay }
{}
