//! A call that was tried.

use super::{Came, sum_of_auction, sum_of_definition};
use hpb_auction::Auction;
use hpb_rules::Refusal;
use hpb_tree::Definition;
use std::alloc::{AllocError, Global};
use std::io;

/// A call that was made once, and once more with memory.
#[derive(Clone, Copy, Debug, PartialEq, Eq)]
pub(crate) struct Tried {
    pub(crate) first: Came,
    /// Whether its argument is the same afterwards.
    pub(crate) is_same: bool,
    pub(crate) again: Came,
}

impl Tried {
    /// A call that succeeded, and took its argument.
    pub(crate) fn well(came: Came) -> Self {
        Tried {
            first: came,
            is_same: true,
            again: came,
        }
    }
}

/// Writes the result of a call, whether its argument is the same, and the result of the second call.
pub(crate) fn tell<R: Print>(rt: &R, tried: &Tried) -> io::Result<()> {
    let Tried {
        first,
        is_same,
        again,
    } = *tried;
    let given = if is_same { "same" } else { "changed" };
    println!(rt; "{first}, {given}, {again}")
}

/// The result of a call that makes a definition: its sum, or that memory was refused (90 `memory`).
pub(crate) fn definition_came(
    alloc: Global,
    made: Result<Definition, AllocError>,
) -> Result<Came, AllocError> {
    match made {
        Ok(definition) => Ok(Came::Well(sum_of_definition(alloc, &definition)?)),
        Err(_) => Ok(Came::Refused(Refusal::Memory)),
    }
}

/// The result of a call that makes an auction: its sum, or that memory was refused (90 `memory`).
pub(crate) fn auction_came(
    alloc: Global,
    made: Result<Auction, AllocError>,
) -> Result<Came, AllocError> {
    match made {
        Ok(auction) => Ok(Came::Well(sum_of_auction(alloc, &auction)?)),
        Err(_) => Ok(Came::Refused(Refusal::Memory)),
    }
}
