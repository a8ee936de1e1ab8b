//! Sums of the arguments and the results of calls: other bytes most likely have another sum.

use hpb_auction::Auction;
use hpb_codec::{
    HEAD_SIZE, JournalLayout, JournalShape, STATE_SIZE, StateFormat, encode_head, encode_state,
};
use hpb_rules::Saved;
use hpb_tree::Definition;
use std::alloc::{AllocError, Global};

/// The first value of a sum, and the factor at each byte: those of the hash FNV-1a of 64 bits.
const BASIS: u64 = 0xcbf2_9ce4_8422_2325;

const PRIME: u64 = 0x0000_0100_0000_01b3;

const JOURNAL: JournalShape = JournalShape {
    layout: JournalLayout::Pages,
    frames: 4,
};

/// The sum of bytes: their hash FNV-1a of 64 bits.
pub(crate) fn sum_of(bytes: &[u8]) -> u64 {
    let mut sum = BASIS;
    for byte in bytes {
        sum = (sum ^ u64::from(*byte)).wrapping_mul(PRIME);
    }
    sum
}

/// A sum that goes on with these numbers.
pub(crate) fn with_numbers(sum: u64, numbers: &[u64]) -> u64 {
    let mut sum = sum;
    for number in numbers {
        sum = (sum ^ *number).wrapping_mul(PRIME);
    }
    sum
}

/// A sum that goes on with these flags.
pub(crate) fn with_flags(sum: u64, flags: &[bool]) -> u64 {
    let mut sum = sum;
    for flag in flags {
        sum = (sum ^ *flag as u64).wrapping_mul(PRIME);
    }
    sum
}

/// The sum of a definition: that of the head that keeps the definition.
pub(crate) fn sum_of_definition(alloc: Global, definition: &Definition) -> Result<u64, AllocError> {
    let mut head = vec![in alloc; 0; HEAD_SIZE]?;
    let head = head.as_mut_slice();
    encode_head(definition, JOURNAL, StateFormat::Two, head);
    Ok(sum_of(head))
}

/// The sum of an auction: that of its state and that of its definition.
pub(crate) fn sum_of_auction(alloc: Global, auction: &Auction) -> Result<u64, AllocError> {
    let mut state = vec![in alloc; 0; STATE_SIZE]?;
    let state = state.as_mut_slice();
    let mut saved = Saved::empty();
    auction.save(&mut saved);
    encode_state(&saved, 0, state);
    let definition = sum_of_definition(alloc, auction.definition())?;
    Ok(sum_of(state).wrapping_mul(PRIME) ^ definition)
}
