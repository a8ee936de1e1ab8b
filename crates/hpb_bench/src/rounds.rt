//! Rounds of one call. Each gives a sum of the bytes that it wrote or read, so that no call can be left out.

use crate::bodies::{batch, definition, saved};
use anyhow::Result;
use hpb_auction::Auction;
use hpb_codec::{
    BATCH_SIZE, HEAD_SIZE, JournalLayout, JournalShape, STATE_SIZE, StateFormat, decode_batch,
    decode_state, encode_batch, encode_head, encode_state, encode_state_1,
};
use hpb_rules::{Answer, Answers, Command, Letter, Letters, MOST_LETTERS, Reply, Saved};
use std::alloc::Global;

/// How many batch indices are in use.
const INDICES: u64 = 200;

/// The place of the lowest byte of the batch index in a batch and in a state.
const INDEX_IN_BATCH: usize = 7;

const INDEX_IN_STATE: usize = 23;

/// The place of the lowest byte of the number of the journal's frames in a head.
const FRAMES_IN_HEAD: usize = 27;

pub(crate) fn encode_batches(alloc: Global, rounds: u64) -> Result<u64> {
    let mut batch = batch();
    let mut body = vec![in alloc; 0; BATCH_SIZE]?;
    let body = body.as_mut_slice();
    let mut sum = 0_u64;
    for i in 0..rounds {
        batch.index = i % INDICES;
        encode_batch(&batch, body);
        let at = (i % BATCH_SIZE as u64) as usize;
        sum = sum.wrapping_add(u64::from(body[at]));
    }
    Ok(sum)
}

pub(crate) fn decode_batches(alloc: Global, rounds: u64) -> Result<u64> {
    let definition = definition(alloc)?;
    let mut body = vec![in alloc; 0; BATCH_SIZE]?;
    let body = body.as_mut_slice();
    encode_batch(&batch(), body);
    let mut sum = 0_u64;
    for i in 0..rounds {
        body[INDEX_IN_BATCH] = (i % INDICES) as u8;
        if let Some(batch) = decode_batch(body, &definition) {
            sum = sum.wrapping_add(batch.index);
        }
    }
    Ok(sum)
}

pub(crate) fn encode_states(alloc: Global, format: StateFormat, rounds: u64) -> Result<u64> {
    let saved = saved();
    let mut body = vec![in alloc; 0; STATE_SIZE]?;
    let body = body.as_mut_slice();
    let mut sum = 0_u64;
    for i in 0..rounds {
        match format {
            StateFormat::One => encode_state_1(&saved, i % INDICES, body),
            StateFormat::Two => encode_state(&saved, i % INDICES, body),
        }
        let at = (i % STATE_SIZE as u64) as usize;
        sum = sum.wrapping_add(u64::from(body[at]));
    }
    Ok(sum)
}

pub(crate) fn decode_states(alloc: Global, rounds: u64) -> Result<u64> {
    let definition = definition(alloc)?;
    let mut saved = saved();
    let mut body = vec![in alloc; 0; STATE_SIZE]?;
    let body = body.as_mut_slice();
    encode_state(&saved, 0, body);
    let mut sum = 0_u64;
    for i in 0..rounds {
        body[INDEX_IN_STATE] = (i % INDICES) as u8;
        if let Some(index) = decode_state(body, &definition, &mut saved) {
            sum = sum.wrapping_add(index);
        }
    }
    Ok(sum)
}

/// Writes a head.
pub(crate) fn encode_heads(alloc: Global, rounds: u64) -> Result<u64> {
    let definition = definition(alloc)?;
    let mut head = vec![in alloc; 0; HEAD_SIZE]?;
    let head = head.as_mut_slice();
    let journal = JournalShape {
        layout: JournalLayout::Pages,
        frames: 4,
    };
    let mut sum = 0_u64;
    for _ in 0..rounds {
        encode_head(&definition, journal, StateFormat::Two, head);
        sum = sum.wrapping_add(u64::from(head[FRAMES_IN_HEAD]));
    }
    Ok(sum)
}

/// Saves an auction.
pub(crate) fn saves(alloc: Global, rounds: u64) -> Result<u64> {
    let auction = Auction::new(alloc, &definition(alloc)?)?;
    let mut saved = Saved::empty();
    let mut sum = 0_u64;
    for _ in 0..rounds {
        auction.save(&mut saved);
        sum = sum.wrapping_add(u64::from(saved.round));
    }
    Ok(sum)
}

/// Restores an auction.
pub(crate) fn restores(alloc: Global, rounds: u64) -> Result<u64> {
    let mut auction = Auction::new(alloc, &definition(alloc)?)?;
    let saved = saved();
    let mut sum = 0_u64;
    for _ in 0..rounds {
        if auction.restore(&saved) {
            sum = sum.wrapping_add(u64::from(auction.round()));
        }
    }
    Ok(sum)
}

/// Copies an auction into its copy, in which a round was closed before; at most once.
pub(crate) fn copies(alloc: Global, rounds: u64) -> Result<u64> {
    let auction = Auction::new(alloc, &definition(alloc)?)?;
    let mut copy = auction.copy(alloc)?;
    copy.apply(&Command::Close { ticket: 1 });
    if rounds > 0 {
        copy.copy_from(&auction);
    }
    Ok(u64::from(copy.count()))
}

fn letter() -> Letter {
    Letter {
        seat: 1,
        command: Command::Close { ticket: 1 },
    }
}

fn answer() -> Answer {
    Answer {
        letter: letter(),
        at: 0,
        reply: Reply::Ok(1),
    }
}

/// A full list of letters, and one of answers: how long they are.
fn full_lists() -> usize {
    let mut letters = Letters::new();
    let mut answers = Answers::new();
    for _ in 0..MOST_LETTERS {
        let _ = letters.push(letter());
        let _ = answers.push(answer());
    }
    let _ = letters.push(letter());
    letters.len() + answers.len()
}

/// Fills lists of letters and of answers.
pub(crate) fn lists(rounds: u64) -> u64 {
    let mut sum = 0_u64;
    for _ in 0..rounds {
        sum = sum.wrapping_add(full_lists() as u64);
    }
    sum
}
