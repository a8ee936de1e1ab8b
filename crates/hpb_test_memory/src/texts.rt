//! Calls that make room for answers, and write them.

use crate::trials::{Came, Tried, begin, definition, end, sum_of};
use anyhow::Result;
use hpb_auction::Auction;
use hpb_rules::Refusal;
use hpb_wire::{ResponseText, show};
use std::alloc::AllocError;

/// How many bytes of answers a session keeps.
const BYTES: usize = 65_536;

fn came(made: Result<ResponseText, AllocError>) -> Came {
    match made {
        Ok(text) => Came::Well(sum_of(text.as_bytes())),
        Err(_) => Came::Refused(Refusal::Memory),
    }
}

/// Tries `ResponseText::new`.
pub(crate) fn new(rt: &HostRuntime) -> Result<Tried> {
    let alloc = rt.alloc();
    begin(rt)?;
    let made = ResponseText::new(alloc, BYTES);
    end(rt)?;
    Ok(Tried {
        first: came(made),
        is_same: true,
        again: came(ResponseText::new(alloc, BYTES)),
    })
}

/// A text with one more response, or unchanged.
fn rendered(text: &mut ResponseText, auction: &Auction) -> Came {
    match text.render(&show(auction)) {
        Ok(()) => Came::Well(sum_of(text.as_bytes())),
        Err(_) => Came::Refused(Refusal::Memory),
    }
}

/// Tries `ResponseText::render`, on a text that has to grow.
pub(crate) fn render(rt: &HostRuntime, nodes: u64) -> Result<Tried> {
    let alloc = rt.alloc();
    let auction = Auction::new(alloc, &definition(alloc, nodes)?)?;
    render_of(rt, &auction)
}

fn render_of(rt: &HostRuntime, auction: &Auction) -> Result<Tried> {
    let mut text = ResponseText::new(rt.alloc(), 0)?;
    begin(rt)?;
    let first = rendered(&mut text, auction);
    end(rt)?;
    if let Came::Well(_) = first {
        return Ok(Tried::well(first));
    }
    Ok(Tried {
        first,
        is_same: text.len() == 0,
        again: rendered(&mut text, auction),
    })
}
