//! Calls that answer lines.

use crate::definitions::input;
use crate::trials::{Came, Tried, begin, definition, end, sum_of, sum_of_auction};
use anyhow::Result;
use hpb_auction::Auction;
use hpb_define::read_definition;
use hpb_rules::Refusal;
use hpb_server::{ScriptDesk, ScriptEnd, SessionFault, run_script, serve_auction};
use std::alloc::Global;

/// The auction whose lines are answered.
const DEFINITION: &[u8] =
    b"{\"step\":10,\"percent\":10,\"stages\":[80],\"nodes\":[{\"name\":\"a\",\"parent\":null,\"units\":1,\"opening\":100}],\"bidders\":[{\"name\":\"x\",\"units\":1}]}";

/// Room for more bytes than the answers have.
const ROOM: usize = 65_536;

/// Answers the script of the input on the output.
pub(crate) fn script_answered(rt: &HostRuntime) -> Result<(), SessionFault> {
    run_script(
        rt.alloc(),
        &mut rt.stdin(),
        &mut rt.stdout(),
        &mut rt.stderr(),
        false,
    )?;
    Ok(())
}

/// Answers the lines of the input on the output.
pub(crate) fn lines_answered(rt: &HostRuntime) -> Result<(), SessionFault> {
    let alloc = rt.alloc();
    let Ok(definition) = read_definition(alloc, DEFINITION) else {
        return Err(SessionFault::Memory);
    };
    let mut desk = ScriptDesk::new(Auction::new(alloc, &definition)?);
    serve_auction(alloc, &mut rt.stdin(), &mut rt.stdout(), &mut desk)
}

/// Answers the script of a text into a room, and gives the result.
fn answered(alloc: Global, text: &[u8], output: &mut Vec<u8>, errors: &mut Vec<u8>) -> Came {
    output.clear();
    errors.clear();
    let mut reader = text;
    match run_script(alloc, &mut reader, output, errors, false) {
        Ok(ScriptEnd::Answered) => Came::Well(sum_of(output)),
        Ok(ScriptEnd::Refused(refusal)) => Came::Refused(refusal),
        Err(fault) => Came::Refused(fault.refusal()),
    }
}

/// Tries `run_script`, with the input.
pub(crate) fn run(rt: &HostRuntime) -> Result<Tried> {
    let alloc = rt.alloc();
    let text = input(rt)?;
    let given = sum_of(&text);
    let mut output = Vec::with_capacity(alloc, ROOM)?;
    let mut errors = Vec::with_capacity(alloc, ROOM)?;
    begin(rt)?;
    let first = answered(alloc, &text, &mut output, &mut errors);
    end(rt)?;
    Ok(Tried {
        first,
        is_same: sum_of(&text) == given,
        again: answered(alloc, &text, &mut output, &mut errors),
    })
}

/// Answers the lines of a text into a room, and gives the result.
fn served(alloc: Global, text: &[u8], output: &mut Vec<u8>, desk: &mut ScriptDesk) -> Came {
    output.clear();
    let mut reader = text;
    match serve_auction(alloc, &mut reader, output, desk) {
        Ok(()) => Came::Well(sum_of(output)),
        Err(fault) => Came::Refused(fault.refusal()),
    }
}

/// A new auction of this many nodes.
fn new_auction(alloc: Global, nodes: u64) -> Result<Auction> {
    Ok(Auction::new(alloc, &definition(alloc, nodes)?)?)
}

/// The sum of a new auction of this many nodes.
fn new_sum(alloc: Global, nodes: u64) -> Result<u64> {
    Ok(sum_of_auction(alloc, &new_auction(alloc, nodes)?)?)
}

/// Serves the text once, between the marks.
fn serve_marked(
    rt: &HostRuntime,
    text: &[u8],
    output: &mut Vec<u8>,
    desk: &mut ScriptDesk,
) -> Came {
    let _ = begin(rt);
    let came = served(rt.alloc(), text, output, desk);
    let _ = end(rt);
    came
}

/// Serves the text once more.
fn serve_again(alloc: Global, text: &[u8], output: &mut Vec<u8>, auction: Auction) -> Came {
    let mut desk = ScriptDesk::new(auction);
    served(alloc, text, output, &mut desk)
}

/// Serves the text to an auction with the given sum, and once more if that was refused.
fn serve_auction_of(
    rt: &HostRuntime,
    text: &[u8],
    output: &mut Vec<u8>,
    auction: Auction,
    given: u64,
) -> Tried {
    let alloc = rt.alloc();
    let mut desk = ScriptDesk::new(auction);
    let first = serve_marked(rt, text, output, &mut desk);
    let auction = desk.into_auction();
    let is_same = sum_of_auction(alloc, &auction).ok() == Some(given);
    match first {
        Came::Well(_) => Tried::well(first),
        Came::Refused(_) => Tried {
            first,
            is_same,
            again: serve_again(alloc, text, output, auction),
        },
    }
}

/// Tries `serve`, with the input and an auction of this many nodes. If it is refused, no line was answered yet.
pub(crate) fn serve(rt: &HostRuntime, nodes: u64) -> Result<Tried> {
    let alloc = rt.alloc();
    let text = input(rt)?;
    let given = new_sum(alloc, nodes)?;
    let mut output = Vec::with_capacity(alloc, ROOM)?;
    let auction = new_auction(alloc, nodes)?;
    Ok(serve_auction_of(rt, &text, &mut output, auction, given))
}
