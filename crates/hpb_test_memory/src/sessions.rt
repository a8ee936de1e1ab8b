//! The call that answers lines by an engine.

use crate::trials::{Came, Tried, begin, came_of, end, engine, engine_sum, is_sum, sum_of};
use anyhow::Result;
use hpb_disk::FileDisk;
use hpb_engine::Engine;
use hpb_rules::MOST_LETTERS;
use hpb_run::{Pace, Ran, run_device};
use std::io::Read;

/// Room for more bytes than the answers have.
const ROOM: usize = 65_536;

/// Answers the lines of a text by an engine into a room, with a checkpoint only when the journal is full. It commits as
/// many commands together as it may, which are all that are read. So memory is refused before the first of them is
/// kept.
fn answered(
    rt: &HostRuntime,
    text: &[u8],
    output: &mut Vec<u8>,
    engine: Engine<FileDisk>,
) -> Ran<FileDisk> {
    output.clear();
    let mut reader = text;
    let pace = Pace {
        batch: MOST_LETTERS,
        every: 0,
    };
    run_device(rt.alloc(), &mut reader, output, engine, pace)
}

/// The result: the sum of the engine and of the answers.
fn came(rt: &HostRuntime, ran: &Ran<FileDisk>, output: &[u8]) -> Came {
    match ran.end {
        Ok(()) => {
            let sum = engine_sum(rt, &ran.engine);
            came_of(sum.map(|sum| sum.wrapping_add(sum_of(output))))
        }
        Err(fault) => Came::Refused(fault.refusal()),
    }
}

/// Answers the text between the marks, and once more if that was refused.
fn run_marked(
    rt: &HostRuntime,
    text: &[u8],
    output: &mut Vec<u8>,
    engine: Engine<FileDisk>,
) -> Tried {
    let given = engine_sum(rt, &engine);
    let _ = begin(rt);
    let ran = answered(rt, text, output, engine);
    let _ = end(rt);
    let first = came(rt, &ran, output);
    if let Came::Well(_) = first {
        return Tried::well(first);
    }
    let is_same = output.is_empty() && is_sum(engine_sum(rt, &ran.engine), given);
    let Ran { engine, .. } = ran;
    let again = answered(rt, text, output, engine);
    Tried {
        first,
        is_same,
        again: came(rt, &again, output),
    }
}

/// Tries `run_device`, with the input and an engine over a new device of an auction of this many nodes. If it is
/// refused, nothing was answered, and the engine is handed back as it was.
pub(crate) fn run(rt: &HostRuntime, nodes: u64, layout: u8) -> Result<Tried> {
    let mut text = Vec::new(rt.alloc());
    rt.stdin().read_to_end(&mut text)?;
    let mut output = Vec::with_capacity(rt.alloc(), ROOM)?;
    let engine = engine(rt, nodes, layout)?;
    Ok(run_marked(rt, &text, &mut output, engine))
}
