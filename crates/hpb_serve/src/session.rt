//! A session from its first line to the end of its client.
ghost use Rattle.std.specs.Prelude.{◌≡◌, ◌⊎◌, [], None, true};
ghost use Rattle.rtrb.specs.Ring.{SameProducer};
ghost use Rattle.hpb_server.specs.Streams.{streams};
ghost use Rattle.hpb_serve.specs.Ends.{EndsAt, IsEndOf, TellsOn};
ghost use Rattle.hpb_serve.specs.Sessions.{State, at_start};
ghost use Rattle.hpb_serve.specs.Telling.{ServesLines};

use crate::desk::HouseDesk;
use crate::end::{Session, SessionEnd};
use crate::stop::Stop;
use hpb_rings::{Client, Report};
use hpb_server::serve;
use std::alloc::Global;
use std::io::{Read, Write};
use std::sync::Wait;
use std::thread;

/// Answers each line of the reader by one line on the writer, as `serve` does, from a desk on a house. Then it finishes
/// the desk's client; after a 95 `order` it hands the client back instead.
///
/// It posts up to 16 commands that have come together. It writes and flushes all answers before it posts the next ones
/// or reads more.
///
/// The replies fit the auction that the client's viewer shows at the end. Each was judged after commands at the front
/// of that history, and after all that the session had reported before.
pub fn run_session<M: Copy, R: Wait + Drop, I: Read, O: Write>(
    alloc: Global,
    reader: &mut I,
    writer: &mut O,
    desk: HouseDesk<M, R>,
) -> Session<M>
    // The desk must not have stopped.
    requires { desk.stop ≡ None }
    ensures own { IsEndOf desk.client result.end }
    // Each line has the answer of a desk whose answers fit, and the session ends at the state to which they lead. If
    // the opened auction shows a history, the commands reported at last go on from those that the client's viewer
    // showed at the start.
    ensures served { (state : State) × ServesLines (streams (I.remaining reader.old) (O.contents writer.old)) (streams (I.remaining reader.new) (O.contents writer.new)) (at_start desk.client) state result.fault
        × EndsAt result.end state × TellsOn desk.client.viewer state }
{
    let mut desk = desk;
    let fault = serve(alloc, reader, writer, &mut desk);
    Session {
        end: desk.finish(),
        fault,
    }
}

/// Finishes a client without outstanding letters, or one that is halted.
pub fn finish_client<M: Copy, R: Wait + Drop>(rt: R, client: Client<M>) -> Report
    requires ended { (client.waiting.items ≡ []) ⊎ (client.is_halted ≡ true) }
    ensures seat { result.seat ≡ client.seat }
    ensures viewer { result.viewer ≡ client.viewer }
    ensures ring { SameProducer client.letters result.letters }
    ensures taken { (result.taken ≡ client.taken) × (result.accepted ≡ client.accepted) }
    ensures halted { result.is_halted ≡ client.is_halted }
{
    let mut client = client;
    for _ in rt.forever() {
        match client.finish() {
            Ok(report) => return report,
            Err(back) => client = back,
        }
        thread::yield_now();
    }
    unreachable!()
}
