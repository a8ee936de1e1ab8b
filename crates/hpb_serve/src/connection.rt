//! A session over a connection.
ghost use Rattle.std.specs.Prelude.{◌≡◌, ◌<◌, ◌≤◌, []};
ghost use Rattle.hpb_serve.specs.Ended.{EndsWith};

use crate::hall::Hall;
use crate::looking::Looking;
use crate::watching::Watch;
use crate::{EndCause, HouseDesk, Session, SessionEnd, finish_client, run_session};
use hpb_house::Halt;
use hpb_rings::Client;
use std::cell::Cell;
use std::io;
use std::net::Shutdown;
use std::sync::Wait;

/// How often a session looks at its connection for more to read before it sleeps until something comes.
const READ_LOOKS: u32 = 100;

/// How often it looks for an answer of the house before it sleeps until one comes.
const ANSWER_LOOKS: u32 = 400;

/// A client without outstanding letters, and the number of its session among all sessions.
#[derive(Drop)]
pub(crate) struct Idle {
    pub(crate) client: Client<Halt>,
    /// From 0 on.
    number: usize,
    sessions: usize,
    ghost idle: { client.waiting.items ≡ [] },
}

impl Idle {
    pub(crate) fn new(client: Client<Halt>, number: usize, sessions: usize) -> Idle
        requires { client.waiting.items ≡ [] }
        ensures { result.client ≡ client }
    {
        Idle {
            client,
            number,
            sessions,
        }
    }
}

/// With more sessions than this, none looks: each look would take a core from a thread for which others wait.
const MOST_LOOKING: usize = 8;

/// The given number of looks, or none if there are many sessions.
fn looks_among(looks: u32, sessions: usize) -> u32
    ensures few { sessions ≤ MOST_LOOKING → result ≡ looks }
    ensures many { MOST_LOOKING < sessions → result ≡ 0 }
{
    if sessions <= MOST_LOOKING { looks } else { 0 }
}

/// Runs a client's session over the connection that it gets at the door, and closes the connection at the end. If it
/// gets none, it finishes the client at once.
///
/// A fault that ends the session early, 90 `memory` or 92 `stream`, ends no other. A watch gets the reason why the
/// session ended.
pub(crate) fn serve_connection<R: Wait, V: Watch>(
    rt: &R,
    hall: Hall<'_, V>,
    idle: Idle,
) -> SessionEnd<Halt>
    ensures { EndsWith idle.client result }
{
    let Idle {
        client,
        number,
        sessions,
        ..
    } = idle;
    let Hall { alloc, door, watch } = hall;
    let Some(guest) = door.enter(rt, watch, number) else {
        return SessionEnd::Finished(finish_client(rt, client));
    };
    let stream = &guest.stream;
    let failure = Cell::new(None);
    let mut reader = Looking::new(stream, looks_among(READ_LOOKS, sessions), &failure);
    let mut writer = reader;
    let desk = HouseDesk::new(rt, client).looking(looks_among(ANSWER_LOOKS, sessions));
    let session = run_session(alloc, &mut reader, &mut writer, desk);
    // This fails if the other side has closed the connection; then it is shut down already.
    let _ = stream.shutdown(Shutdown::Both);
    watch.ended(&guest.place, cause_of(&session, failure.get()));
    session.end
}

/// Why a session ended. If the last call of its connection failed, the cause has that error.
fn cause_of(session: &Session<Halt>, failure: Option<io::Error>) -> EndCause {
    match (&session.end, session.fault) {
        (SessionEnd::Left(_), _) => EndCause::Order,
        (_, Err(fault)) => EndCause::Fault(fault, failure),
        (_, Ok(())) => EndCause::Closed,
    }
}
