//! How a session ends.

use hpb_rings::{Client, Report};
use hpb_server::SessionFault;
use std::io;

/// How a session ended for its client.
#[derive(Drop)]
pub enum SessionEnd<M: Copy> {
    /// The client has finished, and this is its report.
    Finished(Report),
    /// 95 `order`: an answer came that isn't the one for which the client waits. The client hasn't finished, and its
    /// letter stays outstanding.
    Left(Client<M>),
}

/// The result of a session.
#[derive(Drop)]
pub struct Session<M: Copy> {
    pub end: SessionEnd<M>,
    /// The fault that ended it before the end of its input: 90 `memory` or 92 `stream`.
    pub fault: Result<(), SessionFault>,
}

/// Why a session over a connection ended.
#[derive(Clone, Copy, Debug)]
pub enum EndCause {
    /// The other side has ended its connection.
    Closed,
    /// 90 `memory` or 92 `stream`. If the last call of the connection failed, also its error.
    Fault(SessionFault, Option<io::Error>),
    /// 95 `order`: an answer came that isn't the one for which the session waited.
    Order,
}
