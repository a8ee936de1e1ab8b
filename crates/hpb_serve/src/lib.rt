//! Sessions over TCP with one auction, which a house keeps.
#![tactic(auto)]

mod announcing;
mod asking;
mod connection;
mod desk;
mod door;
mod end;
mod ends;
mod fault;
mod hall;
mod laws;
mod looking;
mod port;
mod sameness;
mod serving;
mod session;
mod stop;
mod threads;
mod watching;

pub use desk::HouseDesk;
pub use end::{EndCause, Session, SessionEnd};
pub use fault::{Differing, ServeFault};
pub use laws::limits_are;
pub use port::Port;
pub use serving::{Served, serve_opened};
pub use session::{finish_client, run_session};
pub use stop::Stop;
pub use watching::{Place, Unwatched, Watch};
