//! The port at which sessions are served.

use std::net::TcpListener;

/// A port at which sessions are served, and a watch that gets reports of them.
#[derive(Drop)]
pub struct Port<'a, V> {
    /// Connections come to it.
    pub listener: TcpListener,
    /// The port's number.
    pub number: u16,
    /// How many sessions are served.
    pub sessions: u8,
    pub watch: &'a V,
}
