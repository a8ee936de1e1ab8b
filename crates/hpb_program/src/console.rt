//! The standard streams of the program.

use hpb_messages::{Failures, Noted};
use std::io::{Read, Write};
use std::marker::Model;

/// The standard streams, each of which is lent to the work that needs it. Contracts see them by their bytes.
#[derive(Drop)]
pub struct Console<R: Read, W: Write, E: Write> {
    pub input: Noted<R>,
    pub output: Noted<W>,
    pub errors: E,
    /// Whether the input is a terminal.
    pub is_terminal: bool,
}

impl<R: Read, W: Write, E: Write> Model for Console<R, W, E> {
    ghost use Rattle.hpb_messages.specs.Telling.{is_cut};
    ghost use Rattle.hpb_server.specs.Streams.{streams};
    ghost use Rattle.hpb_program.specs.ConsoleValue.{ConsoleValue};

    ghost Value = { ConsoleValue };

    ghost view = { λ console. record { streams = streams (R.remaining console.input.stream) (W.contents console.output.stream); is_cut = is_cut console.output; errors = E.contents console.errors; is_terminal = console.is_terminal } };
}

impl<R: Read, W: Write, E: Write> Console<R, W, E> {
    /// The failures of the input and the output.
    pub(crate) fn failures(&self) -> Failures {
        Failures::of(&self.input, &self.output)
    }
}
