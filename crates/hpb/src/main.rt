//! The program: its words, its input, its output, its status.
#![tactic(auto)]

use hpb_program::{
    Console, Led, Noted, Waiting, hold_stack, hold_streams, program, refuse_streams, refuse_words,
};
use std::io;
use std::io::IsTerminal;
use std::process::ExitCode;

fn main(rt: HostRuntime) -> ExitCode {
    let mut errors = Waiting::new(rt.stderr());
    let led = Led::by_words(&rt);
    if let Err(error) = hold_streams(&rt) {
        return ExitCode::from(refuse_streams(rt.alloc(), &error, led, &mut errors));
    }
    let mut output = Noted::new(Waiting::new(rt.stdout()));
    let words = match words(&rt) {
        Ok(words) => words,
        Err(error) => return ExitCode::from(refuse_words(&error, led, &mut output, &mut errors)),
    };
    let mut console = Console {
        input: Noted::new(Waiting::new(rt.stdin())),
        output,
        errors,
        is_terminal: rt.stdin().is_terminal(),
    };
    let status = program(&rt, rt.alloc(), words.as_slice(), led, &mut console);
    ExitCode::from(status)
}

/// The words with which the program was started. The stack gets its room first.
fn words(rt: &HostRuntime) -> io::Result<Vec<String>> {
    hold_stack(rt.alloc())?;
    Ok(std::env::args(rt)?.collect(rt.alloc())?)
}
