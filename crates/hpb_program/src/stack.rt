//! The room of the stack.

use std::alloc::{AllocError, Global};

/// The bytes of the stack that are held: more than the program takes, as either compiler makes it.
const STACK_BYTES: usize = 1_024 * 1_024;

/// The bytes of one step down the stack. A single step of all bytes would be inlined into its caller.
const STEP_BYTES: usize = 16 * 1_024;

/// The number of steps. One of the compilers gives a step half as much again as its array. So the steps are for half of
/// the bytes: they touch at least 512 KiB, and never more than was asked for.
const STEPS: usize = STACK_BYTES / (2 * STEP_BYTES);

/// The bytes that words and environment may always have. The system counts them as the stack's, and lets them have a
/// quarter of the stack if that is more.
const WORDS_BYTES: u64 = 128 * 1_024;

/// More bytes of the stack than the system itself takes before the program begins.
const START_BYTES: u64 = 32 * 1_024;

/// Makes the system give the stack all the room that the program takes. Call it first.
///
/// If the stack may not be that long, or memory is too short for it to grow, the system ends a program without a word.
/// So this looks at the limit, and asks for the room as memory first, which it hands back. Either refusal is an
/// `AllocError`.
pub fn hold_stack(alloc: Global) -> Result<(), AllocError> {
    if most_bytes() < STACK_BYTES as u64 {
        return Err(AllocError);
    }
    let room: Vec<u8> = Vec::with_capacity(alloc, STACK_BYTES)?;
    drop(room);
    touch_stack(STEPS);
    Ok(())
}

/// The bytes of the stack that the program may have, whatever its words and its environment are.
fn most_bytes() -> u64 {
    let mut limit = libc::types::rlimit {
        rlim_cur: u64::MAX,
        rlim_max: u64::MAX,
    };
    libc::getrlimit(libc::RLIMIT_STACK, &mut limit);
    let most = limit.rlim_cur;
    let taken = WORDS_BYTES.max(most / 4).saturating_add(START_BYTES);
    most.saturating_sub(taken)
}

/// Goes this many steps down the stack. Pages that were written once stay the stack's.
///
/// The call of the system keeps the compiler from leaving out the array. The read after the next step keeps it from
/// making a loop of the steps.
fn touch_stack(steps: usize) -> usize {
    let mut room = [0; STEP_BYTES];
    let count = usize::try_from(os::readlink(b"/", &mut room)).unwrap_or(0);
    let below = if steps > 1 { touch_stack(steps - 1) } else { 0 };
    below.max(count).max(usize::from(room[0]))
}
