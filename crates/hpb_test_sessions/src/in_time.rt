//! A session on a house that must end within some time.

use crate::one_session::{Outcome, run_on_new_device};
use hpb_codec::JournalShape;
use std::alloc::Global;
use std::sync::atomic::{AtomicBool, Ordering};
use std::sync::{Arc, Wait};
use std::test::Fail;
use std::thread;
use std::thread::Threads;
use std::time::{Clock, Duration};

/// The most looks at a flag.
const TRIES: u32 = 2_000;

/// The time between two looks, in milliseconds.
const PAUSE: u64 = 10;

/// Waits until a flag is up. `false` says that it isn't after the most tries.
fn goes_up<H: Clock>(rt: &H, flag: &AtomicBool) -> bool {
    for _ in 0..TRIES {
        if flag.load(Ordering::SeqCst) {
            return true;
        }
        thread::sleep(rt, Duration::from_millis(PAUSE));
    }
    false
}

/// The result of a session, if it could be run, and its output.
#[derive(Drop)]
pub(crate) struct Spoken {
    pub(crate) outcome: Option<Outcome>,
    pub(crate) answers: Vec<u8>,
}

/// Runs a session on these lines in a thread of its own, on a house over a new device in memory. Fails if it hasn't
/// ended after the most tries.
pub(crate) fn run_in_time<H: Threads + Wait + Clock + Sync + Send + Copy + 'static>(
    rt: &H,
    alloc: Global,
    shape: JournalShape,
    lines: &'static str,
) -> Result<Spoken, Fail> {
    let has_ended = Arc::new(alloc, AtomicBool::new(false))?;
    let is_over = Arc::try_clone(&has_ended)?;
    let own = *rt;
    let thread = thread::spawn(rt, move || {
        let mut answers = Vec::new(alloc);
        let outcome = run_on_new_device(&own, alloc, shape, lines, &mut answers).ok();
        is_over.store(true, Ordering::SeqCst);
        Spoken { outcome, answers }
    })?;
    if goes_up(rt, &has_ended) {
        Ok(thread.join(rt))
    } else {
        Err(Fail::new("the session has not ended"))
    }
}
