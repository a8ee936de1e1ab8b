//! Commands that a session on a house gets before it has answered the ones before them.

use crate::one_session::{Outcome, run_on_faulty_device, run_on_new_device};
use crate::outputs::Counted;
use hpb_test_engine::over_layouts;
use std::alloc::{AllocError, Global};
use std::test::*;

/// A command, its answer behind those before it, and how many are accepted by then.
type Row = (&'static str, &'static str, u32);

/// One more command than may be in flight.
const ROWS: [Row; 17] = [
    ("BID x 1 a 100", "OK 1", 1),
    ("BID y 1 b 100", "OK 2", 2),
    ("BID z 1 all 400", "OK 3", 3),
    ("BID w 1 d 100", "OK 4", 4),
    ("BID w 1 d 100", "OK 4", 4),
    ("BID w 2 d 105", "ERR 21 step", 4),
    ("CLOSE 1", "OK 5", 5),
    ("BID x 2 a 100", "ERR 22 low", 5),
    ("BID x 2 a 170", "OK 6", 6),
    ("BID y 2 b 170", "OK 7", 7),
    ("BID z 2 c 110", "OK 8", 8),
    ("BID w 2 d 110", "OK 9", 9),
    ("CLOSE 2", "OK 10", 10),
    ("STAGE 3", "OK 11", 11),
    ("CLOSE 4", "OK 12", 12),
    ("CLOSE 4", "OK 12", 12),
    ("BID x 3 a 500", "ERR 20 closed", 12),
];

/// All lines.
fn lines(alloc: Global) -> Result<String, AllocError> {
    let mut lines = String::new(alloc);
    for (line, _, _) in ROWS {
        lines.push_str(line)?;
        lines.push('\n')?;
    }
    Ok(lines)
}

/// The answers if the house answers `taken` commands, and then halts.
fn answers(alloc: Global, taken: u64) -> Result<String, AllocError> {
    let mut answers = String::new(alloc);
    for (place, (_, answer, _)) in ROWS.iter().enumerate() {
        let answer = if (place as u64) < taken {
            *answer
        } else {
            "ERR 93 failed"
        };
        answers.push_str(answer)?;
        answers.push('\n')?;
    }
    Ok(answers)
}

/// How many commands are accepted by the first `taken` answers.
fn accepted(taken: u64) -> u32 {
    let mut accepted = 0;
    for (place, (_, _, count)) in ROWS.iter().enumerate() {
        if (place as u64) < taken {
            accepted = *count;
        }
    }
    accepted
}

#[test]
fn sixteen_commands_are_in_flight(rt: HostRuntime) -> Result<(), Fail> {
    let alloc = rt.alloc();
    over_layouts!(shape => {
        let mut output = Counted {
            bytes: Vec::new(alloc),
            writes: 0,
        };
        let lines = lines(alloc)?;
        let outcome = run_on_new_device(&rt, alloc, shape, lines.as_str(), &mut output)?;
        let wanted = Outcome {
            fault: Ok(()),
            taken: 17,
            count: 12,
            has_failed: false,
        };
        assert_eq!(rt; outcome, wanted);
        let Counted { bytes, writes } = output;
        assert_eq!(rt; String::from_utf8(bytes)?.as_str(), answers(alloc, 17)?.as_str());
        // The answers to the first sixteen leave by one write, before the last command is posted.
        assert_eq!(rt; writes, 2);
    });
    Ok(())
}

// The moment of the halt depends on how many letters each batch has; the answers before it don't.
#[test]
fn halt_with_commands_in_flight(rt: HostRuntime) -> Result<(), Fail> {
    let alloc = rt.alloc();
    let lines = lines(alloc)?;
    over_layouts!(shape => {
        for call in 1..40 {
            let mut heard = Vec::new(alloc);
            let outcome = run_on_faulty_device(&rt, alloc, shape, call, lines.as_str(), &mut heard)?;
            let Outcome {
                taken,
                count,
                has_failed,
                ..
            } = outcome;
            assert!(rt; has_failed || taken == 17, "{call}");
            assert_eq!(rt; count, accepted(taken), "{call}");
            assert_eq!(rt; String::from_utf8(heard)?.as_str(), answers(alloc, taken)?.as_str(), "{call}");
        }
    });
    Ok(())
}
