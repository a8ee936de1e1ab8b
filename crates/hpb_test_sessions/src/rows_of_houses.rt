//! A session on a house without connections.

use crate::in_time::run_in_time;
use crate::one_session::{Outcome, run_on_faulty_device, run_on_new_device};
use crate::outputs::Deaf;
use hpb_server::SessionFault;
use hpb_test_engine::over_layouts;
use std::test::*;

/// A session that reads to its end, whose only answer accepts a command.
const ACCEPTED: Outcome = Outcome {
    fault: Ok(()),
    taken: 1,
    count: 1,
    has_failed: false,
};

#[test]
fn session_on_a_house(rt: HostRuntime) -> Result<(), Fail> {
    let alloc = rt.alloc();
    let lines = "BID x 1 a 100\nSHOW\n";
    over_layouts!(shape => {
        let mut answers = Vec::new(alloc);
        let outcome = run_on_new_device(&rt, alloc, shape, lines, &mut answers)?;
        assert_eq!(rt; outcome, ACCEPTED);
        assert_eq!(rt;
            String::from_utf8(answers)?.as_str(),
            "OK 1\nROUND 1 STAGE 1 OPEN REVENUE 0 COUNT 1\n"
        );
    });
    Ok(())
}

/// A session that takes no answer of the house.
const NOTHING: Outcome = Outcome {
    fault: Ok(()),
    taken: 0,
    count: 0,
    has_failed: false,
};

/// Commands and questions in turn, and their answers if the device fails at the first of them.
const LINES: &str = "BID x 1 a 100\nSHOW\nBID x 1 a 100\nWHO x\nCLOSE 1\n";

const FAILED: &str = "ERR 93 failed
ROUND 1 STAGE 1 OPEN REVENUE 0 COUNT 0
ERR 93 failed
WHO x ELIGIBILITY 10 ACTIVITY 0 TICKET 0
ERR 93 failed
";

#[test]
fn session_cut_short(rt: HostRuntime) -> Result<(), Fail> {
    let alloc = rt.alloc();
    over_layouts!(shape => {
        // The input ends in the middle of a line.
        let mut answers = Vec::new(alloc);
        let outcome = run_on_new_device(&rt, alloc, shape, "BID x 1 a", &mut answers)?;
        assert_eq!(rt; outcome, NOTHING);
        assert_eq!(rt; String::from_utf8(answers)?.as_str(), "ERR 10 line\n");
        // The writer fails at its first answer.
        let outcome = run_on_new_device(&rt, alloc, shape, "BID x 1 a 100\n", &mut Deaf)?;
        let wanted = Outcome {
            fault: Err(SessionFault::Writer),
            ..ACCEPTED
        };
        assert_eq!(rt; outcome, wanted);
        // The device fails at each of the four calls of the first commit.
        let wanted = Outcome {
            has_failed: true,
            ..NOTHING
        };
        for call in 1..5 {
            let mut answers = Vec::new(alloc);
            let outcome = run_on_faulty_device(&rt, alloc, shape, call, LINES, &mut answers)?;
            assert_eq!(rt; outcome, wanted, "{call}");
            assert_eq!(rt; String::from_utf8(answers)?.as_str(), FAILED, "{call}");
        }
    });
    Ok(())
}

/// A refusal, a command that is accepted, and a refusal again.
const REFUSED: &str = "BID x 1 a 105\nBID x 1 a 100\nBID x 1 a 110\n";

// The session sleeps until it is answered: nobody but the committer wakes it.
#[test]
fn refused_session_is_woken(rt: HostRuntime) -> Result<(), Fail> {
    let alloc = rt.alloc();
    over_layouts!(shape => {
        let spoken = run_in_time(&rt, alloc, shape, REFUSED)?;
        let wanted = Outcome {
            taken: 3,
            ..ACCEPTED
        };
        assert_eq!(rt; spoken.outcome, Some(wanted));
        assert_eq!(rt;
            String::from_utf8(spoken.answers)?.as_str(),
            "ERR 21 step\nOK 1\nERR 14 ticket\n"
        );
    });
    Ok(())
}
