//! The whole messages for faults that hardly ever come. `examples/` hold those for faults that a test can cause.

use crate::*;
use hpb_disk::FileFault;
use hpb_format::FormatCause;
use hpb_recover::Cause;
use hpb_server::SessionFault;
use hpb_words::Job;
use std::alloc::{AllocError, Global};
use std::io;
use std::net::{Ipv4Addr, SocketAddr};
use std::test::Fail;

/// The facts about a job if no call of a stream failed, and no file was looked at.
fn known(job: Job<'_>) -> Known<'_> {
    Known {
        job,
        failures: Failures {
            reading: None,
            writing: None,
        },
        seen: None,
        trouble: None,
    }
}

/// The facts if a.hpb was served.
fn known_of_serving() -> Known<'static> {
    known(Job::Serve {
        file: "a.hpb",
        port: 5_000,
        sessions: 8,
    })
}

/// The message for a fault after a.hpb was served.
fn told_of(alloc: Global, fault: JobFault) -> Result<String, AllocError> {
    let advice = JobAdvice {
        fault: &fault,
        known: known_of_serving(),
    };
    format!(in alloc; "{advice}")
}

#[test]
fn faults_of_serving_are_told(rt: HostRuntime) -> Result<(), Fail> {
    let too_many = JobFault::Descriptors {
        sessions: 32,
        wanted: 38,
        error: io::Error::from_raw_os_error(libc::EMFILE),
    };
    for (fault, wanted) in [
        (
            too_many,
            "32 sessions want 38 files and connections at a time: Too many open files (os error 24): let the process have as many (ulimit -n), or give fewer to --sessions",
        ),
        (
            JobFault::Place,
            "a session has no place in memory: free some, or give fewer to --sessions",
        ),
        (
            JobFault::Order,
            "a session was given another answer than the one that it waited for, which is a fault of hpb: see what a.hpb keeps by `hpb check --file a.hpb`, and compare it with the answers",
        ),
        (
            JobFault::Counts,
            "the answers to the sessions aren't those that the file keeps, which is a fault of hpb: see what a.hpb keeps by `hpb check --file a.hpb`, and compare it with the answers",
        ),
    ] {
        assert_eq!(rt; told_of(rt.alloc(), fault)?.as_str(), wanted);
    }
    Ok(())
}

#[test]
fn faults_of_files_are_told(rt: HostRuntime) -> Result<(), Fail> {
    let denied = FileFault::System(io::Error::from_raw_os_error(libc::EACCES));
    for (fault, wanted) in [
        (
            JobFault::File(FileFault::Stream),
            "a standard stream leads to a.hpb: let it lead elsewhere",
        ),
        (
            JobFault::File(FileFault::BesideForeign),
            "a.hpb.new is another user's, and a.hpb is made by that name first: name a file in a folder that only you may write",
        ),
        (
            JobFault::File(FileFault::BesideWritable),
            "a.hpb.new may be written by others, and a.hpb is made by that name first: if no other hpb makes it now, give that one another name",
        ),
        (
            JobFault::File(FileFault::Foreign),
            "a.hpb is another user's, who could change the auction: name a file that isn't there, in a folder that only you may write",
        ),
        (
            JobFault::File(FileFault::ForeignLink),
            "a.hpb is another user's link, which may lead to any file of yours: name a file that isn't there, in a folder that only you may write",
        ),
        (
            JobFault::File(FileFault::DanglingLink),
            "a.hpb is a link that leads to no file: remove it, or name a file that isn't there",
        ),
        (
            JobFault::File(denied),
            "a.hpb could not be opened: Permission denied (os error 13): see that you may use it, and read its folder",
        ),
        (
            JobFault::Format(FormatCause::Device),
            "a.hpb could not be read, written or synced. See to its disk, and make room on a full one. Then see by `hpb check --file a.hpb` whether the file keeps the auction, and if it doesn't, try again",
        ),
        (
            JobFault::Open(Cause::Device),
            "a.hpb could not be read or synced: see to its disk, and try again",
        ),
    ] {
        assert_eq!(rt; told_of(rt.alloc(), fault)?.as_str(), wanted);
    }
    Ok(())
}

const DISK: &str =
    "the disk of a.hpb failed. All that was answered by OK is kept. See to the disk first. If it is full, make room, and the same file goes on. If it breaks, copy a.hpb to another disk, and use the copy. Then go on by `hpb serve --file a.hpb --port 5000 --sessions 8`, and send again, in their order, the commands that were answered by 93, or not at all: one that was kept gets its old number, or 13 if its sender has a later one that was kept";

const UNSAID: &str =
    "writing: nothing more was taken. All sessions have ended, and all that was answered by OK is kept. See a.hpb by `hpb check --file a.hpb`";

#[test]
fn ends_are_told(rt: HostRuntime) -> Result<(), Fail> {
    let alloc = rt.alloc();
    let known = known_of_serving();
    let mut end = RunEnd {
        end: Ok(()),
        failed: true,
        code: None,
    };
    assert_eq!(rt;
        format!(in alloc; "{}", EndAdvice { end, known })?.as_str(),
        DISK
    );
    end.end = Err(SessionFault::Writer);
    end.failed = false;
    assert_eq!(rt;
        format!(in alloc; "{}", EndAdvice { end, known })?.as_str(),
        UNSAID
    );
    Ok(())
}

#[test]
fn a_command_has_its_file_in_quotes(rt: HostRuntime) -> Result<(), Fail> {
    let known = known(Job::Run {
        file: "-it's mine",
        batch: 64,
        every: 0,
    });
    let end = RunEnd {
        end: Err(SessionFault::Memory),
        failed: false,
        code: None,
    };
    assert_eq!(rt;
        format!(in rt.alloc(); "{}", EndAdvice { end, known })?.as_str(),
        "memory was refused. All that was answered by OK is kept. Then go on by `hpb run --file './-it'\\''s mine' --batch 64 --every 0`, and send again, in their order, the lines that have no answer"
    );
    Ok(())
}

#[test]
fn a_disk_that_fails_while_it_is_served_is_told(rt: HostRuntime) -> Result<(), Fail> {
    assert_eq!(rt;
        format!(in rt.alloc(); "{}", FailedNotice("a b"))?.as_str(),
        "91 device: a call of the disk of a b failed. From now on no command is accepted, and questions are answered still. All that was answered by OK is kept. End all sessions: then it is said here why, and what to do"
    );
    Ok(())
}

#[test]
fn notices_that_are_missing_are_told(rt: HostRuntime) -> Result<(), Fail> {
    for (count, wanted) in [
        (
            1,
            "1 notice was not written: nobody read standard error, or memory was refused",
        ),
        (
            12,
            "12 notices were not written: nobody read standard error, or memory was refused",
        ),
    ] {
        assert_eq!(rt;
            format!(in rt.alloc(); "{}", MissedNotices(count))?.as_str(),
            wanted
        );
    }
    Ok(())
}

#[test]
fn each_line_of_a_fault_is_told(rt: HostRuntime) -> Result<(), Fail> {
    for (fault, line) in [
        (JobFault::Place, "ERR 94 place\n"),
        (JobFault::Order, "ERR 95 order\n"),
        (JobFault::Counts, "ERR 96 counts\n"),
    ] {
        let mut output = Noted::new(Vec::new(rt.alloc()));
        tell_job(&fault, &mut output);
        assert!(rt; !output.is_cut());
        assert_eq!(rt; output.stream.as_slice(), line.as_bytes());
    }
    Ok(())
}

/// The message for the third of eight places.
fn told_of_place(alloc: Global, state: PlaceState) -> Result<String, AllocError> {
    let notice = PlaceNotice {
        number: 3,
        places: 8,
        peer: SocketAddr::from((Ipv4Addr::LOCALHOST, 53_210)),
        state,
    };
    format!(in alloc; "{notice}")
}

#[test]
fn places_and_their_ends_are_told(rt: HostRuntime) -> Result<(), Fail> {
    let reset = Some(io::Error::from_raw_os_error(libc::ECONNRESET));
    for (state, wanted) in [
        (PlaceState::Held, "place 3 of 8 is held by 127.0.0.1:53210"),
        (
            PlaceState::Ended(Ending::Closed),
            "place 3 of 8 (127.0.0.1:53210) has ended: its connection ended",
        ),
        (
            PlaceState::Ended(Ending::Failed(SessionFault::Reader, reset)),
            "place 3 of 8 (127.0.0.1:53210) has ended: 92 stream: reading: Connection reset by peer (os error 104)",
        ),
        (
            PlaceState::Ended(Ending::Failed(SessionFault::Reader, None)),
            "place 3 of 8 (127.0.0.1:53210) has ended: 92 stream: reading: more than 1,000,000,000 bytes",
        ),
        (
            PlaceState::Ended(Ending::Failed(SessionFault::Writer, None)),
            "place 3 of 8 (127.0.0.1:53210) has ended: 92 stream: writing: nothing more was taken",
        ),
        (
            PlaceState::Ended(Ending::Failed(SessionFault::Memory, None)),
            "place 3 of 8 (127.0.0.1:53210) has ended: 90 memory: memory was refused",
        ),
        (
            PlaceState::Ended(Ending::OutOfOrder),
            "place 3 of 8 (127.0.0.1:53210) has ended: 95 order: it was given another answer than that to its command",
        ),
    ] {
        assert_eq!(rt; told_of_place(rt.alloc(), state)?.as_str(), wanted);
    }
    Ok(())
}

const SPOILED: &str =
    "a.hpb was cut, made longer or overwritten while it was in use, and may lack commands that got OK. See it by `hpb check --file a.hpb`, go back to your newest backup, and send again, in their order, the commands since then";

#[test]
fn a_file_that_others_wrote_is_told_at_the_end(rt: HostRuntime) -> Result<(), Fail> {
    let advice = MeddlingAdvice {
        known: known_of_serving(),
        meddling: Meddling::Spoiled,
    };
    assert_eq!(rt; format!(in rt.alloc(); "{advice}")?.as_str(), SPOILED);
    Ok(())
}
