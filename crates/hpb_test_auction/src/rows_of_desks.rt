//! Sessions at a desk that is asked for several commands together.
ghost use Rattle.std.specs.Prelude.{◌≡◌, ◌<◌, ◌≤◌, length};
ghost use Rattle.std.proofs.Common.{arith};

use crate::definitions::new_auction;
use crate::talks::{Counts, Lines, Talk};
use hpb_auction::Auction;
use hpb_rules::{Commands, MOST_LETTERS, Replies};
use hpb_server::{Desk, SessionFault, serve};
use hpb_tree::Definition;
use std::alloc::{AllocError, Global};
use std::cell::Cell;
use std::io::{Read, Write};
use std::process::Abort;
use std::test::Fail;

/// A desk that is asked for a number of commands together, and records how many came each time. No clause describes its
/// replies.
#[derive(Drop)]
struct BatchDesk {
    auction: Auction,
    together: usize,
    /// The number of replies after which it ends the session.
    left: usize,
    is_over: bool,
    /// How many commands were asked, each time.
    batches: Vec<usize>,
    /// The batch, from 0, for which memory is refused, and the upkeep for which it is.
    refused_batch: usize,
    refused_upkeep: usize,
    upkeeps: Cell<usize>,
}

impl Desk for BatchDesk {
    ghost use Rattle.std.specs.Prelude.{Bool, true};
    ghost use Rattle.hpb_rules.specs.Tree.{Rules};
    ghost use Rattle.hpb_rules.specs.declared.limits.TheConstants.{MOST_LETTERS};

    ghost State = { Rules × Bool };

    ghost rules = { λ d. d.auction.rules };

    ghost over = { λ d. d.is_over };

    ghost is_at = { λ d state. (state.0 ≡ d.auction.rules) × (state.1 ≡ d.is_over) };

    ghost ways = { record {
      rules = λ state. state.0;
      over = λ state. state.1;
      tells = λ state told. ⊥;
      asks = λ old command reply new. new.0 ≡ old.0;
      looks = λ old shown new. Unit {0};
      most = MOST_LETTERS;
      takes_memory = true;
      waits = true;
      most_is_some = (omega arith, omega arith);
      rules_stay = λ old new command reply stays. stays;
      replies_go_on = λ old new command reply told asked tells. absurd tells;
      shows_go_on = λ old new shown told looked tells. absurd tells;
    } };

    ghost rules_are = { λ d state at. at.0 };

    ghost over_is = { λ d state at. at.1 };

    fn definition(&self) -> &Definition {
        self.auction.definition()
    }

    fn is_over(&self) -> bool {
        self.is_over
    }

    fn most_asked(&self) -> usize {
        self.together.clamp(1, MOST_LETTERS)
    }

    fn waits_when_asked(&self) -> bool {
        true
    }

    fn ask(&mut self, _alloc: Global, commands: &Commands) -> Result<Replies, AllocError> {
        if self.is_over {
            return Ok(Replies::new());
        }
        if self.batches.len() == self.refused_batch {
            return Err(AllocError);
        }
        let _ = self.batches.push(commands.len());
        let replies = apply_some(&mut self.auction, commands, self.left.max(1));
        if replies.len() < commands.len() {
            self.is_over = true;
            return Ok(replies);
        }
        self.left = self.left.saturating_sub(replies.len());
        self.is_over = self.left == 0;
        Ok(replies)
    }

    fn upkeep(&mut self, _alloc: Global) -> Result<(), AllocError> {
        let upkeeps = self.upkeeps.get();
        self.upkeeps.set(upkeeps.saturating_add(1));
        if upkeeps == self.refused_upkeep {
            return Err(AllocError);
        }
        Ok(())
    }

    fn look(&mut self) -> Option<&Auction> {
        Some(&self.auction)
    }
}

/// Applies commands one after another, at most `most`.
fn apply_some(auction: &mut Auction, commands: &Commands, most: usize) -> Replies
    requires { 0 < most }
    ensures some { 0 < length commands.now → 0 < length result }
    ensures each { length result ≤ length commands.now }
    ensures rules { auction.new.rules ≡ auction.old.rules }
{
    let mut replies = Replies::new();
    for command in commands.as_slice() {
        if replies.len() < most {
            let _ = replies.push(auction.apply(command));
        }
    }
    replies
}

/// A desk that is asked for `together` commands together. It ends after a number of replies, and is refused memory for
/// a given batch or upkeep.
fn desk_with(
    alloc: Global,
    together: usize,
    left: usize,
    refused_batch: usize,
    refused_upkeep: usize,
) -> Result<Box<BatchDesk>, Fail> {
    let desk = BatchDesk {
        auction: Box::into_inner(new_auction(alloc)?),
        together,
        left,
        is_over: false,
        batches: Vec::new(alloc),
        refused_batch,
        refused_upkeep,
        upkeeps: Cell::new(0),
    };
    Ok(Box::new(alloc, desk)?)
}

/// A desk that is asked for `together` commands together, without an end or a refusal.
fn desk(alloc: Global, together: usize) -> Result<Box<BatchDesk>, Fail> {
    desk_with(alloc, together, usize::MAX, usize::MAX, usize::MAX)
}

/// Three commands, a question, a command, a refused line, and two commands.
const LINES: &[u8] =
    b"BID x 1 a 100\nBID y 1 b 150\nBID z 1 c 100\nSHOW\nBID w 1 d 100\nHIDE\nBID w 1 d 100\nCLOSE 1\n";

/// The text that is written once a number of these lines are answered.
const FRONTS: [&[u8]; 9] = [
    b"",
    b"OK 1\n",
    b"OK 1\nOK 2\n",
    b"OK 1\nOK 2\nOK 3\n",
    b"OK 1\nOK 2\nOK 3\nROUND 1 STAGE 1 OPEN REVENUE 0 COUNT 3\n",
    b"OK 1\nOK 2\nOK 3\nROUND 1 STAGE 1 OPEN REVENUE 0 COUNT 3\nOK 4\n",
    b"OK 1\nOK 2\nOK 3\nROUND 1 STAGE 1 OPEN REVENUE 0 COUNT 3\nOK 4\nERR 10 line\n",
    b"OK 1\nOK 2\nOK 3\nROUND 1 STAGE 1 OPEN REVENUE 0 COUNT 3\nOK 4\nERR 10 line\nOK 4\n",
    b"OK 1\nOK 2\nOK 3\nROUND 1 STAGE 1 OPEN REVENUE 0 COUNT 3\nOK 4\nERR 10 line\nOK 4\nOK 5\n",
];

/// Serves all lines of a reader.
fn serve_all<R: Read, W: Write>(
    alloc: Global,
    reader: &mut R,
    writer: &mut W,
    desk: &mut BatchDesk,
) -> Result<(), SessionFault> {
    serve(alloc, reader, writer, desk)
}

/// Serves the lines at once. Returns how the session ended, and the text that was written.
fn serve_lines(alloc: Global, desk: &mut BatchDesk) -> (Result<(), SessionFault>, Vec<u8>) {
    let mut reader = LINES;
    let mut written = Vec::new(alloc);
    let result = serve_all(alloc, &mut reader, &mut written, desk);
    (result, written)
}

/// Checks a desk that ends after a number of replies, and is refused memory for this batch or this upkeep. Its session
/// must end in this way, with this many lines answered.
fn end_so(
    rt: &impl Abort,
    alloc: Global,
    (together, left, batch, upkeep): (usize, usize, usize, usize),
    end: Result<(), SessionFault>,
    lines: usize,
) -> Result<(), Fail> {
    let mut desk = desk_with(alloc, together, left, batch, upkeep)?;
    let (result, written) = serve_lines(alloc, &mut *desk);
    assert_eq!(rt; result, end, "{together} {lines}");
    assert_eq!(rt;
        Some(written.as_slice()),
        FRONTS.get(lines).copied(),
        "{together} {lines}"
    );
    Ok(())
}

/// Serves a reader, and counts the lines and calls of its writer.
fn serve_counted<R: Read>(
    alloc: Global,
    reader: &mut R,
    talk: &Talk,
    desk: &mut BatchDesk,
) -> Result<(), SessionFault> {
    serve_all(alloc, reader, &mut Counts { talk }, desk)
}

/// Checks that a desk that is asked for a number of commands together gets that many each time. The answers are written
/// as often: before each batch but the first, and at the end.
fn leave_together(
    rt: &impl Abort,
    alloc: Global,
    together: usize,
    batches: &[usize],
) -> Result<(), Fail> {
    let mut desk = desk(alloc, together)?;
    let talk = Talk::new();
    let mut reader = LINES;
    let result = serve_counted(alloc, &mut reader, &talk, &mut *desk);
    assert_eq!(rt; result, Ok(()), "{together}");
    assert_eq!(rt; desk.batches.as_slice(), batches, "{together}");
    assert_eq!(rt; talk.writes.get(), batches.len(), "{together}");
    assert_eq!(rt; talk.flushed.get(), 8, "{together}");
    Ok(())
}

/// How many commands are asked together at most, and the sizes of the batches that follow: a batch ends when it is
/// full, and before any other line.
const BATCHES: [(usize, &[usize]); 4] = [
    (1, &[1, 1, 1, 1, 1, 1]),
    (2, &[2, 1, 1, 2]),
    (3, &[3, 1, 2]),
    (64, &[3, 1, 2]),
];

#[test]
fn answers_leave_batch_by_batch(rt: HostRuntime) -> Result<(), Fail> {
    for (together, batches) in BATCHES {
        leave_together(&rt, rt.alloc(), together, batches)?;
    }
    Ok(())
}

/// No command waits when more is read, and the desk does its upkeep before each read.
#[test]
fn a_queue_is_asked_before_more_is_read(rt: HostRuntime) -> Result<(), Fail> {
    let mut desk = desk(rt.alloc(), 64)?;
    let talk = Talk::new();
    let mut reader = Lines {
        talk: &talk,
        rest: LINES,
    };
    let result = serve_counted(rt.alloc(), &mut reader, &talk, &mut *desk);
    assert_eq!(rt; result, Ok(()));
    assert!(rt; !talk.early.get());
    assert_eq!(rt; talk.flushed.get(), 8);
    assert_eq!(rt; desk.batches.as_slice(), [1, 1, 1, 1, 1, 1].as_slice());
    assert_eq!(rt; desk.upkeeps.get(), 9);
    Ok(())
}

#[test]
fn a_desk_ends_in_the_midst_of_a_batch(rt: HostRuntime) -> Result<(), Fail> {
    for (left, lines) in [(1, 1), (2, 2), (3, 3), (4, 5), (5, 7), (6, 8)] {
        for together in [1, 2, 64] {
            let desk = (together, left, usize::MAX, usize::MAX);
            end_so(&rt, rt.alloc(), desk, Ok(()), lines)?;
        }
    }
    Ok(())
}

#[test]
fn memory_is_refused_to_a_desk(rt: HostRuntime) -> Result<(), Fail> {
    let refused = Err(SessionFault::Memory);
    for (batch, lines) in [(0, 0), (1, 2), (2, 4), (3, 6)] {
        let desk = (2, usize::MAX, batch, usize::MAX);
        end_so(&rt, rt.alloc(), desk, refused, lines)?;
    }
    // The upkeep comes before each read and at the end: memory is refused for the first one, when nothing is answered,
    // and for the second, when all is.
    for (upkeep, lines) in [(0, 0), (1, 8)] {
        let desk = (2, usize::MAX, usize::MAX, upkeep);
        end_so(&rt, rt.alloc(), desk, refused, lines)?;
    }
    Ok(())
}
