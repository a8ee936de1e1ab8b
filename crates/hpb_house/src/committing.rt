//! The worker that commits letters.
ghost use Rattle.std.specs.Prelude.{◌≡◌, ℕ, ◌<◌, ◌≤◌, [], List, All, length, vec_len, true};
ghost use Rattle.rtrb.specs.Ring.{sent, received};
ghost use Rattle.hpb_rules.specs.declared.command.Command.{Command};
ghost use Rattle.hpb_rules.specs.declared.letter.Letter.{Letter};
ghost use Rattle.hpb_rings.specs.Gathering.{gathered, halts};
ghost use Rattle.hpb_rings.specs.Slips.{ends};
ghost use Rattle.hpb_house.specs.Committing.{Comes, IsSettled};
ghost use Rattle.hpb_house.specs.Owing.{IsOwed};
ghost use Rattle.hpb_house.specs.declared.committing.AfterTurn.TheVariants.{Ended as End, Free};

use crate::gate::{Gate, Point};
use crate::house::House;
use crate::incoming::{Incoming, Settled};
use crate::keeper::Halt;
use crate::naming::Naming;
use crate::offered::{Offered, Reason};
use crate::over::Over;
use hpb_board::Front;
use hpb_disk::Disk;
use hpb_engine::Step;
use hpb_rings::Intake;
use hpb_rules::{Answers, Letters, MOST_LETTERS};
use std::sync::Wait;
use std::thread;
use std::thread::Parker;
use std::time::Duration;

/// How long the committer waits before it offers letters again that were handed back for want of memory or of room on
/// the board, in milliseconds.
const AGAIN_AFTER: u64 = 1;

/// How often the committer looks for expected letters, at most. Other threads run between two looks.
const LOOKS: u32 = 100;

/// How many looks in a row may find no other letter if some wait already: those are not to wait long beside much other
/// work.
const FEW_LOOKS: u32 = 20;

/// The values that the committer works with.
#[derive(Drop)]
struct Work {
    /// Its side of the rings.
    intake: Intake<Halt>,
    /// Its front of the list.
    front: Front,
}

/// The result of a turn of the committer.
#[derive(Drop)]
enum AfterTurn {
    /// It holds no letters, and expects this many: those that wait, and one more for each letter that was answered.
    Free { expected: usize },
    /// It holds letters that it will offer again.
    Held(Letters),
    /// The engine has failed.
    Halted(Halt),
    /// Every seat has sent its end mark.
    Ended,
}

/// Commits letters: gathers those that wait, offers them as one batch, and makes the steps of its commit. It takes the
/// lock for one step at a time. It may wait.
///
/// With nothing to do it waits for its bell. If more letters are expected, since their senders were just answered, it
/// looks for them first: 100 times at most. If letters wait already, it stops after 20 looks in a row that find no
/// other.
///
/// Letters that are handed back for want of a clean frame, of memory or of room on the board are offered again. Once
/// the engine has failed, it sends a `Halt` to each seat, and from then on only empties the rings. It ends when every
/// seat has sent its end mark, and then the checkpointer ends too.
///
/// At its end all letters that came are on the list, in the order of their seat, each once. After a halt some may be
/// missing: those still held when it was sent to each seat, and those that came later.
pub fn committer<D: Disk + Drop, W: Wait + Drop, J: Naming, G: Gate, R: Wait>(
    rt: &R,
    house: &House<D, W, J>,
    incoming: Incoming<J>,
    gate: &G,
) -> Settled
    ensures { IsSettled J.eye result }
{
    let Incoming { intake, front, .. } = incoming;
    let mut work = Work { intake, front };
    let mut held = Letters::new();
    let mut awaited = 0;
    for _ in rt.forever() {
        if held.len() == 0 {
            await_letters(&mut work.intake, awaited);
        }
        match turn(rt, house, &mut work, gate, held) {
            AfterTurn::Free { expected } => {
                held = Letters::new();
                awaited = expected;
            }
            AfterTurn::Held(letters) => held = letters,
            AfterTurn::Halted(halt) => {
                let Work { mut intake, front } = work;
                intake.halt(halt);
                drain(rt, house, &mut intake, gate);
                house.dismiss(rt, Over::of(&intake));
                return Settled { intake, front };
            }
            AfterTurn::Ended => {
                let Work { intake, front } = work;
                house.dismiss(rt, Over::of(&intake));
                return Settled { intake, front };
            }
        }
    }
    unreachable!()
}

/// Looks for letters until as many wait as are expected, or until it has looked in vain often enough.
fn await_letters(intake: &mut Intake<Halt>, expected: usize)
    ensures same { (gathered intake.new.rings.items ≡ gathered intake.old.rings.items)
        × (halts intake.new.rings.items ≡ halts intake.old.rings.items) × (vec_len intake.new.rings ≡ vec_len intake.old.rings) }
{
    let mut most = 0;
    let mut left = LOOKS;
    for _ in 0..LOOKS {
        let waiting = intake.waiting();
        if waiting >= expected || left == 0 {
            return;
        }
        if waiting > most {
            most = waiting;
            left = FEW_LOOKS;
        }
        left -= 1;
        thread::yield_now();
    }
}

/// One turn: offers and commits the letters that are held, or else those that wait.
fn turn<D: Disk + Drop, W: Wait + Drop, J: Naming, G: Gate, R: Wait>(
    rt: &R,
    house: &House<D, W, J>,
    work: &mut Work,
    gate: &G,
    held: Letters,
) -> AfterTurn
    requires book { work.old.front.trail.book ≡ J.eye.book }
    requires owed { IsOwed (gathered work.old.intake.rings.items) work.old.front.trail.log held }
    ensures rings { vec_len work.new.intake.rings ≡ vec_len work.old.intake.rings }
    ensures book { work.new.front.trail.book ≡ J.eye.book }
    ensures comes { Comes result (gathered work.new.intake.rings.items) work.new.front.trail.log }
    ensures ended { result ≡ End → All (λ r. ends (received r.letters) ≡ true) work.new.intake.rings.items }
{
    let letters = held_or_waiting(rt, &mut work.intake, gate, held);
    if letters.len() == 0 {
        return idle(rt, house, &work.intake);
    }
    match house.offer(rt, letters, &mut work.front) {
        Offered::InFlight => commit(rt, house, &mut work.intake, gate),
        Offered::Answered(answers) => {
            let after = expecting(&mut work.intake, &answers);
            wake_answered(&work.intake, &answers);
            after
        }
        Offered::Back(letters, reason) => hold(rt, house, letters, reason),
    }
}

/// The letters that are held, or else those that wait.
fn held_or_waiting<G: Gate, R: Wait>(
    rt: &R,
    intake: &mut Intake<Halt>,
    gate: &G,
    held: Letters,
) -> Letters
    ensures rings { vec_len intake.new.rings ≡ vec_len intake.old.rings }
    ensures owed { (list : List (List Letter)) → IsOwed (gathered intake.old.rings.items) list held → IsOwed (gathered intake.new.rings.items) list result }
{
    if held.len() > 0 {
        return held;
    }
    let letters = intake.gather();
    gate.at(rt, Point::Gathered);
    letters
}

/// With nothing to offer: ends if every seat has, and otherwise waits for its bell.
fn idle<D: Disk + Drop, W: Wait + Drop, J: Naming, R: Wait>(
    rt: &R,
    house: &House<D, W, J>,
    intake: &Intake<Halt>,
) -> AfterTurn
    ensures comes { (list : List (List Letter)) → IsOwed (gathered intake.now.rings.items) list [] → Comes result (gathered intake.now.rings.items) list }
    ensures ended { result ≡ End → All (λ r. ends (received r.letters) ≡ true) intake.now.rings.items }
{
    if intake.all_ended() {
        return AfterTurn::Ended;
    }
    if let Some(halt) = house.halt(rt) {
        return AfterTurn::Halted(halt);
    }
    house.committing.park(rt);
    AfterTurn::Free { expected: 0 }
}

/// Makes the steps of a commit.
fn commit<D: Disk + Drop, W: Wait + Drop, J: Naming, G: Gate, R: Wait>(
    rt: &R,
    house: &House<D, W, J>,
    intake: &mut Intake<Halt>,
    gate: &G,
) -> AfterTurn
    ensures rings { vec_len intake.new.rings ≡ vec_len intake.old.rings }
    ensures comes { (list : List (List Letter)) → IsOwed (gathered intake.old.rings.items) list [] → Comes result (gathered intake.new.rings.items) list }
    ensures goes_on { result ≡ End → ⊥ }
{
    for _ in rt.forever() {
        match house.commit(rt) {
            Ok(Step::Went) => gate.at(rt, Point::BetweenTurns),
            Ok(Step::Idle) => return AfterTurn::Free { expected: 0 },
            Ok(Step::Done(answers)) => {
                let after = expecting(intake, &answers);
                wake_answered(intake, &answers);
                gate.at(rt, Point::Committed);
                return after;
            }
            Err(_) => return halted(rt, house, AfterTurn::Free { expected: 0 }),
        }
    }
    unreachable!()
}

/// It is free, and expects one more letter for each of these answers.
fn expecting(intake: &mut Intake<Halt>, answers: &Answers) -> AfterTurn
    ensures expects { (expected : ℕ) → result ≡ Free expected → length answers.now ≤ expected }
    ensures rings { vec_len intake.new.rings ≡ vec_len intake.old.rings }
    ensures comes { (list : List (List Letter)) → IsOwed (gathered intake.old.rings.items) list [] → Comes result (gathered intake.new.rings.items) list }
    ensures goes_on { result ≡ End → ⊥ }
{
    let expected = intake
        .waiting()
        .saturating_add(answers.len())
        .min(MOST_LETTERS);
    AfterTurn::Free { expected }
}

/// Waits until letters can be offered again.
fn hold<D: Disk + Drop, W: Wait + Drop, J: Naming, R: Wait>(
    rt: &R,
    house: &House<D, W, J>,
    letters: Letters,
    reason: Reason,
) -> AfterTurn
    ensures comes { (came : List (List Command)) (list : List (List Letter)) → IsOwed came list letters → Comes result came list }
    ensures goes_on { result ≡ End → ⊥ }
{
    match reason {
        Reason::Failed => return halted(rt, house, AfterTurn::Held(letters)),
        // A checkpoint that becomes whole rings the bell.
        Reason::Full => {
            house.checkpointing.unpark();
            house.committing.park(rt);
        }
        // Nobody rings this bell: the wait lasts its full time.
        Reason::Busy | Reason::Spent | Reason::Memory => {
            Parker::new().park_timeout(rt, Duration::from_millis(AGAIN_AFTER));
        }
    }
    AfterTurn::Held(letters)
}

/// The halt if the engine has failed, and otherwise the given result.
fn halted<D: Disk + Drop, W: Wait + Drop, J: Naming, R: Wait>(
    rt: &R,
    house: &House<D, W, J>,
    other: AfterTurn,
) -> AfterTurn
    requires goes_on { other ≡ End → ⊥ }
    ensures comes { (came : List (List Command)) (list : List (List Letter)) → Comes other came list → Comes result came list }
    ensures goes_on { result ≡ End → ⊥ }
{
    // The checkpointer is to end with the halt at once, and not only at its next bell.
    house.checkpointing.unpark();
    match house.halt(rt) {
        Some(halt) => AfterTurn::Halted(halt),
        None => other,
    }
}

/// Empties the rings until every seat has sent its end mark. It wakes each seat whose letters were taken, since its
/// ring now has room for its end mark.
fn drain<D: Disk + Drop, W: Wait + Drop, J: Naming, G: Gate, R: Wait>(
    rt: &R,
    house: &House<D, W, J>,
    intake: &mut Intake<Halt>,
    gate: &G,
)
    requires told { All (λ r. length (sent r.halts) ≡ 1) intake.old.rings.items }
    ensures rings { vec_len intake.new.rings ≡ vec_len intake.old.rings }
    ensures told { All (λ r. length (sent r.halts) ≡ 1) intake.new.rings.items }
    ensures ended { All (λ r. ends (received r.letters) ≡ true) intake.new.rings.items }
    ensures lost { (list : List (List Letter)) (lost : List Letter) → IsOwed (gathered intake.old.rings.items) list lost → (more : List Letter) × IsOwed (gathered intake.new.rings.items) list more }
{
    for _ in rt.forever() {
        let letters = intake.gather();
        gate.at(rt, Point::Gathered);
        if intake.all_ended() {
            return;
        }
        if letters.len() == 0 {
            house.committing.park(rt);
        }
        for letter in letters.as_slice() {
            wake(intake, letter.seat);
        }
    }
    unreachable!()
}

/// Rings the bell of each seat that was answered, once for answers of a seat that stand side by side.
fn wake_answered(intake: &Intake<Halt>, answers: &Answers) {
    let mut woken = None;
    for answer in answers.as_slice() {
        let seat = answer.letter.seat;
        if woken != Some(seat) {
            wake(intake, seat);
            woken = Some(seat);
        }
    }
}

/// Rings the bell of a seat.
fn wake(intake: &Intake<Halt>, seat: u8) {
    if usize::from(seat) < intake.rings.len() {
        intake.wake(seat);
    }
}
