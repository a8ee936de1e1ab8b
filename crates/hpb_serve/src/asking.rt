//! Commands of a session that are sent together: posts them, and waits for their answers.
ghost use Rattle.std.specs.Prelude.{◌≡◌, ◌⊎◌, ◌+◌, ◌-◌, ◌<◌, ◌≤◌, [], ◌∷◌, ◌++◌, List, length, take, true, false, None, Some, IfOk, IsOk, IsErr, IsSome, MatchOption, Ok, Err};
ghost use Rattle.rtrb.specs.Ring.{SameProducer, sent};
ghost use Rattle.hpb_board.specs.Publication.{answers_of, recent};
ghost use Rattle.hpb_rules.specs.declared.command.Command.{Command};
ghost use Rattle.hpb_rules.specs.declared.limits.TheConstants.{MOST_LETTERS, MOST_WAITING};
ghost use Rattle.hpb_server.specs.Desk.{AsksAll};
ghost use Rattle.hpb_serve.specs.InFlight.{CameFrom, HasLooked, HasTaken, StillWaits, refused_after, refused_by, waiting_for};
ghost use Rattle.hpb_serve.specs.Sessions.{DeskStands, State};
ghost use Rattle.hpb_serve.specs.Telling.{house_ways};
ghost use Rattle.hpb_serve.specs.declared.stop.Stop.TheVariants.{Halted, Order};
ghost use Rattle.hpb_serve.specs.Stops.{IsInOrder};

use crate::stop::Stop;
use hpb_rings::Client;
use hpb_rules::{Answer, Command, Letter, MOST_LETTERS, MOST_WAITING, Refusal, Replies, Reply};
use std::sync::Wait;
use std::thread;

/// Posts a client's commands together, the oldest first, and then takes their answers in that order. If the client is
/// halted, it stops posting.
///
/// It looks for each answer `looks` times, and other threads run between two looks. Then it sleeps until the bell of
/// its seat rings.
///
/// The replies go into `replies`. If a command gets no answer, the result says why. After a halt, that command and each
/// one behind it are refused. If an answer comes out of order, its command gets 95 `order`, and none behind it gets a
/// reply.
pub(crate) fn ask_client<M: Copy, R: Wait>(
    rt: &R,
    client: &mut Client<M>,
    commands: &[Command],
    looks: u32,
    replies: &mut Replies,
) -> Option<Stop>
    requires some { 0 < length commands.now }
    requires most { length commands.now ≤ MOST_WAITING }
    requires idle { client.old.waiting.items ≡ [] }
    requires none { replies.old ≡ [] }
    ensures asked { (state : State) → DeskStands client.old None state
        → (next : State) × AsksAll house_ways state commands.now replies.new next × DeskStands client.new result next }
    ensures opened { client.new.viewer.opened ≡ client.old.viewer.opened }
    ensures idle { result ≡ None → client.new.waiting.items ≡ [] }
    ensures halted { result ≡ Some Halted → client.new.is_halted ≡ true }
    // All posted letters are answered, or the next answer isn't there.
    ensures unanswered { result ≡ Some Halted → (client.new.waiting.items ≡ []) ⊎ (recent (answers_of client.new.seat client.new.viewer) (client.new.taken + 1) ≡ None) }
    ensures order { result ≡ Some Order → IsInOrder client.new.seat client.new.viewer client.new.taken client.new.waiting.items → ⊥ }
    // A halted client posts nothing.
    ensures silent { client.old.is_halted ≡ true → sent client.new.letters ≡ sent client.old.letters }
{
    let posted = post_letters(rt, client, commands);
    if let Some(stop) = take_answers(rt, client, looks, replies) {
        refuse_rest(stop, commands.len(), replies);
        return Some(stop);
    }
    if posted < commands.len() {
        refuse_rest(Stop::Halted, commands.len(), replies);
        return Some(Stop::Halted);
    }
    None
}

/// Posts letters with commands, in order. If the client is halted, it stops. Returns how many it posted.
fn post_letters<M: Copy, R: Wait>(rt: &R, client: &mut Client<M>, commands: &[Command]) -> usize
    requires most { length commands.now ≤ MOST_WAITING }
    requires idle { client.old.waiting.items ≡ [] }
    ensures same { (client.new.seat ≡ client.old.seat) × (client.new.viewer ≡ client.old.viewer) × (client.new.mark ≡ client.old.mark) }
    ensures ring { SameProducer client.old.letters client.new.letters }
    ensures posted { client.new.waiting.items ≡ waiting_for client.old.seat client.old.mark (take result commands.now) }
    ensures most { result ≤ length commands.now }
    ensures halted { result < length commands.now → client.new.is_halted ≡ true }
    ensures silent { client.old.is_halted ≡ true → sent client.new.letters ≡ sent client.old.letters }
{
    for (place, command) in commands.iter().enumerate() {
        if post_letter(rt, client, command).is_err() {
            return place;
        }
    }
    commands.len()
}

/// Posts a letter with a command, as soon as the ring has a free place. Refused if the client is halted.
fn post_letter<M: Copy, R: Wait>(
    rt: &R,
    client: &mut Client<M>,
    command: &Command,
) -> Result<(), Stop>
    requires room { length client.old.waiting.items < MOST_WAITING }
    ensures same { (client.new.seat ≡ client.old.seat) × (client.new.viewer ≡ client.old.viewer) × (client.new.mark ≡ client.old.mark) }
    ensures ring { SameProducer client.old.letters client.new.letters }
    ensures posted { IsOk result → client.new.waiting.items ≡ client.old.waiting.items ++ record { letter = record { seat = client.old.seat; command = command.now }; mark = client.old.mark } ∷ [] }
    ensures halted { IsErr result → (result ≡ Err Halted) × (client.new.is_halted ≡ true) × (client.new.waiting.items ≡ client.old.waiting.items) × (sent client.new.letters ≡ sent client.old.letters) }
    ensures silent { client.old.is_halted ≡ true → IsErr result }
{
    let seat = client.seat;
    for _ in rt.forever() {
        if client.halted() {
            return Err(Stop::Halted);
        }
        let letter = Letter {
            seat,
            command: *command,
        };
        if client.post(letter).is_ok() {
            return Ok(());
        }
        thread::yield_now();
    }
    unreachable!()
}

/// Takes the answers to all letters that wait, in order, and puts their replies into `replies`. If one gets no answer,
/// the result says why, and it takes no more.
fn take_answers<M: Copy, R: Wait>(
    rt: &R,
    client: &mut Client<M>,
    looks: u32,
    replies: &mut Replies,
) -> Option<Stop>
    requires most { length client.old.waiting.items ≤ MOST_WAITING }
    requires none { replies.old ≡ [] }
    ensures asked { (commands : List Command) (state : State) → client.old.waiting.items ≡ waiting_for client.old.seat client.old.mark commands → CameFrom state client.old
        → (next : State) × AsksAll house_ways state (take (length replies.new) commands) replies.new next × CameFrom next client.new
        × (0 < length replies.new → result ≡ None → DeskStands client.new None next) }
    ensures looked { HasLooked client.old client.new }
    ensures all { result ≡ None → (client.new.waiting.items ≡ []) × (length replies.new ≡ length client.old.waiting.items) }
    ensures fewer { IsSome result → length replies.new < length client.old.waiting.items }
    ensures halted { result ≡ Some Halted → client.new.is_halted ≡ true }
    ensures unanswered { result ≡ Some Halted → recent (answers_of client.new.seat client.new.viewer) (client.new.taken + 1) ≡ None }
    ensures order { result ≡ Some Order → IsInOrder client.new.seat client.new.viewer client.new.taken client.new.waiting.items → ⊥ }
{
    for _ in 0..client.outstanding() {
        match take_answer(rt, client, looks) {
            Ok(answer) => put(replies, answer.reply),
            Err(stop) => return Some(stop),
        }
    }
    None
}

/// Appends a reply.
fn put(replies: &mut Replies, reply: Reply)
    requires { length replies.old < MOST_LETTERS }
    ensures { replies.new ≡ replies.old ++ reply ∷ [] }
{
    let _ = replies.push(reply);
}

/// Refuses those of `count` commands that have no reply yet; the first of them got no answer. If the client is halted,
/// it refuses all of them. Otherwise it refuses the first alone, which ends the session.
fn refuse_rest(stop: Stop, count: usize, replies: &mut Replies)
    requires some { length replies.old < count }
    requires most { count ≤ MOST_LETTERS }
    ensures { replies.new ≡ replies.old ++ refused_by stop (count - length replies.old) }
{
    match stop {
        Stop::Halted => refuse_all(count - replies.len(), replies),
        Stop::Order => put(replies, Reply::Refused(Refusal::Order)),
    }
}

/// The replies to `count` commands that come behind one without an answer. If the client is halted, each is refused.
/// Otherwise the session is over, and none gets a reply.
pub(crate) fn refuse_later(stop: Stop, count: usize) -> Replies
    requires { count ≤ MOST_LETTERS }
    ensures { result ≡ refused_after stop count }
{
    let mut replies = Replies::new();
    match stop {
        Stop::Halted => {
            refuse_all(count, &mut replies);
            replies
        }
        Stop::Order => replies,
    }
}

/// Appends 93 `failed` this many times.
fn refuse_all(count: usize, replies: &mut Replies)
    requires { length replies.old + count ≤ MOST_LETTERS }
    ensures { replies.new ≡ replies.old ++ refused_by Halted count }
{
    for _ in 0..count {
        put(replies, Reply::Refused(Refusal::Failed));
    }
}

/// Takes the answer to the oldest letter that waits. If the client's view has none yet, it yields or sleeps before each
/// look.
///
/// Refused with `Halted` if the first look after a halt finds no answer. Refused with `Order` if an answer is for
/// another letter, or is older than the client's knowledge when it posted the letter.
///
/// It checks for a halt before each look, so that look finds every answer that came before the halt.
fn take_answer<M: Copy, R: Wait>(rt: &R, client: &mut Client<M>, looks: u32) -> Result<Answer, Stop>
    ensures looked { HasLooked client.old client.new }
    ensures taken { IfOk result (HasTaken client.old client.new) }
    ensures halted { result ≡ Err Halted → client.new.is_halted ≡ true }
    ensures unanswered { result ≡ Err Halted → recent (answers_of client.new.seat client.new.viewer) (client.new.taken + 1) ≡ None }
    ensures order { result ≡ Err Order → IsInOrder client.new.seat client.new.viewer client.new.taken client.new.waiting.items → ⊥ }
{
    if let Some(answer) = take_seen(client)? {
        return Ok(answer);
    }
    let mut left = looks;
    for _ in rt.forever() {
        let was_halted = client.halted();
        left = yield_or_sleep(rt, client, left);
        if let Some(answer) = look_behind(client, was_halted)? {
            return Ok(answer);
        }
    }
    unreachable!()
}

/// Waits before a look, and returns how many looks are left after it. It lets other threads run; if no look is left, it
/// sleeps until the bell of its seat rings. A halted client does neither, since nothing may ring that bell any more.
fn yield_or_sleep<M: Copy, R: Wait>(rt: &R, client: &mut Client<M>, left: u32) -> u32
    ensures same { (client.new.seat ≡ client.old.seat) × (client.new.letters ≡ client.old.letters) × (client.new.viewer ≡ client.old.viewer) × (client.new.waiting ≡ client.old.waiting) × (client.new.taken ≡ client.old.taken) × (client.new.mark ≡ client.old.mark) × (client.new.is_halted ≡ client.old.is_halted) }
    ensures fewer { client.old.is_halted ≡ false → result ≡ left - 1 }
{
    if client.is_halted {
        return left;
    }
    if left == 0 {
        client.wait(rt);
        return 0;
    }
    thread::yield_now();
    left - 1
}

/// Looks once for the answer to the oldest letter that waits. `was_halted` says whether the client was halted before
/// this look. If it was, and the look finds no answer, none will come.
fn look_behind<M: Copy>(client: &mut Client<M>, was_halted: bool) -> Result<Option<Answer>, Stop>
    requires asked { was_halted ≡ true → client.old.is_halted ≡ true }
    ensures looked { HasLooked client.old client.new }
    ensures taken { IfOk result (λ found. MatchOption found (StillWaits client.old client.new) (HasTaken client.old client.new)) }
    ensures halted { result ≡ Err Halted → was_halted ≡ true }
    ensures unanswered { result ≡ Err Halted → recent (answers_of client.new.seat client.new.viewer) (client.new.taken + 1) ≡ None }
    ensures none { result ≡ Ok None → was_halted ≡ false }
    ensures order { result ≡ Err Order → IsInOrder client.new.seat client.new.viewer client.new.taken client.new.waiting.items → ⊥ }
{
    client.refresh();
    match take_seen(client)? {
        None if was_halted => Err(Stop::Halted),
        found => Ok(found),
    }
}

/// Takes the answer to the oldest letter that waits, if the client's last view has it.
fn take_seen<M: Copy>(client: &mut Client<M>) -> Result<Option<Answer>, Stop>
    ensures looked { HasLooked client.old client.new }
    ensures same { (client.new.viewer ≡ client.old.viewer) × (client.new.is_halted ≡ client.old.is_halted) }
    ensures taken { IfOk result (λ found. MatchOption found (StillWaits client.old client.new) (HasTaken client.old client.new)) }
    ensures none { result ≡ Ok None → recent (answers_of client.new.seat client.new.viewer) (client.new.taken + 1) ≡ None }
    ensures order { IsErr result → (result ≡ Err Order) × (IsInOrder client.new.seat client.new.viewer client.new.taken client.new.waiting.items → ⊥) }
{
    match client.take() {
        Ok(found) => Ok(found),
        Err(_) => Err(Stop::Order),
    }
}
