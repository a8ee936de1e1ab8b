ghost use Rattle.std.specs.Prelude.{◌≡◌, ◌<◌, ◌≤◌, ℕ, Bool, true, false, List, [], ◌∷◌, ◌++◌, take, None, Ok, IfOk, IfSome, OnOk, length};
ghost use Rattle.std.specs.Result.{IsErr};
ghost use Rattle.hpb_rules.specs.declared.command.Command.{Command};
ghost use Rattle.hpb_rules.specs.declared.reply.Reply.{Reply as Answered};
ghost use Rattle.hpb_rules.specs.Lines.{request_of};
ghost use Rattle.hpb_rules.specs.Text.{line_of};
ghost use Rattle.hpb_rules.specs.declared.request.Request.TheVariants as requests;
ghost use Rattle.hpb_wire.specs.Requests.{IsRequestOf};
ghost use Rattle.hpb_wire.specs.Responses.{Adds, text_of};
ghost use Rattle.hpb_server.specs.Desk.{LooksStay, Moves};
ghost use Rattle.hpb_server.specs.Fault.{lines_of};
ghost use Rattle.hpb_server.specs.DeskLaws.{GoesOn};
ghost use Rattle.hpb_server.specs.Reading.{size_of, FindsEnd, HasNoEnd};
ghost use Rattle.hpb_server.specs.Serving.{Serves};
ghost use Rattle.hpb_server.specs.Streams.{streams};
ghost use Rattle.hpb_server.specs.Telling.{ExplainsAt, TellsReply};
ghost use Rattle.hpb_server.specs.Session.{asked_for, replies_text, view_in, AddsAnswer, Ends, IsQuestion, Passes, PassesLine, PassesRequests, Proceeds};

use crate::desk::Desk;
use crate::fault::SessionFault;
use crate::input::Input;
use crate::line::{KEPT_BYTES, Line};
use crate::output::Output;
use crate::telling::explain;
use hpb_auction::Auction;
use hpb_rules::{Command, Commands, MOST_READ_BYTES, Refusal, Replies, Request};
use hpb_tree::Definition;
use hpb_wire::{FrontRequest, Response, node, parse_front, parse_line, show, who};
use std::alloc::{AllocError, Global};
use std::io::{Read, Write, sink};

/// Answers each line of the reader with one line on the writer, to the end of the reader. The answers are written and
/// flushed before more is read. If asking the desk takes a wait (`Desk::waits_when_asked`), they are written and
/// flushed before the desk is asked, too.
///
/// A line has at most 128 bytes and a line feed. Any other is refused with `ERR 10 line`; so is a last line without
/// line feed. No line reports a fault:
///
/// - 90 `memory`: memory is refused. All lines are answered and written, except the one that memory was refused for and
///   those behind it that came together with it. If memory is refused at the start, nothing is read.
/// - 92 `stream`: the reader fails, or more than 1,000,000,000 bytes are read; at most one byte more is taken, to see
///   that there is more. Each line that was read is answered, and all answers are written first.
/// - 92 `stream`: the writer fails. A front of the answers is written.
///
/// Accepted commands stay accepted.
///
/// Commands that were read wait until the desk is asked for them together. That happens once they are as many as the
/// desk takes, before any other line is answered, and before more is read. A desk may end the session with a reply:
/// that is written, and nothing more is read or answered.
pub fn serve<R: Read, W: Write, D: Desk>(
    alloc: Global,
    reader: &mut R,
    writer: &mut W,
    desk: &mut D,
) -> Result<(), SessionFault>
    ensures served { Moves D.is_at desk.old desk.new (λ state next. Serves D.ways [] MOST_READ_BYTES
        (streams (R.remaining reader.old) (W.contents writer.old)) (streams (R.remaining reader.new) (W.contents writer.new)) state next result) }
    ensures rules { D.rules desk.new ≡ D.rules desk.old }
    ensures told { (state : D.State) → D.is_at desk.old state → (told : List Command) → D.ways.tells state told
        → (next : D.State) × D.is_at desk.new next × GoesOn told (D.ways.tells next) }
{
    serve_lines(alloc, reader, writer, &mut sink(), false, desk)
}

/// Answers each line of the reader, as `serve` does, and at a terminal as `serve_at_terminal` does.
pub(crate) fn serve_lines<R: Read, W: Write, E: Write, D: Desk>(
    alloc: Global,
    reader: &mut R,
    writer: &mut W,
    errors: &mut E,
    is_terminal: bool,
    desk: &mut D,
) -> Result<(), SessionFault>
    requires stays { is_terminal ≡ true → LooksStay D.ways }
    ensures served { Moves D.is_at desk.old desk.new (λ state next. Serves D.ways [] MOST_READ_BYTES
        (streams (R.remaining reader.old) (W.contents writer.old)) (streams (R.remaining reader.new) (W.contents writer.new)) state next result) }
    ensures rules { D.rules desk.new ≡ D.rules desk.old }
    ensures explained { ExplainsAt is_terminal (E.contents errors.old) (E.contents errors.new) }
{
    let mut input = Input::new(alloc, MOST_READ_BYTES)?;
    let mut output = Output::new(alloc)?;
    answer_lines(
        alloc,
        reader,
        writer,
        errors,
        is_terminal,
        desk,
        &mut input,
        &mut output,
    )
}

/// Answers the unread bytes of the input, and all that come after them. At a terminal each command is asked by itself,
/// and standard errors get the number that would do in place of a refused one.
pub(crate) fn answer_lines<R: Read, W: Write, E: Write, D: Desk>(
    alloc: Global,
    reader: &mut R,
    writer: &mut W,
    errors: &mut E,
    is_terminal: bool,
    desk: &mut D,
    input: &mut Input,
    output: &mut Output,
) -> Result<(), SessionFault>
    requires sent { output.old ≡ [] }
    requires stays { is_terminal ≡ true → LooksStay D.ways }
    ensures served { Moves D.is_at desk.old desk.new (λ state next. Serves D.ways input.old.unread input.old.budget
        (streams (R.remaining reader.old) (W.contents writer.old)) (streams (R.remaining reader.new) (W.contents writer.new)) state next result) }
    ensures rules { D.rules desk.new ≡ D.rules desk.old }
    ensures explained { ExplainsAt is_terminal (E.contents errors.old) (E.contents errors.new) }
{
    let mut line = Line::new();
    'chunks: loop {
        answer_unread(
            alloc,
            writer,
            errors,
            is_terminal,
            desk,
            input,
            &mut line,
            output,
        )?;
        output.send(writer)?;
        desk.upkeep(alloc)?;
        if desk.is_over() {
            return Ok(());
        }
        if !input.fill(reader)? {
            break;
        }
    }
    end_lines(writer, &line, output)
}

/// Answers a last line without its end, if it has a byte.
fn end_lines<W: Write>(writer: &mut W, line: &Line, output: &mut Output) -> Result<(), SessionFault>
    requires { output.old ≡ [] }
    ensures { Ends (W.contents writer.old) (W.contents writer.new) line.now result }
{
    if line.is_empty() {
        return Ok(());
    }
    output.refuse(Refusal::Line)?;
    output.send(writer)
}

/// Answers the lines that end in the unread bytes. Afterwards `line` has the start of one more.
fn answer_unread<W: Write, E: Write, D: Desk>(
    alloc: Global,
    writer: &mut W,
    errors: &mut E,
    is_terminal: bool,
    desk: &mut D,
    input: &mut Input,
    line: &mut Line,
    output: &mut Output,
) -> Result<(), SessionFault>
    requires stays { is_terminal ≡ true → LooksStay D.ways }
    ensures lines { Moves D.is_at desk.old desk.new (λ state next. (partial : List ℕ) → HasNoEnd partial → line.old ≡ take KEPT_BYTES partial
        → Proceeds D.ways (partial ++ input.old.unread) state next
        (W.contents writer.old) (W.contents writer.new) output.old
        line.new input.new.unread output.new result) }
    ensures rules { D.rules desk.new ≡ D.rules desk.old }
    ensures taken { OnOk result (D.over desk.new ≡ false → input.new.unread ≡ []) }
    ensures read { OnOk result (input.new.budget ≡ input.old.budget) }
    ensures explained { ExplainsAt is_terminal (E.contents errors.old) (E.contents errors.new) }
{
    let mut queue = Commands::new();
    'lines: while !desk.is_over() {
        let Some(next) = next_request::<D>(input, line, desk.definition()) else {
            input.keep_rest(line);
            return ask_queue(alloc, writer, desk, &mut queue, output);
        };
        pass_request(
            alloc,
            writer,
            errors,
            is_terminal,
            desk,
            next.request,
            &mut queue,
            output,
        )?;
        input.skip_line(next.size);
        line.clear();
    }
    Ok(())
}

/// Reads the request of the next line, if its end was read. `line` has the kept bytes of its start. The desk is the
/// `Caller` of `parse_front`.
#[inline(always)]
fn next_request<Caller>(
    input: &Input,
    line: &mut Line,
    definition: &Definition,
) -> Option<FrontRequest>
    ensures line { FindsEnd input.now.unread (size_of result) }
    ensures value { IfSome result (λ next. next.request ≡ request_of definition.now (take KEPT_BYTES (line.old ++ take next.size input.now.unread))) }
    ensures known { IfSome result (λ next. IfOk next.request (IsRequestOf definition.now)) }
    ensures kept { result ≡ None → line.new ≡ line.old }
{
    if line.is_empty() {
        if let Some(next) = parse_front::<Caller>(input.unread(), definition) {
            return Some(next);
        }
    }
    let size = input.find_line()?;
    let request = parse_part(input.front(size), line, definition);
    Some(FrontRequest { size, request })
}

/// Reads the request of a line whose last part is given. If that is all of the line it is read without a copy;
/// otherwise it is added to the kept bytes of the start.
fn parse_part(part: &[u8], line: &mut Line, definition: &Definition) -> Result<Request, Refusal>
    ensures value { result ≡ request_of definition.now (take KEPT_BYTES (line.old ++ part.now)) }
    ensures known { IfOk result (IsRequestOf definition.now) }
{
    if line.is_empty() {
        return parse_line(part, definition);
    }
    line.extend(part);
    parse_line(line.as_slice(), definition)
}

/// Passes a request on. A command goes to the queue or to the desk. Any other request is answered once all waiting
/// commands are asked.
#[inline(always)]
#[tactic(auto, using(crate::proofs::Explained::explained_at_none))]
fn pass_request<W: Write, E: Write, D: Desk>(
    alloc: Global,
    writer: &mut W,
    errors: &mut E,
    is_terminal: bool,
    desk: &mut D,
    request: Result<Request, Refusal>,
    queue: &mut Commands,
    output: &mut Output,
) -> Result<(), SessionFault>
    requires goes_on { D.over desk.old ≡ false }
    requires stays { is_terminal ≡ true → LooksStay D.ways }
    requires room { length queue.old < D.ways.most }
    requires none { is_terminal ≡ true → queue.old ≡ [] }
    requires known { IfOk request (IsRequestOf (D.rules desk.old)) }
    ensures passed { Moves D.is_at desk.old desk.new (λ state next. PassesRequests D.ways state
        (asked_for queue.old ++ request ∷ []) next
        (W.contents writer.old) (W.contents writer.new) output.old output.new queue.new result) }
    ensures rules { D.rules desk.new ≡ D.rules desk.old }
    ensures room { OnOk result (length queue.new < D.ways.most) }
    ensures none { is_terminal ≡ true → OnOk result (queue.new ≡ []) }
    ensures over { OnOk result (D.over desk.new ≡ true → queue.new ≡ []) }
    ensures explained { ExplainsAt is_terminal (E.contents errors.old) (E.contents errors.new) }
{
    match request {
        Ok(Request::Command(command)) => pass_command(
            alloc,
            writer,
            errors,
            is_terminal,
            desk,
            command,
            queue,
            output,
        ),
        question => pass_question(alloc, writer, desk, question, queue, output),
    }
}

/// Asks for a command by itself, at a terminal or if the desk takes one at a time. Otherwise it is put into the queue,
/// and all waiting commands are asked for once they are as many as the desk takes. If the desk waits, all answers are
/// written first.
#[inline(always)]
#[tactic(auto, using(crate::proofs::Explained::explained_at_none))]
fn pass_command<W: Write, E: Write, D: Desk>(
    alloc: Global,
    writer: &mut W,
    errors: &mut E,
    is_terminal: bool,
    desk: &mut D,
    command: Command,
    queue: &mut Commands,
    output: &mut Output,
) -> Result<(), SessionFault>
    requires goes_on { D.over desk.old ≡ false }
    requires stays { is_terminal ≡ true → LooksStay D.ways }
    requires room { length queue.old < D.ways.most }
    requires none { is_terminal ≡ true → queue.old ≡ [] }
    ensures passed { Moves D.is_at desk.old desk.new (λ state next. PassesRequests D.ways state
        (asked_for queue.old ++ Ok (requests.Command command) ∷ []) next
        (W.contents writer.old) (W.contents writer.new) output.old output.new queue.new result) }
    ensures rules { D.rules desk.new ≡ D.rules desk.old }
    ensures room { OnOk result (length queue.new < D.ways.most) }
    ensures none { is_terminal ≡ true → OnOk result (queue.new ≡ []) }
    ensures over { OnOk result (D.over desk.new ≡ true → queue.new ≡ []) }
    ensures explained { ExplainsAt is_terminal (E.contents errors.old) (E.contents errors.new) }
{
    if queue.len() == 0 && (is_terminal || desk.most_asked() == 1) {
        send_first(writer, desk, output)?;
        return ask_alone(alloc, writer, errors, is_terminal, desk, &command, output);
    }
    let _ = queue.push(command);
    if queue.len() < desk.most_asked() {
        return Ok(());
    }
    ask_queue(alloc, writer, desk, queue, output)
}

/// Asks for one command by itself, and adds its answer. At a terminal the answer is written, followed by the number
/// that would do if it is a refusal. If the desk waits, the output is empty.
#[inline(always)]
#[tactic(auto, using(crate::proofs::Explained::explained_at_none))]
fn ask_alone<W: Write, E: Write, D: Desk>(
    alloc: Global,
    writer: &mut W,
    errors: &mut E,
    is_terminal: bool,
    desk: &mut D,
    command: &Command,
    output: &mut Output,
) -> Result<(), SessionFault>
    requires goes_on { D.over desk.old ≡ false }
    requires stays { is_terminal ≡ true → LooksStay D.ways }
    requires sent { D.ways.waits ≡ true → output.old ≡ [] }
    ensures passed { Moves D.is_at desk.old desk.new (λ state next. PassesRequests D.ways state
        (Ok (requests.Command command.now) ∷ []) next
        (W.contents writer.old) (W.contents writer.new) output.old output.new [] result) }
    ensures rules { D.rules desk.new ≡ D.rules desk.old }
    ensures explained { ExplainsAt is_terminal (E.contents errors.old) (E.contents errors.new) }
    // Behind an answer that was written stands the number that would do, by the auction that the desk then shows.
    ensures told { is_terminal ≡ true → (state : D.State) → D.is_at desk.old state → OnOk result ((reply : Answered) × (next : D.State) × D.ways.asks state command.now reply next
        × TellsReply D.ways next command.now reply (E.contents errors.old) (E.contents errors.new)) }
{
    match desk.ask_one(alloc, command) {
        Ok(reply) => {
            let added = output.reply(reply);
            pass_added(writer, is_terminal, added, output)?;
            explain(alloc, is_terminal, desk, command, reply, errors);
            Ok(())
        }
        Err(error) => break_off(writer, error, output),
    }
}

/// Asks for all waiting commands, and answers a request that isn't a command, unless the session is over.
#[inline(always)]
fn pass_question<W: Write, D: Desk>(
    alloc: Global,
    writer: &mut W,
    desk: &mut D,
    question: Result<Request, Refusal>,
    queue: &mut Commands,
    output: &mut Output,
) -> Result<(), SessionFault>
    requires question { IsQuestion question }
    requires known { IfOk question (IsRequestOf (D.rules desk.old)) }
    requires room { length queue.old ≤ D.ways.most }
    ensures passed { Moves D.is_at desk.old desk.new (λ state next. PassesRequests D.ways state
        (asked_for queue.old ++ question ∷ []) next
        (W.contents writer.old) (W.contents writer.new) output.old output.new queue.new result) }
    ensures rules { D.rules desk.new ≡ D.rules desk.old }
    ensures asked { OnOk result (queue.new ≡ []) }
{
    ask_queue(alloc, writer, desk, queue, output)?;
    if desk.is_over() {
        return Ok(());
    }
    let added = answer_question(desk, question, output);
    pass_added(writer, false, added, output)
}

/// Asks for all waiting commands, if there are any, and passes the replies on. If the desk waits, all answers are
/// written first.
#[inline(always)]
fn ask_queue<W: Write, D: Desk>(
    alloc: Global,
    writer: &mut W,
    desk: &mut D,
    queue: &mut Commands,
    output: &mut Output,
) -> Result<(), SessionFault>
    requires { length queue.old ≤ D.ways.most }
    ensures passed { Moves D.is_at desk.old desk.new (λ state next. PassesRequests D.ways state
        (asked_for queue.old) next
        (W.contents writer.old) (W.contents writer.new) output.old output.new queue.new result) }
    ensures rules { D.rules desk.new ≡ D.rules desk.old }
    ensures asked { OnOk result (queue.new ≡ []) }
{
    if queue.len() == 0 {
        return Ok(());
    }
    send_first(writer, desk, output)?;
    ask_waiting(alloc, writer, desk, queue, output)
}

/// Asks for all waiting commands, and passes the replies on. If the desk waits, the output is empty.
#[inline(never)]
fn ask_waiting<W: Write, D: Desk>(
    alloc: Global,
    writer: &mut W,
    desk: &mut D,
    queue: &mut Commands,
    output: &mut Output,
) -> Result<(), SessionFault>
    requires some { 0 < length queue.old }
    requires most { length queue.old ≤ D.ways.most }
    requires sent { D.ways.waits ≡ true → output.old ≡ [] }
    ensures passed { Moves D.is_at desk.old desk.new (λ state next. PassesRequests D.ways state
        (asked_for queue.old) next
        (W.contents writer.old) (W.contents writer.new) output.old output.new queue.new result) }
    ensures rules { D.rules desk.new ≡ D.rules desk.old }
    ensures asked { OnOk result (queue.new ≡ []) }
{
    match desk.ask(alloc, queue) {
        Ok(replies) => {
            queue.clear();
            pass_replies(writer, &replies, output)
        }
        Err(error) => break_off(writer, error, output),
    }
}

/// Writes all answers, if the desk waits.
#[inline(always)]
#[tactic(auto, using(crate::proofs::Passing::all_sent))]
fn send_first<W: Write, D: Desk>(
    writer: &mut W,
    desk: &D,
    output: &mut Output,
) -> Result<(), SessionFault>
    ensures passed { Passes 0 false (W.contents writer.old) (W.contents writer.new) output.old output.new result }
    ensures sent { D.ways.waits ≡ true → output.new ≡ [] }
{
    if desk.waits_when_asked() {
        return output.send(writer);
    }
    Ok(())
}

/// Adds the answers that came together.
fn pass_replies<W: Write>(
    writer: &mut W,
    replies: &Replies,
    output: &mut Output,
) -> Result<(), SessionFault>
    ensures { Passes (length replies.now) false (W.contents writer.old) (W.contents writer.new)
        (output.old ++ replies_text replies.now) output.new result }
{
    for reply in replies.as_slice() {
        let added = output.reply(*reply);
        pass_added(writer, false, added, output)?;
    }
    Ok(())
}

/// Goes on after an answer was added, or wasn't. All answers are written at once if that is wanted, if there may be too
/// little room for another one, or if memory is refused.
#[inline(always)]
fn pass_added<W: Write>(
    writer: &mut W,
    at_once: bool,
    added: Result<(), AllocError>,
    output: &mut Output,
) -> Result<(), SessionFault>
    ensures { (waiting answer : List ℕ) → Adds waiting output.old answer added
        → PassesLine (W.contents writer.old) (W.contents writer.new) (waiting ++ line_of answer) output.new result }
{
    match added {
        Ok(()) => {
            if at_once || output.is_nearly_full() {
                output.send(writer)
            } else {
                Ok(())
            }
        }
        Err(error) => break_off(writer, error, output),
    }
}

/// Ends a session because memory was refused: all answers are written first.
fn break_off<W: Write>(
    writer: &mut W,
    refused: AllocError,
    output: &mut Output,
) -> Result<(), SessionFault>
    ensures passed { (most : ℕ) (takes_memory : Bool) (answers : List (List ℕ)) → length answers ≤ most → (answers ≡ [] → takes_memory ≡ true)
        → Passes most takes_memory (W.contents writer.old) (W.contents writer.new) (output.old ++ lines_of answers) output.new result }
    ensures failed { IsErr result }
{
    output.send(writer)?;
    Err(refused.into())
}

/// Adds the answer to a question, or to a refused line.
#[inline(always)]
fn answer_question<D: Desk>(
    desk: &mut D,
    question: Result<Request, Refusal>,
    output: &mut Output,
) -> Result<(), AllocError>
    requires question { IsQuestion question }
    requires known { IfOk question (IsRequestOf (D.rules desk.old)) }
    ensures answer { Moves D.is_at desk.old desk.new (λ state next. AddsAnswer D.ways state question next
        output.old output.new result) }
    ensures rules { D.rules desk.new ≡ D.rules desk.old }
{
    match question {
        Ok(request) => answer_request(desk, request, output),
        Err(refusal) => output.refuse(refusal),
    }
}

/// Adds the answer to a question, from the auction that the desk shows.
#[inline(always)]
fn answer_request<D: Desk>(
    desk: &mut D,
    request: Request,
    output: &mut Output,
) -> Result<(), AllocError>
    requires question { IsQuestion (Ok request) }
    requires known { IsRequestOf (D.rules desk.old) request }
    ensures answer { Moves D.is_at desk.old desk.new (λ state next. AddsAnswer D.ways state (Ok request) next
        output.old output.new result) }
    ensures rules { D.rules desk.new ≡ D.rules desk.old }
{
    match desk.look() {
        Some(auction) => output.add::<D>(&view_of(auction, request)),
        None => output.refuse(Refusal::Failed),
    }
}

/// The answer to a question, from an auction as it stands.
#[inline(always)]
fn view_of(auction: &Auction, request: Request) -> Response<'_>
    requires question { IsQuestion (Ok request) }
    requires known { IsRequestOf auction.now.rules request }
    ensures { text_of result ≡ view_in request auction.now }
{
    match request {
        Request::Command(_) => unreachable!(),
        Request::Show => show(auction),
        Request::Node(place) => node(auction, place),
        Request::Who(bidder) => who(auction, bidder),
    }
}
