//! Sessions at a terminal: behind the answer to a refused command people get the number that would do.
ghost use Rattle.std.specs.Prelude.{◌≡◌, [], List};
ghost use Rattle.hpb_server.specs.Desk.{LooksStay, Moves};
ghost use Rattle.hpb_server.specs.Serving.{Serves};
ghost use Rattle.hpb_server.specs.Streams.{streams};
ghost use Rattle.hpb_server.specs.Telling.{Explains};

use crate::desk::Desk;
use crate::fault::SessionFault;
use crate::serving::serve_lines;
use hpb_rules::MOST_READ_BYTES;
use std::alloc::Global;
use std::io::{Read, Write};

/// Answers each line as `serve` does, for a desk that a look doesn't change. Asks for commands one at a time, and
/// writes and flushes each answer at once. If an answer is a refusal for which some number would do, standard errors
/// get that number behind the answer, as far as memory and standard errors allow:
///
/// - for 13 `old`, 14 `ticket` and 15 `gap` the sender's next ticket;
/// - for 21 `step` the step, for 22 `low` the least amount, for 23 `high` the greatest;
/// - for 25 `eligibility` the bidder's eligibility and activity.
pub fn serve_at_terminal<R: Read, W: Write, E: Write, D: Desk>(
    alloc: Global,
    reader: &mut R,
    writer: &mut W,
    errors: &mut E,
    desk: &mut D,
) -> Result<(), SessionFault>
    requires stays { LooksStay D.ways }
    ensures served { Moves D.is_at desk.old desk.new (λ state next. Serves D.ways [] MOST_READ_BYTES
        (streams (R.remaining reader.old) (W.contents writer.old)) (streams (R.remaining reader.new) (W.contents writer.new)) state next result) }
    ensures rules { D.rules desk.new ≡ D.rules desk.old }
    ensures explained { Explains (E.contents errors.old) (E.contents errors.new) }
{
    serve_lines(alloc, reader, writer, errors, true, desk)
}
