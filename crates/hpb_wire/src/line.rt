ghost use Rattle.std.specs.Prelude.{◌≡◌, ◌<◌, length, take, IfOk, IfSome, Some};
ghost use Rattle.hpb_rules.specs.Lines.{request_of};
ghost use Rattle.hpb_wire.specs.Requests.{IsFrontLine, IsRequestOf};

use crate::cut::front_line;
use crate::reading::{read_line, read_spaced};
use hpb_rules::{Refusal, Request};
use hpb_tree::Definition;

/// Reads the request of a line, given without its end. Words stand one space apart: `BID bidder ticket node amount`,
/// `CLOSE ticket`, `STAGE ticket`, `WAIVE bidder ticket`, `SHOW`, `NODE name` or `WHO bidder`. A ticket (32 bits) and
/// an amount (64 bits, whole dollars) are decimal, without a sign and without a zero in front. No memory is taken.
///
/// Refusals: 10 `line` for any other line, and for one of more than 128 bytes. Then 11 `bidder` and 12 `node` for a
/// name that the definition doesn't have.
#[inline(never)]
pub fn parse_line(line: &[u8], definition: &Definition) -> Result<Request, Refusal>
    ensures value { result ≡ request_of definition.now line.now }
    ensures known { IfOk result (IsRequestOf definition.now) }
{
    read_line(line, definition)
}

/// The request of the first line of some bytes.
#[derive(Clone, Copy, Debug)]
pub struct FrontRequest {
    /// How many bytes the line has without its end.
    pub size: usize,
    /// The request, or its refusal.
    pub request: Result<Request, Refusal>,
}

/// Reads the request of the first line of some bytes, as `parse_line` does, if the end of the line is among the first
/// 32 bytes. `None` says nothing about the line. No memory is taken.
///
/// Each caller names a type of its own. So each type has its own copy of this function, called at one place and inlined
/// into the caller's loop. The result of a shared one would go through memory, and a bid would take a quarter more
/// instructions.
#[inline(always)]
pub fn parse_front<Caller>(bytes: &[u8], definition: &Definition) -> Option<FrontRequest>
    ensures line { IfSome result (λ front. IsFrontLine bytes.now front.size) }
    ensures value { IfSome result (λ front. front.request ≡ request_of definition.now (take front.size bytes.now)) }
    ensures known { IfSome result (λ front. IfOk front.request (IsRequestOf definition.now)) }
{
    let words = front_line(bytes)?;
    Some(FrontRequest {
        size: words.line.size,
        request: read_spaced(words, definition),
    })
}
