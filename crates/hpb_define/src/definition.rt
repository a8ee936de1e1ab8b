ghost use Rattle.hpb_define.specs.Text.{Answers, by_cause};

use crate::fault::{DefineCause, DefineFault};
use crate::reading::read_draft;
use hpb_reasons::{Explanation, reason};
use hpb_tree::Definition;
use std::alloc::Global;

/// Reads a definition from its JSON text. A parent's name that no earlier node bears gives a parent that doesn't stand
/// before its node. The first refusal of this list that holds is reported:
///
/// - 60 `json`: the bytes aren't UTF-8, aren't JSON as `serde_json` reads it, or are more than `MOST_DEFINITION_BYTES`;
/// - 61 `field`: a field is missing, unknown or of another type;
/// - 62 `number`: a number isn't whole, doesn't fit 64 bits or is out of range;
/// - 50 to 57: as `Definition::check` reports them.
///
/// 90 `memory` may come in place of any other if memory was refused. Beside each refusal stands a reason for people.
pub fn read_definition(alloc: Global, bytes: &[u8]) -> Result<Definition, DefineFault>
    ensures { Answers bytes.now (by_cause result) }
{
    match definition_of(alloc, bytes) {
        Ok(definition) => Ok(definition),
        Err(cause) => Err(DefineFault {
            cause,
            reason: reason_for(alloc, bytes, cause),
        }),
    }
}

/// The reason for people why bytes are refused, if memory allows one.
fn reason_for(alloc: Global, bytes: &[u8], cause: DefineCause) -> Option<Explanation> {
    match cause {
        DefineCause::Memory => None,
        _ => reason(alloc, bytes, cause.refusal()).ok(),
    }
}

fn definition_of(alloc: Global, bytes: &[u8]) -> Result<Definition, DefineCause>
    ensures { Answers bytes.now result }
{
    let draft = read_draft(alloc, bytes)?;
    let definition = Definition::check(alloc, &draft)?;
    Ok(definition)
}
