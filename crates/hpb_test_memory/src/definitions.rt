//! Calls that make definitions.

use crate::trials::{
    Came, Tried, begin, definition, definition_came, draft, end, sum_of, sum_of_definition,
};
use anyhow::Result;
use hpb_codec::{
    HEAD_SIZE, Head, JournalLayout, JournalShape, StateFormat, decode_head, encode_head,
};
use hpb_define::{DefineFault, read_definition};
use hpb_rules::Refusal;
use hpb_tree::{Definition, DefinitionFault, Draft};
use std::alloc::{AllocError, Global};
use std::io::Read;

fn checked(alloc: Global, made: Result<Definition, DefinitionFault>) -> Result<Came, AllocError> {
    match made {
        Ok(definition) => Ok(Came::Well(sum_of_definition(alloc, &definition)?)),
        Err(fault) => Ok(Came::Refused(fault.refusal())),
    }
}

/// A draft as the text that people write.
fn text_of(alloc: Global, draft: &Draft) -> Result<String, AllocError> {
    format!(in alloc; "{draft:?}")
}

/// Tries `Definition::check`, with a draft of this many nodes.
pub(crate) fn check(rt: &HostRuntime, nodes: u64) -> Result<Tried> {
    let alloc = rt.alloc();
    let draft = draft(alloc, nodes)?;
    let given = text_of(alloc, &draft)?;
    begin(rt)?;
    let made = Definition::check(alloc, &draft);
    end(rt)?;
    Ok(Tried {
        first: checked(alloc, made)?,
        is_same: text_of(alloc, &draft)? == given,
        again: checked(alloc, Definition::check(alloc, &draft))?,
    })
}

/// Tries `Definition::copy`.
pub(crate) fn copy(rt: &HostRuntime, nodes: u64) -> Result<Tried> {
    let alloc = rt.alloc();
    let definition = definition(alloc, nodes)?;
    let given = sum_of_definition(alloc, &definition)?;
    begin(rt)?;
    let made = definition.copy(alloc);
    end(rt)?;
    Ok(Tried {
        first: definition_came(alloc, made)?,
        is_same: sum_of_definition(alloc, &definition)? == given,
        again: definition_came(alloc, definition.copy(alloc))?,
    })
}

fn was_read(alloc: Global, made: Result<Definition, DefineFault>) -> Result<Came, AllocError> {
    match made {
        Ok(definition) => Ok(Came::Well(sum_of_definition(alloc, &definition)?)),
        Err(fault) => Ok(Came::Refused(fault.refusal())),
    }
}

/// All of the input.
pub(crate) fn input(rt: &HostRuntime) -> Result<Vec<u8>> {
    let mut text = Vec::new(rt.alloc());
    rt.stdin().read_to_end(&mut text)?;
    Ok(text)
}

/// Tries `read_definition`, with the input.
pub(crate) fn read(rt: &HostRuntime) -> Result<Tried> {
    let alloc = rt.alloc();
    let text = input(rt)?;
    let given = sum_of(&text);
    begin(rt)?;
    let made = read_definition(alloc, &text);
    end(rt)?;
    Ok(Tried {
        first: was_read(alloc, made)?,
        is_same: sum_of(&text) == given,
        again: was_read(alloc, read_definition(alloc, &text))?,
    })
}

fn decoded(
    alloc: Global,
    made: Result<Option<(Head, StateFormat)>, AllocError>,
) -> Result<Came, AllocError> {
    match made {
        Ok(Some((head, _))) => Ok(Came::Well(sum_of_definition(alloc, &head.definition)?)),
        Ok(None) => Ok(Came::Refused(Refusal::Layout)),
        Err(_) => Ok(Came::Refused(Refusal::Memory)),
    }
}

/// Tries `decode_head`, with the head of a device whose definition has this many nodes.
pub(crate) fn decode(rt: &HostRuntime, nodes: u64) -> Result<Tried> {
    let alloc = rt.alloc();
    let journal = JournalShape {
        layout: JournalLayout::Pages,
        frames: 4,
    };
    let mut head = vec![in alloc; 0; HEAD_SIZE]?;
    let head = head.as_mut_slice();
    encode_head(&definition(alloc, nodes)?, journal, StateFormat::Two, head);
    let given = sum_of(head);
    begin(rt)?;
    let made = decode_head(alloc, head);
    end(rt)?;
    Ok(Tried {
        first: decoded(alloc, made)?,
        is_same: sum_of(head) == given,
        again: decoded(alloc, decode_head(alloc, head))?,
    })
}
