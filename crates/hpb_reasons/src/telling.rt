use crate::entries::items;
use crate::fault::{Finding, Misfit};
use crate::fields::check_fields;
use crate::json::text_fault;
use crate::limits::check_limits;
use crate::names::{check_duplicates, check_names};
use crate::numbers::check_numbers;
use crate::place::{List, Place};
use crate::terms::check_terms;
use crate::tree::{check_licences, check_packages, check_parents};
use hpb_rules::Refusal;
use serde_json::Value;
use std::alloc::{AllocError, Global};

/// The text that stands in for a reason if none is found, or if memory is refused for it.
pub const NOTHING_FOUND: &str = "docs/PROTOCOL.md says what a definition must be";

/// Why the text of a definition is refused.
#[derive(Debug, Drop, PartialEq)]
pub struct Explanation {
    /// The place and the fault there. It is for people, beside the refusal's own number and word.
    pub text: String,
    /// Whether the text ends before the definition does, or has nothing but blanks.
    pub ends_early: bool,
}

impl Explanation {
    fn of(text: String) -> Explanation {
        Explanation {
            text,
            ends_early: false,
        }
    }
}

/// Why the text of a definition is refused with this refusal, in words for people. Nothing is decided by it. If no such
/// fault is found in the text, the reason names the document that says what a definition must be. Fails only if memory
/// is refused.
pub fn reason(alloc: Global, text: &[u8], refusal: Refusal) -> Result<Explanation, AllocError> {
    if refusal == Refusal::Json {
        return reason_of_text(alloc, text);
    }
    let said = match Value::from_slice(alloc, text) {
        Ok(definition) => match check(&definition, text, refusal) {
            Ok(()) => String::from_str(alloc, NOTHING_FOUND)?,
            Err(fault) => format!(in alloc; "{fault}")?,
        },
        Err(error) if error.is_memory() => return Err(AllocError),
        Err(_) => String::from_str(alloc, NOTHING_FOUND)?,
    };
    Ok(Explanation::of(said))
}

fn reason_of_text(alloc: Global, text: &[u8]) -> Result<Explanation, AllocError> {
    match text_fault(alloc, text)? {
        Some(fault) => Ok(Explanation {
            text: format!(in alloc; "{fault}")?,
            ends_early: fault.ends_early(),
        }),
        None => Ok(Explanation::of(String::from_str(alloc, NOTHING_FOUND)?)),
    }
}

/// Checks that a definition keeps the rule of a refusal. Otherwise reports the first place that doesn't.
fn check<'v>(definition: &'v Value, text: &'v [u8], refusal: Refusal) -> Result<(), Finding<'v>> {
    match refusal {
        Refusal::Empty => check_lists(definition),
        Refusal::Name => check_names(definition),
        Refusal::Duplicate => check_duplicates(definition),
        Refusal::Parent => check_parents(definition),
        Refusal::Children => check_packages(definition),
        Refusal::Leaf => check_licences(definition),
        Refusal::Limits => check_limits(definition),
        Refusal::Terms => check_terms(definition),
        Refusal::Field => check_fields(definition),
        Refusal::Number => check_numbers(definition, text),
        _ => Ok(()),
    }
}

fn check_lists(definition: &Value) -> Result<(), Finding<'_>> {
    for list in [List::Nodes, List::Bidders, List::Stages] {
        if items(definition, list).is_empty() {
            return Err(Misfit::Empty(list).at(Place::Field(list.field())));
        }
    }
    Ok(())
}
