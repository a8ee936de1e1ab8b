//! The units and openings of licences.
use crate::entries::{items, number};
use crate::fault::{Finding, Misfit};
use crate::numbers::Range;
use crate::place::{List, Place};
use hpb_rules::{MOST_LICENCE_OPENING, MOST_LICENCE_UNITS};
use serde_json::Value;
use std::fmt;

/// The fault of a licence's opening that is in range.
#[derive(Clone, Copy)]
pub(crate) struct TermsMisfit {
    opening: u64,
    step: u64,
}

impl fmt::Display for TermsMisfit {
    fn fmt<W: fmt::Write>(&self, f: &mut fmt::Formatter<W>) -> fmt::Result {
        let (opening, step) = (self.opening, self.step);
        write!(f, "{opening} is not a multiple of the step {step}")
    }
}

/// Checks that each licence's units and opening are allowed. Otherwise reports the first that aren't.
pub(crate) fn check_terms(definition: &Value) -> Result<(), Finding<'_>> {
    let step = number(definition, "step").unwrap_or(1);
    let most = u64::from(MOST_LICENCE_UNITS);
    for (index, node) in items(definition, List::Nodes).iter().enumerate() {
        let item = List::Nodes.item(index);
        if let Some(units) = number(node, "units") {
            Range { least: 1, most }.check(units, item.field("units"))?;
        }
        if let Some(opening) = number(node, "opening") {
            check_opening(opening, item.field("opening"), step)?;
        }
    }
    Ok(())
}

/// Checks an opening. The step is the least that there can be.
fn check_opening<'v>(opening: u64, place: Place<'v>, step: u64) -> Result<(), Finding<'v>> {
    let most = MOST_LICENCE_OPENING;
    if opening == 0 || opening > most {
        return Range { least: step, most }.check(opening, place);
    }
    if opening.checked_rem(step) == Some(0) {
        return Ok(());
    }
    Err(Misfit::Terms(TermsMisfit { opening, step }).at(place))
}
