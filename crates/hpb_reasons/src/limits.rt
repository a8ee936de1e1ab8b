//! The limits on how much a definition may have.
ghost use Rattle.std.specs.Prelude.{◌≡◌, is_ok, length, nat_le};

use crate::entries::{is_licence, items, place_named, text};
use crate::fault::{Finding, Misfit};
use crate::place::{List, Place};
use crate::shown::Limit;
use hpb_rules::{MOST_BIDDERS, MOST_LEVELS, MOST_LICENCES, MOST_NODES, MOST_STAGES};
use serde_json::Value;
use std::fmt;

/// The limit that is passed.
#[derive(Clone, Copy)]
pub(crate) enum LimitMisfit {
    /// A list has too many items.
    Items { count: usize, most: usize },
    /// There are too many licences.
    Licences(usize),
    /// A node lies too deep.
    Level(usize),
}

impl fmt::Display for LimitMisfit {
    fn fmt<W: fmt::Write>(&self, f: &mut fmt::Formatter<W>) -> fmt::Result {
        match *self {
            LimitMisfit::Items { count, most } => {
                write!(f, "{count} are more than {}", Limit(most as u64))
            }
            LimitMisfit::Licences(count) => {
                let most = Limit(MOST_LICENCES as u64);
                write!(f, "{count} licences are more than {most}")
            }
            LimitMisfit::Level(level) => {
                let most = Limit(MOST_LEVELS as u64);
                write!(f, "on level {level}; there are {most} at most")
            }
        }
    }
}

/// Checks that no limit is passed. Otherwise reports the first that is.
pub(crate) fn check_limits(definition: &Value) -> Result<(), Finding<'_>> {
    let nodes = items(definition, List::Nodes);
    check_count(List::Nodes, nodes, MOST_NODES)?;
    let licences = nodes.iter().filter(|node| is_licence(node)).count();
    if licences > MOST_LICENCES {
        let place = Place::Field(List::Nodes.field());
        return Err(Misfit::Limit(LimitMisfit::Licences(licences)).at(place));
    }
    check_count(
        List::Bidders,
        items(definition, List::Bidders),
        MOST_BIDDERS,
    )?;
    check_count(List::Stages, items(definition, List::Stages), MOST_STAGES)?;
    check_levels(nodes)
}

fn check_count<'v>(list: List, items: &[Value], most: usize) -> Result<(), Finding<'v>>
    ensures { is_ok result ≡ nat_le (length items.now) most }
{
    let count = items.len();
    if count <= most {
        return Ok(());
    }
    let misfit = Misfit::Limit(LimitMisfit::Items { count, most });
    Err(misfit.at(Place::Field(list.field())))
}

fn check_levels<'v>(nodes: &[Value]) -> Result<(), Finding<'v>> {
    let mut levels = [0; MOST_NODES];
    for (index, node) in nodes.iter().enumerate() {
        let level = level_of(node, nodes, &levels);
        if level > MOST_LEVELS {
            let place = Place::Item(List::Nodes.item(index));
            return Err(Misfit::Limit(LimitMisfit::Level(level)).at(place));
        }
        if let Some(kept) = levels.get_mut(index) {
            *kept = level;
        }
    }
    Ok(())
}

/// The level of a node, from the levels of the nodes before it. A top node is on level 1.
fn level_of(node: &Value, nodes: &[Value], levels: &[usize]) -> usize {
    let Some(parent) = text(node, "parent") else {
        return 1;
    };
    match place_named(nodes, parent).and_then(|place| levels.get(place)) {
        Some(level) => level.saturating_add(1),
        None => 1,
    }
}
