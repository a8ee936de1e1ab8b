//! The names of nodes and bidders.
ghost use Rattle.std.specs.Prelude.{◌≡◌};
ghost use Rattle.hpb_rules.specs.Drafts.{is_name_byte};

use crate::entries::{items, place_named, text};
use crate::fault::{Finding, Misfit};
use crate::place::{Item, List};
use crate::shown::{Limit, Quoted, QuotedCharacter};
use hpb_rules::MOST_NAME_BYTES;
use serde_json::Value;
use std::fmt;

/// A fault of a name.
#[derive(Clone, Copy)]
pub(crate) enum NameMisfit<'v> {
    /// It is empty or too long.
    Length(&'v str),
    /// It has a character that a name may not have.
    Character { name: &'v str, character: char },
    /// An earlier item has it too.
    Taken { name: &'v str, by: Item },
}

impl fmt::Display for NameMisfit<'_> {
    fn fmt<W: fmt::Write>(&self, f: &mut fmt::Formatter<W>) -> fmt::Result {
        match *self {
            NameMisfit::Length(name) => {
                let most = Limit(MOST_NAME_BYTES as u64);
                let (shown, bytes) = (Quoted(name), name.len());
                write!(f, "{shown} has {bytes} bytes; a name has 1 to {most}")
            }
            NameMisfit::Character { name, character } => {
                let (shown, character) = (Quoted(name), QuotedCharacter(character));
                write!(
                    f,
                    "{shown} has {character}; a name has a to z, 0 to 9 and _ alone"
                )
            }
            NameMisfit::Taken { name, by } => write!(f, "{} is the name of {by} too", Quoted(name)),
        }
    }
}

/// Checks that each name is valid. Otherwise reports the first that isn't.
pub(crate) fn check_names(definition: &Value) -> Result<(), Finding<'_>> {
    for list in [List::Nodes, List::Bidders] {
        for (index, item) in items(definition, list).iter().enumerate() {
            if let Some(misfit) = text(item, "name").and_then(misfit_of_name) {
                return Err(Misfit::Name(misfit).at(list.item(index).field("name")));
            }
        }
    }
    Ok(())
}

fn misfit_of_name(name: &str) -> Option<NameMisfit<'_>> {
    if name.is_empty() || name.len() > MOST_NAME_BYTES {
        return Some(NameMisfit::Length(name));
    }
    let character = name.chars().find(|character| !may_be_in_name(*character))?;
    Some(NameMisfit::Character { name, character })
}

fn may_be_in_name(character: char) -> bool
    ensures { result ≡ is_name_byte character }
{
    matches!(character, 'a'..='z' | '0'..='9' | '_')
}

/// Checks that no two nodes and no two bidders have the same name. Otherwise reports the first name that stands twice.
pub(crate) fn check_duplicates(definition: &Value) -> Result<(), Finding<'_>> {
    for list in [List::Nodes, List::Bidders] {
        let items = items(definition, list);
        for (index, item) in items.iter().enumerate() {
            let Some(name) = text(item, "name") else {
                continue;
            };
            let first = place_named(items, name).unwrap_or(index);
            if first < index {
                let by = list.item(first);
                let misfit = Misfit::Name(NameMisfit::Taken { name, by });
                return Err(misfit.at(list.item(index).field("name")));
            }
        }
    }
    Ok(())
}
