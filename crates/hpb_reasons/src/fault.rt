//! A fault of a definition, and its place.
use crate::fields::FieldMisfit;
use crate::limits::LimitMisfit;
use crate::names::NameMisfit;
use crate::numbers::NumberMisfit;
use crate::place::{List, Place};
use crate::terms::TermsMisfit;
use crate::tree::TreeMisfit;
use std::fmt;

/// A fault at a place of a definition.
#[derive(Clone, Copy)]
pub(crate) enum Misfit<'v> {
    Field(FieldMisfit<'v>),
    Number(NumberMisfit<'v>),
    /// A list without an item.
    Empty(List),
    Name(NameMisfit<'v>),
    Tree(TreeMisfit<'v>),
    Limit(LimitMisfit),
    Terms(TermsMisfit),
}

impl<'v> Misfit<'v> {
    /// This fault, at a place.
    pub(crate) fn at(self, place: Place<'v>) -> Finding<'v> {
        Finding {
            place,
            misfit: self,
        }
    }
}

impl fmt::Display for Misfit<'_> {
    fn fmt<W: fmt::Write>(&self, f: &mut fmt::Formatter<W>) -> fmt::Result {
        match self {
            Misfit::Field(misfit) => write!(f, "{misfit}"),
            Misfit::Number(misfit) => write!(f, "{misfit}"),
            Misfit::Empty(list) => {
                let item = match list {
                    List::Stages => "stage",
                    List::Nodes => "node",
                    List::Bidders => "bidder",
                };
                write!(f, "empty; a definition has at least one {item}")
            }
            Misfit::Name(misfit) => write!(f, "{misfit}"),
            Misfit::Tree(misfit) => write!(f, "{misfit}"),
            Misfit::Limit(misfit) => write!(f, "{misfit}"),
            Misfit::Terms(misfit) => write!(f, "{misfit}"),
        }
    }
}

/// The first fault of a definition under one rule.
#[derive(Clone, Copy)]
pub(crate) struct Finding<'v> {
    place: Place<'v>,
    misfit: Misfit<'v>,
}

impl fmt::Display for Finding<'_> {
    fn fmt<W: fmt::Write>(&self, f: &mut fmt::Formatter<W>) -> fmt::Result {
        let (place, misfit) = (self.place, self.misfit);
        match place {
            Place::Whole => write!(f, "{place} is {misfit}"),
            _ => write!(f, "{place}: {misfit}"),
        }
    }
}
