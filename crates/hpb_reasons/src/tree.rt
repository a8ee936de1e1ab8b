//! Nodes, their parents and their children.
use crate::entries::{has_text, is_licence, items, place_named, text};
use crate::fault::{Finding, Misfit};
use crate::place::{Item, List, Place};
use crate::shown::Quoted;
use hpb_rules::LEAST_CHILDREN;
use serde_json::Value;
use std::fmt;

/// A fault of a node's parent or of its children.
#[derive(Clone, Copy)]
pub(crate) enum TreeMisfit<'v> {
    /// No node has the parent's name.
    NoNode(&'v str),
    /// No node has the parent's name, and the writer seems to mean a node without parent.
    NoNull(&'v str),
    /// The parent is the node itself.
    Itself(&'v str),
    /// The parent stands behind the node.
    Behind {
        parent: &'v str,
        at: Item,
    },
    /// A node has no child, and lacks the terms of a licence.
    Bare(&'v str),
    /// A package has one child.
    Thin(&'v str),
    /// A licence has a child.
    Child {
        licence: &'v str,
        child: &'v str,
        at: Item,
    },
}

impl fmt::Display for TreeMisfit<'_> {
    fn fmt<W: fmt::Write>(&self, f: &mut fmt::Formatter<W>) -> fmt::Result {
        match *self {
            TreeMisfit::NoNode(parent) => write!(f, "{} is no node", Quoted(parent)),
            TreeMisfit::NoNull(parent) => {
                let parent = Quoted(parent);
                write!(f, "{parent} is no node; a top node has null without quotes")
            }
            TreeMisfit::Itself(parent) => write!(f, "{} is the node itself", Quoted(parent)),
            TreeMisfit::Behind { parent, at } => {
                write!(f, "{} stands at {at}, not before it", Quoted(parent))
            }
            TreeMisfit::Bare(name) => write!(
                f,
                "{} has no child, no units and no opening; a licence has units and opening, a package 2 children or more",
                Quoted(name)
            ),
            TreeMisfit::Thin(package) => write!(
                f,
                "the package {} has one child; a package has 2 or more",
                Quoted(package)
            ),
            TreeMisfit::Child { licence, child, at } => {
                let (licence, child) = (Quoted(licence), Quoted(child));
                write!(
                    f,
                    "the licence {licence} has the child {child} at {at}; a licence has none"
                )
            }
        }
    }
}

/// Checks that each parent stands before its node. Otherwise reports the first that doesn't.
pub(crate) fn check_parents(definition: &Value) -> Result<(), Finding<'_>> {
    let nodes = items(definition, List::Nodes);
    for (index, node) in nodes.iter().enumerate() {
        let Some(parent) = text(node, "parent") else {
            continue;
        };
        if let Some(misfit) = misfit_of_parent(nodes, index, parent) {
            let place = List::Nodes.item(index).field("parent");
            return Err(Misfit::Tree(misfit).at(place));
        }
    }
    Ok(())
}

fn misfit_of_parent<'v>(nodes: &[Value], index: usize, parent: &'v str) -> Option<TreeMisfit<'v>> {
    match place_named(nodes, parent) {
        Some(place) if place < index => None,
        Some(place) if place == index => Some(TreeMisfit::Itself(parent)),
        Some(place) => {
            let at = List::Nodes.item(place);
            Some(TreeMisfit::Behind { parent, at })
        }
        None if parent.is_empty() || parent == "null" => Some(TreeMisfit::NoNull(parent)),
        None => Some(TreeMisfit::NoNode(parent)),
    }
}

/// Checks that each package has two children or more. Otherwise reports the first that doesn't.
pub(crate) fn check_packages(definition: &Value) -> Result<(), Finding<'_>> {
    let nodes = items(definition, List::Nodes);
    for (index, node) in nodes.iter().enumerate() {
        if is_licence(node) {
            continue;
        }
        let package = text(node, "name").unwrap_or("");
        let children = nodes
            .iter()
            .filter(|child| has_text(child, "parent", package))
            .count();
        if children < LEAST_CHILDREN {
            let misfit = if children == 0 {
                TreeMisfit::Bare(package)
            } else {
                TreeMisfit::Thin(package)
            };
            return Err(Misfit::Tree(misfit).at(Place::Item(List::Nodes.item(index))));
        }
    }
    Ok(())
}

/// Checks that no licence has a child. Otherwise reports the first that has, and its first child.
pub(crate) fn check_licences(definition: &Value) -> Result<(), Finding<'_>> {
    let nodes = items(definition, List::Nodes);
    for (index, node) in nodes.iter().enumerate() {
        if !is_licence(node) {
            continue;
        }
        let licence = text(node, "name").unwrap_or("");
        for (place, child) in nodes.iter().enumerate() {
            if has_text(child, "parent", licence) {
                let at = List::Nodes.item(place);
                let child = text(child, "name").unwrap_or("");
                let misfit = TreeMisfit::Child { licence, child, at };
                return Err(Misfit::Tree(misfit).at(Place::Item(List::Nodes.item(index))));
            }
        }
    }
    Ok(())
}
