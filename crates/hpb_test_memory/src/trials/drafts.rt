//! Definitions of each size: packages of two nodes each, and licences under them.

use anyhow::Result;
use hpb_tree::{BidderDraft, Definition, Draft, NodeDraft, TermsDraft};
use std::alloc::{AllocError, Global};

/// The greatest number of nodes.
pub(crate) const MOST: u64 = 127;

/// The terms of each licence.
const TERMS: TermsDraft = TermsDraft {
    units: 1,
    opening: 100,
};

/// The units of each bidder, with which it may bid on all licences at once.
const BIDDER_UNITS: u64 = 64;

/// The parent of the node at a place. A package's two children are at twice its place plus one, and plus two.
fn parent(place: u64) -> Option<u64> {
    if place == 0 {
        None
    } else {
        Some((place - 1) / 2)
    }
}

/// The node at a place. The packages come first.
fn node(alloc: Global, packages: u64, place: u64) -> Result<NodeDraft, AllocError> {
    let terms = if place < packages { None } else { Some(TERMS) };
    Ok(NodeDraft {
        name: format!(in alloc; "n{place}")?,
        parent: parent(place),
        terms,
    })
}

fn node_drafts(alloc: Global, packages: u64, count: u64) -> Result<Vec<NodeDraft>, AllocError> {
    let mut nodes = Vec::new(alloc);
    for place in 0..count {
        nodes.push(node(alloc, packages, place)?)?;
    }
    Ok(nodes)
}

fn bidder(alloc: Global, licence: u64) -> Result<BidderDraft, AllocError> {
    Ok(BidderDraft {
        name: format!(in alloc; "b{licence}")?,
        units: BIDDER_UNITS,
    })
}

fn bidder_drafts(alloc: Global, packages: u64, count: u64) -> Result<Vec<BidderDraft>, AllocError> {
    let mut bidders = Vec::new(alloc);
    for place in 0..count {
        bidders.push(bidder(alloc, packages.saturating_add(place))?)?;
    }
    Ok(bidders)
}

/// A draft of this many nodes, an odd number from 1 to 127; the greatest has 64 licences. There are as many bidders as
/// licences, and each may bid on all of them.
pub(crate) fn draft(alloc: Global, nodes: u64) -> Result<Draft, AllocError> {
    let count = nodes.min(MOST);
    let packages = count / 2;
    Ok(Draft {
        step: 10,
        percent: 10,
        stages: vec![in alloc; 80, 85, 90, 95]?,
        waivers: 3,
        nodes: node_drafts(alloc, packages, count)?,
        bidders: bidder_drafts(alloc, packages, count - packages)?,
    })
}

/// The definition by that draft.
pub(crate) fn definition(alloc: Global, nodes: u64) -> Result<Definition> {
    Ok(Definition::check(alloc, &draft(alloc, nodes)?)?)
}
