//! Page 1 of a head: the nodes of a definition.
ghost use Rattle.std.specs.Prelude.{◌≡◌, ◌≤◌, ◌<◌, ◌+◌, ◌++◌, ℕ, List, Option, Some, None, IfOk, IfSome, IsSomeAnd, length};
ghost use Rattle.std.specs.List.{AllByRecursion};
ghost use Rattle.hpb_rules.specs.Tree.{Node, parent_of, terms_of};
ghost use Rattle.hpb_rules.specs.Text.{node_name};
ghost use Rattle.hpb_tree.specs.Draft.{node_said, nodes_said};
ghost use Rattle.hpb_codec.specs.Numbers.{before};
ghost use Rattle.hpb_codec.specs.NodePages.{entry_of, node_fields, node_of, node_page_of, parent_byte, HasEntry};
ghost use Rattle.hpb_codec.specs.declared.layout.TheConstants.{PAGE_BYTES};

use crate::layout::PAGE_BYTES;
use crate::name::{name_in, put_name};
use crate::reader::{front_bytes, front_u8, front_u32, front_u64};
use crate::writer::{fill_zeros, put_u8, put_u32, put_u64, put_zeros};
use hpb_rules::{MOST_NAME_BYTES, MOST_NODES, NodeId};
use hpb_tree::{Definition, NodeDraft, TermsDraft};
use std::alloc::{AllocError, Global};

/// How many bytes the entry of a node has.
const ENTRY_SIZE: usize = 32;

/// The byte of a top node's missing parent.
const NO_PARENT: u8 = 0xFF;

const PACKAGE: u8 = 0;

const LICENCE: u8 = 1;

/// Writes the page, every byte of it.
pub(crate) fn put_nodes(page: &mut [u8], definition: &Definition)
    requires { length page.old ≡ PAGE_BYTES }
    ensures { page.new ≡ node_page_of definition.now.nodes }
{
    let mut at = 0;
    for place in 0..definition.node_count() {
        at = put_node(page, at, definition, NodeId::new(place));
    }
    fill_zeros(page, at);
}

/// Writes a node.
fn put_node(page: &mut [u8], at: usize, definition: &Definition, node: NodeId) -> usize
    requires room { at + 32 ≤ length page.old }
    requires node { node < length definition.now.nodes }
    ensures written { before result page.new ≡ before at page.old ++ entry_of (node_name definition.now.nodes node) (parent_of definition.now.nodes node) (terms_of definition.now.nodes node) }
    ensures next { result ≡ at + 32 }
{
    let tree = definition.tree();
    let name = definition.name(node);
    let parent = parent_byte(tree.parent(node));
    match tree.terms(node) {
        Some(terms) => put_fields(page, at, name, parent, LICENCE, terms.units, terms.opening),
        None => put_fields(page, at, name, parent, PACKAGE, 0, 0),
    }
}

/// The byte of a parent.
fn parent_byte(parent: Option<NodeId>) -> u8
    ensures { result ≡ parent_byte parent }
{
    match parent {
        Some(parent) => parent.place() as u8,
        None => NO_PARENT,
    }
}

/// Writes the fields of a node.
fn put_fields(
    page: &mut [u8],
    at: usize,
    name: &str,
    parent: u8,
    kind: u8,
    units: u32,
    opening: u64,
) -> usize
    requires room { at + 32 ≤ length page.old }
    requires name { length name.now ≤ 16 }
    ensures written { before result page.new ≡ before at page.old ++ node_fields name.now parent kind units opening }
    ensures next { result ≡ at + 32 }
{
    let at = put_name(page, at, name);
    let at = put_u8(page, at, parent);
    let at = put_u8(page, at, kind);
    let at = put_zeros(page, at, 2);
    let at = put_u32(page, at, units);
    put_u64(page, at, opening)
}

/// The nodes of the only page that the bytes may be, if the page has room for so many. Its zero bytes aren't looked at.
pub(crate) fn nodes_in(
    alloc: Global,
    page: &[u8],
    count: usize,
) -> Result<Option<Vec<NodeDraft>>, AllocError>
    requires page { length page.now ≡ PAGE_BYTES }
    requires count { count ≤ MOST_NODES }
    ensures { (nodes : List Node) → length nodes ≡ count → AllByRecursion HasEntry nodes → page.now ≡ node_page_of nodes
        → IfOk result (λ found. IsSomeAnd found (λ drafts. nodes_said drafts.items ≡ nodes)) }
{
    let mut nodes = Vec::with_capacity(alloc, count)?;
    let (mut rest, _) = front_bytes(page, count * ENTRY_SIZE);
    for _ in 0..count {
        let (entry, after) = front_bytes(rest, ENTRY_SIZE);
        match node_in(alloc, entry)? {
            Some(node) => nodes.push(node)?,
            None => return Ok(None),
        }
        rest = after;
    }
    Ok(Some(nodes))
}

/// The only node whose entry the bytes may be, if there can be one.
fn node_in(alloc: Global, entry: &[u8]) -> Result<Option<NodeDraft>, AllocError>
    requires { length entry.now ≡ 32 }
    ensures { (node : Node) → HasEntry node → entry.now ≡ node_of node → IfOk result (λ found. IsSomeAnd found (λ draft. node_said draft ≡ node)) }
{
    let (name, rest) = front_bytes(entry, MOST_NAME_BYTES);
    let (parent, rest) = front_u8(rest);
    let (kind, rest) = front_u8(rest);
    let (_, rest) = front_bytes(rest, 2);
    let (units, rest) = front_u32(rest);
    let (opening, _) = front_u64(rest);
    let Some(name) = name_in(name) else {
        return Ok(None);
    };
    Ok(Some(NodeDraft {
        name: String::from_str(alloc, name)?,
        parent: parent_in(parent),
        terms: terms_in(kind, units, opening),
    }))
}

/// The place of a parent, or none for the byte of a top node.
fn parent_in(byte: u8) -> Option<u64>
    ensures { (parent : Option ℕ) → byte ≡ parent_byte parent → IfSome parent (λ p. p < 255) → result ≡ parent }
{
    match byte {
        NO_PARENT => None,
        place => Some(u64::from(place)),
    }
}

/// The terms of a licence, or none for a package.
fn terms_in(kind: u8, units: u32, opening: u64) -> Option<TermsDraft>
    ensures licence { kind ≡ 1 → result ≡ Some (record { units = units; opening = opening }) }
    ensures none { kind ≡ 0 → result ≡ None }
{
    match kind {
        LICENCE => Some(TermsDraft {
            units: u64::from(units),
            opening,
        }),
        _ => None,
    }
}
