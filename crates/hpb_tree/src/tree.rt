ghost use Rattle.std.specs.Prelude.{◌≡◌, ℕ, ◌<◌, ◌≤◌, ◌*◌, length, IfSome, Some, position, string_bytes, IfOk, All, slice_index_or};
ghost use Rattle.std.specs.List.{range_with_len};
ghost use Rattle.std.specs.Str.{bytes_eq};
ghost use Rattle.hpb_rules.specs.Tree.{TreeRules, IsTree, parent_of, terms_of, places, units, opening};
ghost use Rattle.hpb_rules.specs.Prices.{children_among};
ghost use Rattle.hpb_rules.specs.Text.{node_name};
ghost use Rattle.hpb_tree.specs.Inside.{tree_inside, IsChecked, AreCopies};
ghost use Rattle.hpb_tree.specs.Licences.{IsMask, licence_count};

use crate::named::place_named;
use hpb_rules::{
    MOST_LICENCE_OPENING, MOST_LICENCE_UNITS, MOST_LICENCES, MOST_NODES, MOST_PERCENT, MOST_STEP,
    NodeId, Terms,
};
use std::alloc::{AllocError, Global};
use std::marker::Model;

/// A node, with the sums and places that follow from the whole tree.
#[derive(Debug, Drop)]
pub(crate) struct TreeNode {
    pub(crate) name: String,
    pub(crate) parent: Option<NodeId>,
    pub(crate) terms: Option<Terms>,
    /// The sum of its licences' bidding units.
    pub(crate) units: u32,
    pub(crate) opening: u64,
    /// A bit for each of its licences, by the licence's number.
    pub(crate) licences: u64,
    pub(crate) children: u8,
    /// Its place among its parent's children, from 0.
    pub(crate) rank: u8,
}

/// The tree of packages and licences, with the step and the percent of its bids. A parent stands before its children; a
/// licence is a leaf and a package has children.
#[derive(Debug, Drop)]
pub struct Tree {
    pub(crate) step: u32,
    pub(crate) percent: u8,
    pub(crate) nodes: Vec<TreeNode>,
    /// Each node by its place, in their order.
    pub(crate) ids: Vec<NodeId>,
}

impl Model for Tree {
    ghost Value = { TreeRules };

    ghost view = { tree_inside };

    ghost invariant = { IsChecked };
}

impl Tree {
    /// The step: each bid is a multiple of it. In whole dollars, 1 to 1,000,000.
    pub fn step(&self) -> u32
        ensures value { result ≡ self.now.step }
        ensures some { 0 < result }
        ensures most { result ≤ MOST_STEP }
    {
        self.step
    }

    /// The percent by which a minimum is above a price, 1 to 50.
    pub fn percent(&self) -> u8
        ensures value { result ≡ self.now.percent }
        ensures most { result ≤ MOST_PERCENT }
    {
        self.percent
    }

    /// A copy of the tree. Fails only if memory is refused.
    pub(crate) fn copy(&self, alloc: Global) -> Result<Tree, AllocError>
        ensures { IfOk result (λ t. t ≡ self.now) }
    {
        let nodes = copy_nodes(alloc, self.nodes.as_slice())?;
        Ok(Tree {
            step: self.step,
            percent: self.percent,
            nodes,
            ids: self.ids.as_slice().to_vec(alloc)?,
        })
    }

    /// Proves what holds of each tree: its numbers are in range, and its nodes are within the limits and in the shape
    /// of a tree.
    pub fn facts(&self)
        ensures some_step { 0 < self.now.step }
        ensures most_step { self.now.step ≤ MOST_STEP }
        ensures some_percent { 0 < self.now.percent }
        ensures most_percent { self.now.percent ≤ MOST_PERCENT }
        ensures some_node { 0 < length self.now.nodes }
        ensures most_nodes { length self.now.nodes ≤ MOST_NODES }
        ensures most_licences { licence_count self.now.nodes ≤ MOST_LICENCES }
        ensures tree { IsTree self.now.nodes }
    {
        let _ = &self.step;
    }

    /// The nodes, in their order: a parent stands before its children.
    pub fn nodes(&self) -> &[NodeId]
        ensures value { result.now ≡ places self.now.nodes }
        ensures count { length result.now ≡ length self.now.nodes }
        ensures within { All (λ node. node < length self.now.nodes) result.now }
        ensures each { (place other : ℕ) → place < length self.now.nodes → slice_index_or result.now place other ≡ place }
    {
        self.ids.as_slice()
    }

    /// How many nodes there are, 1 to 127.
    pub fn node_count(&self) -> usize
        ensures value { result ≡ length self.now.nodes }
        ensures some { 0 < result }
        ensures most { result ≤ MOST_NODES }
    {
        self.nodes.len()
    }

    /// A node's name, 1 to 16 bytes of `a-z0-9_`.
    pub(crate) fn name(&self, node: NodeId) -> &str
        requires { node < length self.now.nodes }
        ensures { result.now ≡ node_name self.now.nodes node }
    {
        let index = node.place();
        self.nodes[index].name.as_str()
    }

    /// The node with this name, if there is one.
    pub(crate) fn find_node(&self, name: &[u8]) -> Option<NodeId>
        ensures value { result ≡ position (λ n. bytes_eq n.name name.now) self.now.nodes }
        ensures within { IfSome result (λ n. n < length self.now.nodes) }
    {
        match place_named(self.nodes.as_slice(), name) {
            Some(place) => Some(NodeId::new(place)),
            None => None,
        }
    }

    /// A node's parent, which stands before it. A top node has none.
    pub fn parent(&self, node: NodeId) -> Option<NodeId>
        requires { node < length self.now.nodes }
        ensures value { result ≡ parent_of self.now.nodes node }
        ensures before { IfSome result (λ p. p < node) }
    {
        let index = node.place();
        self.nodes[index].parent
    }

    /// A licence's terms. A package has none.
    pub fn terms(&self, node: NodeId) -> Option<Terms>
        requires { node < length self.now.nodes }
        ensures { result ≡ terms_of self.now.nodes node }
    {
        let index = node.place();
        self.nodes[index].terms
    }

    /// The bidding units of a node. For a package they are the sum over its licences.
    pub fn units(&self, node: NodeId) -> u32
        requires { node < length self.now.nodes }
        ensures value { result ≡ units self.now.nodes node }
        ensures most { result ≤ MOST_LICENCES * MOST_LICENCE_UNITS }
    {
        let index = node.place();
        self.nodes[index].units
    }

    /// The opening of a node, in whole dollars. For a package it is the sum over its licences.
    pub fn opening(&self, node: NodeId) -> u64
        requires { node < length self.now.nodes }
        ensures value { result ≡ opening self.now.nodes node }
        ensures most { result ≤ MOST_LICENCES * MOST_LICENCE_OPENING }
    {
        let index = node.place();
        self.nodes[index].opening
    }

    /// The licences of a node: bit i is for the i-th licence of the definition, from 0.
    pub fn licences(&self, node: NodeId) -> u64
        requires { node < length self.now.nodes }
        ensures { IsMask self.now.nodes node result }
    {
        let index = node.place();
        self.nodes[index].licences
    }

    /// How many children a node has. A licence has none.
    pub fn children(&self, node: NodeId) -> u64
        requires { node < length self.now.nodes }
        ensures { result ≡ children_among self.now.nodes node (places self.now.nodes) }
    {
        let index = node.place();
        u64::from(self.nodes[index].children)
    }

    /// A node's place among its parent's children, from 0.
    pub fn rank(&self, node: NodeId) -> u64
        requires { node < length self.now.nodes }
        ensures value { (p : ℕ) → parent_of self.now.nodes node ≡ Some p → result ≡ children_among self.now.nodes p (range_with_len 0 node) }
        ensures below { (p : ℕ) → parent_of self.now.nodes node ≡ Some p → result < children_among self.now.nodes p (places self.now.nodes) }
    {
        let index = node.place();
        u64::from(self.nodes[index].rank)
    }
}

impl TreeNode {
    fn copy(&self, alloc: Global) -> Result<TreeNode, AllocError>
        ensures name { IfOk result (λ n. string_bytes n.name ≡ string_bytes self.now.name) }
        ensures rest { IfOk result (λ n. n ≡ record self.now { name = n.name }) }
    {
        let name = String::from_str(alloc, self.name.as_str())?;
        Ok(TreeNode {
            name,
            parent: self.parent,
            terms: self.terms,
            units: self.units,
            opening: self.opening,
            licences: self.licences,
            children: self.children,
            rank: self.rank,
        })
    }
}

fn copy_nodes(alloc: Global, nodes: &[TreeNode]) -> Result<Vec<TreeNode>, AllocError>
    ensures { IfOk result (λ v. AreCopies nodes.now v.items) }
{
    let mut copied = Vec::with_capacity(alloc, nodes.len())?;
    for node in nodes {
        copied.push(node.copy(alloc)?)?;
    }
    Ok(copied)
}
