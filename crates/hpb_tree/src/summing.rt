ghost use Rattle.std.specs.Prelude.{◌≡◌, ◌≤◌, ◌<◌, ◌+◌, ◌*◌, length};
ghost use Rattle.hpb_rules.specs.Tree.{at_or_under, units, units_at, opening, opening_at};
ghost use Rattle.hpb_tree.specs.Draft.{nodes_said};
ghost use Rattle.hpb_tree.specs.Licences.{IsMask, part_over};
ghost use Rattle.hpb_tree.specs.Sound.{AreSound};

use crate::draft::{NodeDraft, TermsDraft};
use crate::outline::{is_licence, terms_at};
use crate::walking::is_at_or_under;
use hpb_rules::{MOST_LICENCE_OPENING, MOST_LICENCE_UNITS, MOST_LICENCES};

/// The units and the opening of a node: the sums over its licences.
pub(crate) fn sums(nodes: &[NodeDraft], node: usize) -> TermsDraft
    requires { AreSound (nodes_said nodes.now) }
    ensures units { result.units ≡ units (nodes_said nodes.now) node }
    ensures most_units { result.units ≤ MOST_LICENCES * MOST_LICENCE_UNITS }
    ensures opening { result.opening ≡ opening (nodes_said nodes.now) node }
    ensures most_opening { result.opening ≤ MOST_LICENCES * MOST_LICENCE_OPENING }
{
    let mut units = 0;
    let mut opening = 0;
    for place in 0..nodes.len() {
        let part = part(nodes, node, place);
        units += part.units;
        opening += part.opening;
    }
    TermsDraft { units, opening }
}

/// The units and the opening that a place adds to the sums of a node.
fn part(nodes: &[NodeDraft], node: usize, place: usize) -> TermsDraft
    requires sound { AreSound (nodes_said nodes.now) }
    requires within { place < length nodes.now }
    ensures units { result.units ≡ part_over (nodes_said nodes.now) (λ l. at_or_under (nodes_said nodes.now) node l) (units_at (nodes_said nodes.now)) place }
    ensures opening { result.opening ≡ part_over (nodes_said nodes.now) (λ l. at_or_under (nodes_said nodes.now) node l) (opening_at (nodes_said nodes.now)) place }
{
    match terms_at(nodes, place) {
        Some(terms) if is_at_or_under(nodes, node, place) => terms,
        _ => TermsDraft {
            units: 0,
            opening: 0,
        },
    }
}

/// The licences of a node: bit i is for the i-th licence, from 0.
pub(crate) fn licences(nodes: &[NodeDraft], node: usize) -> u64
    requires { AreSound (nodes_said nodes.now) }
    ensures { IsMask (nodes_said nodes.now) node result }
{
    let mut mask: u64 = 0;
    let mut number: u32 = 0;
    for place in 0..nodes.len() {
        if is_licence(nodes, place) {
            if is_at_or_under(nodes, node, place) {
                mask |= 1u64 << number;
            }
            number += 1;
        }
    }
    mask
}
