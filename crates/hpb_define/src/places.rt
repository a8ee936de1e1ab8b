ghost use Rattle.std.specs.Prelude.{◌≡◌, ◌∷◌, ◌++◌, [], List, length, OnOk};
ghost use Rattle.hpb_rules.specs.Tree.{Node};
ghost use Rattle.hpb_define.specs.Spelling.{node_named};
ghost use Rattle.hpb_define.specs.Places.{Places};

use indexmap::IndexMap;
use std::alloc::{AllocError, Global};

/// The places of the nodes read so far, by name. Of two nodes with the same name the first counts.
pub(crate) type NodePlaces = IndexMap<String, u64>;

/// Notes a node's place, if its name is new.
pub(crate) fn note_place(
    alloc: Global,
    places: &mut NodePlaces,
    name: &str,
    place: u64,
) -> Result<(), AllocError>
    ensures { (earlier : List Node) (node : Node) → Places places.old earlier → length earlier ≡ place → node.name ≡ name.now
        → OnOk result (Places places.new (earlier ++ node ∷ [])) }
{
    if places.contains_key(name) {
        return Ok(());
    }
    places.insert(String::from_str(alloc, name)?, place)?;
    Ok(())
}

/// The place of the node with a name, if one was noted.
pub(crate) fn place_named(places: &NodePlaces, name: &str) -> Option<u64>
    ensures { (earlier : List Node) → Places places.now earlier → result ≡ node_named earlier name.now }
{
    places.get(name).copied()
}
