//! The definition of most rows. `all` 0 has `east` 1 and the licence `c` 4, and `east` has the licences `a` 2 and `b`
//! 3. The licence `d` 5 stands alone. There are four bidders and two stages.

use hpb_auction::Auction;
use hpb_define::read_definition;
use hpb_tree::Definition;
use std::alloc::{AllocError, Global};
use std::test::Fail;

/// The text behind the number of waivers.
const SIX_NODES: &str =
    ",\"step\":10,\"percent\":10,\"stages\":[80,95],\"nodes\":[{\"name\":\"all\",\"parent\":null},{\"name\":\"east\",\"parent\":\"all\"},{\"name\":\"a\",\"parent\":\"east\",\"units\":10,\"opening\":100},{\"name\":\"b\",\"parent\":\"east\",\"units\":10,\"opening\":100},{\"name\":\"c\",\"parent\":\"all\",\"units\":20,\"opening\":100},{\"name\":\"d\",\"parent\":null,\"units\":5,\"opening\":100}],\"bidders\":[{\"name\":\"x\",\"units\":10},{\"name\":\"y\",\"units\":10},{\"name\":\"z\",\"units\":40},{\"name\":\"w\",\"units\":25}]}\n";

/// The line of the definition with this many waivers.
pub(crate) fn definition_line(alloc: Global, waivers: u8) -> Result<String, AllocError> {
    format!(in alloc; "{{\"waivers\":{waivers}{SIX_NODES}")
}

/// The definition with this many waivers.
pub(crate) fn six_nodes_with(alloc: Global, waivers: u8) -> Result<Box<Definition>, Fail> {
    let line = definition_line(alloc, waivers)?;
    Ok(Box::new(alloc, read_definition(alloc, line.as_bytes())?)?)
}

/// The definition without waivers.
pub(crate) fn six_nodes(alloc: Global) -> Result<Box<Definition>, Fail> {
    six_nodes_with(alloc, 0)
}

/// An auction of it before its first command.
pub(crate) fn new_auction(alloc: Global) -> Result<Box<Auction>, Fail> {
    let definition = six_nodes(alloc)?;
    Ok(Box::new(alloc, Auction::new(alloc, &definition)?)?)
}
