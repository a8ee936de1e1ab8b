//! Definitions of auctions: the tree of packages and licences, the bidders and the stages.
#![tactic(auto)]

mod building;
mod checking;
mod definition;
mod draft;
mod fault;
mod hints;
mod key;
mod named;
mod outline;
mod summing;
mod tree;
mod walking;

pub use definition::Definition;
pub use draft::{BidderDraft, Draft, NodeDraft, TermsDraft};
pub use fault::DefinitionFault;
pub use tree::Tree;
