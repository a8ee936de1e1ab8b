ghost use Rattle.std.specs.Prelude.{◌≡◌, ◌<◌};
ghost use Rattle.hpb_rules.specs.declared.limits.TheConstants.{MOST_BIDDERS, MOST_NODES};

use std::marker::Model;

/// A node, by its place in the definition, from 0.
#[derive(Clone, Copy, Debug, PartialEq, Eq)]
pub struct NodeId {
    place: u8,
}

impl Model for NodeId {
    ghost use Rattle.std.specs.Prelude.{ℕ, ◌<◌};
    ghost use Rattle.hpb_rules.specs.declared.limits.TheConstants.{MOST_NODES};

    ghost Value = { ℕ };

    ghost view = { λ n. n.place };

    ghost invariant = { λ n. n.place < MOST_NODES };

    ghost inverse = { λ n. record { place = n } };
}

impl NodeId {
    /// The node at a place.
    pub fn new(place: usize) -> Self
        requires { place < MOST_NODES }
        ensures { result ≡ place }
    {
        NodeId { place: place as u8 }
    }

    /// Its place in the definition.
    pub fn place(self) -> usize
        ensures value { result ≡ self }
        ensures bound { result < MOST_NODES }
    {
        self.place as usize
    }
}

/// A bidder, by its place in the definition, from 0.
#[derive(Clone, Copy, Debug, PartialEq, Eq)]
pub struct BidderId {
    place: u8,
}

impl Model for BidderId {
    ghost use Rattle.std.specs.Prelude.{ℕ, ◌<◌};
    ghost use Rattle.hpb_rules.specs.declared.limits.TheConstants.{MOST_BIDDERS};

    ghost Value = { ℕ };

    ghost view = { λ b. b.place };

    ghost invariant = { λ b. b.place < MOST_BIDDERS };

    ghost inverse = { λ b. record { place = b } };
}

impl BidderId {
    /// The bidder at a place.
    pub fn new(place: usize) -> Self
        requires { place < MOST_BIDDERS }
        ensures { result ≡ place }
    {
        BidderId { place: place as u8 }
    }

    /// Its place in the definition.
    pub fn place(self) -> usize
        ensures value { result ≡ self }
        ensures bound { result < MOST_BIDDERS }
    {
        self.place as usize
    }
}
