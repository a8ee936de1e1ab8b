ghost use Rattle.std.specs.Prelude.{◌≡◌, ◌==◌, [], ◌++◌, take, length};

use hpb_rules::MOST_LINE_BYTES;
use std::marker::Model;

/// How many bytes of a line are kept: one more than it may have, to see that it is too long.
pub(crate) const KEPT_BYTES: usize = MOST_LINE_BYTES + 1;

/// The kept bytes of a line, as far as it has been read.
#[derive(Drop)]
pub(crate) struct Line {
    bytes: [u8; KEPT_BYTES],
    length: usize,
}

impl Model for Line {
    ghost use Rattle.std.specs.Prelude.{ℕ, List, take, ◌≤◌};
    ghost use Rattle.hpb_server.specs.declared.line.TheConstants.{KEPT_BYTES};

    ghost Value = { List ℕ };

    ghost view = { λ l. take l.length l.bytes };

    ghost invariant = { λ l. l.length ≤ KEPT_BYTES };
}

impl Line {
    pub(crate) fn new() -> Self
        ensures { result ≡ [] }
    {
        Line {
            bytes: [0; KEPT_BYTES],
            length: 0,
        }
    }

    pub(crate) fn is_empty(&self) -> bool
        ensures { result ≡ (length self.now == 0) }
    {
        self.length == 0
    }

    pub(crate) fn as_slice(&self) -> &[u8]
        ensures { result.now ≡ self.now }
    {
        &self.bytes[..self.length]
    }

    pub(crate) fn clear(&mut self)
        ensures { self.new ≡ [] }
    {
        self.length = 0;
    }

    /// Adds the next bytes of the line.
    pub(crate) fn extend(&mut self, part: &[u8])
        ensures { self.new ≡ take KEPT_BYTES (self.old ++ part.now) }
    {
        let room = KEPT_BYTES - self.length;
        let added = &part[..room.min(part.len())];
        let end = self.length + added.len();
        self.bytes[self.length..end].copy_from_slice(added);
        self.length = end;
    }
}
