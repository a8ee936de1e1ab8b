ghost use Rattle.std.specs.Prelude.{◌≡◌, ◌↔◌, ◌<◌, ◌≤◌, ◌++◌, [], ◌∷◌, Option, IsOk, OnOk, IfErr, OnErr, length, slice_get};
ghost use Rattle.hpb_rules.specs.declared.limits.TheConstants.{MOST_LETTERS};

use crate::command::Command;
use crate::letter::{Answer, Letter};
use crate::limits::MOST_LETTERS;
use crate::reply::Reply;
use std::marker::Model;

/// Items of a list of fixed size.
pub trait Blank: Copy + Drop {
    /// The item that fills unused places. It is never seen.
    fn blank() -> Self;
}

impl Blank for Command {
    fn blank() -> Self {
        Command::Close { ticket: 0 }
    }
}

impl Blank for Letter {
    fn blank() -> Self {
        Letter {
            seat: 0,
            command: Command::blank(),
        }
    }
}

impl Blank for Answer {
    fn blank() -> Self {
        Answer {
            letter: Letter::blank(),
            at: 0,
            reply: Reply::blank(),
        }
    }
}

impl Blank for Reply {
    fn blank() -> Self {
        Reply::Ok(0)
    }
}

/// A list of at most `MOST_LETTERS` items. It has a fixed size: no call takes memory.
#[derive(Drop)]
pub struct Few<T: Blank> {
    items: [T; MOST_LETTERS],
    count: usize,
}

/// Letters, in the order in which they are judged.
pub type Letters = Few<Letter>;

/// Answers to letters, in their order.
pub type Answers = Few<Answer>;

/// Commands of one batch, in the order of their acceptance; or commands to be asked, in their order.
pub type Commands = Few<Command>;

/// Replies to commands that were asked together, in their order.
pub type Replies = Few<Reply>;

impl<T: Blank> Model for Few<T> {
    ghost use Rattle.std.specs.Prelude.{List, take, ◌≤◌};
    ghost use Rattle.hpb_rules.specs.declared.limits.TheConstants.{MOST_LETTERS};

    ghost Value = { List T };

    ghost view = { λ few. take few.count few.items };

    ghost invariant = { λ few. few.count ≤ MOST_LETTERS };
}

impl<T: Blank> Few<T> {
    /// A list without an item.
    pub fn new() -> Self
        ensures { result ≡ [] }
    {
        Few {
            items: [T::blank(); MOST_LETTERS],
            count: 0,
        }
    }

    /// Adds an item at the end. A full list stays as it is, and the item is handed back.
    pub fn push(&mut self, item: T) -> Result<(), T>
        ensures room { IsOk result ↔ (length self.old < MOST_LETTERS) }
        ensures pushed { OnOk result (self.new ≡ self.old ++ item ∷ []) }
        ensures full { OnErr result (self.new ≡ self.old) }
        ensures back { IfErr result (λ back. back ≡ item) }
    {
        if self.count == MOST_LETTERS {
            return Err(item);
        }
        self.items[self.count] = item;
        self.count += 1;
        Ok(())
    }

    /// Removes all items.
    pub fn clear(&mut self)
        ensures { self.new ≡ [] }
    {
        self.count = 0;
    }

    /// The items, in their order.
    pub fn as_slice(&self) -> &[T]
        ensures value { result.now ≡ self.now }
        ensures most { length result.now ≤ MOST_LETTERS }
    {
        &self.items[..self.count]
    }

    /// How many items there are, at most `MOST_LETTERS`.
    pub fn len(&self) -> usize
        ensures value { result ≡ length self.now }
        ensures most { result ≤ MOST_LETTERS }
    {
        self.as_slice().len()
    }

    /// The item at a place, from 0, if there is one.
    pub fn get(&self, place: usize) -> Option<T>
        ensures { result ≡ slice_get self.now place }
    {
        self.as_slice().get(place).copied()
    }
}
