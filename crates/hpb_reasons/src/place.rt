//! Places in a definition, shown as `jq` writes them.
use crate::shown::Key;
use std::fmt;

/// The lists of a definition.
#[derive(Clone, Copy)]
pub(crate) enum List {
    Stages,
    Nodes,
    Bidders,
}

impl List {
    /// The field that holds the list.
    pub(crate) fn field(self) -> &'static str {
        match self {
            List::Stages => "stages",
            List::Nodes => "nodes",
            List::Bidders => "bidders",
        }
    }

    /// The item of the list at an index, from 0.
    pub(crate) fn item(self, index: usize) -> Item {
        Item { list: self, index }
    }
}

/// An item of a list.
#[derive(Clone, Copy)]
pub(crate) struct Item {
    list: List,
    index: usize,
}

impl Item {
    /// A field of the item.
    pub(crate) fn field(self, key: &str) -> Place<'_> {
        Place::FieldOf(self, key)
    }

    /// Whether this is the item at an index, from 0, of the list in this field.
    pub(crate) fn is(self, field: &[u8], index: usize) -> bool {
        self.list.field().as_bytes() == field && self.index == index
    }
}

impl fmt::Display for Item {
    fn fmt<W: fmt::Write>(&self, f: &mut fmt::Formatter<W>) -> fmt::Result {
        let (list, index) = (self.list.field(), self.index);
        write!(f, "{list}[{index}]")
    }
}

/// A place in a definition.
#[derive(Clone, Copy)]
pub(crate) enum Place<'v> {
    /// The definition itself.
    Whole,
    /// A field of the definition.
    Field(&'v str),
    /// An item of a list.
    Item(Item),
    /// A field of an item.
    FieldOf(Item, &'v str),
}

impl<'v> Place<'v> {
    /// A field of the object at this place.
    pub(crate) fn field(self, key: &'v str) -> Place<'v> {
        match self {
            Place::Item(item) => item.field(key),
            _ => Place::Field(key),
        }
    }
}

impl fmt::Display for Place<'_> {
    fn fmt<W: fmt::Write>(&self, f: &mut fmt::Formatter<W>) -> fmt::Result {
        match self {
            Place::Whole => f.write_str("the definition"),
            Place::Field(key) => write!(f, "{}", Key(key)),
            Place::Item(item) => write!(f, "{item}"),
            Place::FieldOf(item, key) => write!(f, "{item}.{}", Key(key)),
        }
    }
}
