//! The law of each table: a value has one spelling, and bytes spell at most one value.
ghost use Rattle.hpb_codec.specs.Laws.{BatchBegins, BatchesAreOne, CellsAreFewest, CellsAreOne, CellsBegin, ChunksAreBody, HeadsAreOne, LayoutIsNamed, RecordsAreOne, StatesAreOne};
ghost use Rattle.hpb_codec.specs.Limits.{LimitsAre};

/// A command has one record and a batch one body. Bytes are the record of at most one command, and the body of at most
/// one batch. That body begins with the batch's index.
pub fn batches_are_one()
    ensures records { RecordsAreOne }
    ensures bodies { BatchesAreOne }
    ensures begin { BatchBegins }
{}

/// A batch has one spelling in cells, with as few cells as hold its fields and records. Bytes are the cells of at most
/// one batch. The body of a frame of cells begins with the cells of at most one batch, and with the batch's index.
pub fn cells_are_one()
    ensures bodies { CellsAreOne }
    ensures begin { CellsBegin }
    ensures fewest { CellsAreFewest }
{}

/// A saved auction with a batch index has one body in each format. Bytes are the body of at most one of these, whatever
/// the format. The chunks of a body, one after another, are the body.
pub fn states_are_one()
    ensures bodies { StatesAreOne }
    ensures chunks { ChunksAreBody }
{}

/// A definition with the shape of its journal has one head in each format of states. Bytes are the head of at most one
/// of these, whatever the format.
pub fn heads_are_one()
    ensures { HeadsAreOne }
{}

/// A head names the layout of its journal by the byte behind its magic.
pub fn layout_is_named()
    ensures { LayoutIsNamed }
{}

/// Each size and each limit of the code is the number that the written format names.
pub fn limits_are()
    ensures { LimitsAre }
{}
