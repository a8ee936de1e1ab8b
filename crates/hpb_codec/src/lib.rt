//! The bytes that a device keeps. Each table of the formats has a file in `specs/`, which defines its bytes, and one in
//! `src/`, which writes and reads them.
//!
//! A reader returns the value that the bytes spell, and `None` exactly if they spell none. A writer writes the one
//! spelling of a value, with unused bytes zero. A length that bytes claim isn't trusted, and no bytes make a reader
//! fail in any other way. No call but `decode_head` takes memory.
#![tactic(auto)]

mod batch;
mod bidder_entry;
mod bidders;
mod cells;
mod head;
mod laws;
mod layout;
mod name;
mod node_entry;
mod nodes;
mod reader;
mod record;
mod state;
mod state_format;
mod state_head;
mod table;
mod writer;

pub use batch::{BATCH_SIZE, Batch, batch_index, decode_batch, encode_batch};
pub use cells::{CELLS_SIZE, decode_cells, encode_cells};
pub use head::{HEAD_SIZE, Head, decode_head, encode_head, has_magic};
pub use laws::{
    batches_are_one, cells_are_one, heads_are_one, layout_is_named, limits_are, states_are_one,
};
pub use layout::{
    CELL_FRAMES_STEP, JournalLayout, JournalShape, LEAST_CELL_FRAMES, LEAST_FRAMES, MOST_FRAMES,
    PAGE_BYTES,
};
pub use record::RECORD_SIZE;
pub use state::{
    CHUNK_SIZE, CHUNKS, STATE_SIZE, chunk, count_said, decode_state, encode_state, encode_state_1,
};
pub use state_format::StateFormat;
