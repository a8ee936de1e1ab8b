//! Devices: reads, writes and syncs, and the images that a crash may leave.
#![tactic(auto)]

mod disk;
mod done;
mod fate;
mod fault;
mod faulty;
mod file;
mod gates;
mod laws;
mod memory;
mod opening;
mod replacing;
mod stamp;
mod stop;
#[cfg(test)]
mod tests;
mod trace;

pub use disk::{Disk, DiskFailed};
pub use fate::Fate;
pub use fault::FileFault;
pub use faulty::{Faults, FaultyDisk, FromThenOn, FuseDisk, OnceDisk, ThatAlone};
pub use file::{FileDisk, MOST_BYTES};
pub use gates::{close_gate, gate_is_open, open_gate};
pub use laws::{elsewhere_stays, open_or_closed, put_is_read, put_is_torn, torn_gate_is_a_byte};
pub use memory::MemoryDisk;
pub use replacing::replace_record;
pub use stamp::FileStamp;
