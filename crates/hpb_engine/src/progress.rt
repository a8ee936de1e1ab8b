ghost use Rattle.std.specs.Prelude.{◌≡◌, ◌+◌, ◌≤◌};
ghost use Rattle.hpb_rules.specs.declared.limits.TheConstants.{MOST_COMMANDS};
ghost use Rattle.hpb_codec.specs.declared.layout.TheConstants.{MOST_FRAMES};

use hpb_auction::Auction;
use hpb_codec::Batch;
use hpb_journal::{AnyFrames, Frames};
use hpb_rules::Answers;
use hpb_slots::Slot;

/// All that an engine knows between two steps, apart from its device.
#[derive(Drop)]
pub struct Progress {
    /// The auction after the acknowledged commands.
    pub committed: Auction,
    pub window: Window,
    pub commit: Commit,
    pub checkpoint: Checkpoint,
    pub retirement: Retirement,
}

/// The frames of the journal, by the indexes of their batches: which are in use, and which are clean.
#[derive(Drop)]
pub struct Window {
    /// The places of the frames on the device.
    pub frames: AnyFrames,
    /// How many batches the newest slot covers.
    pub covered: u64,
    /// The index of the next batch.
    pub next: u64,
    /// The end of the clean frames: those from `next` up to here are closed in every image that a crash may leave.
    pub clean_end: u64,
    /// The value of `covered` when the device was opened.
    pub opened_at: u64,
    /// For each frame, beginning with that of batch `opened_at`: whether its gate was open when the device was opened.
    pub gates: Vec<bool>,
}

impl Window {
    ghost use Rattle.hpb_engine.specs.Numbers.{end_of, may_be_open};

    /// The end of the frames that serve the batches from `covered` on.
    pub fn end(&self) -> u64
        requires { self.now.covered ≤ MOST_COMMANDS + MOST_COMMANDS + MOST_FRAMES }
        ensures { result ≡ end_of self.now }
    {
        self.covered + u64::from(self.frames.count())
    }

    /// Whether the gate of this frame, which isn't clean, may be open.
    pub fn may_be_open(&self, index: u64) -> bool
        requires { self.now.opened_at ≤ index }
        ensures { result ≡ may_be_open self.now index }
    {
        let place = index - self.opened_at;
        if place >= u64::from(self.frames.count()) {
            return true;
        }
        match self.gates.get(place as usize) {
            Some(is_open) => *is_open,
            None => false,
        }
    }
}

/// The batch on its way to the device, if there is one.
#[derive(Drop)]
pub struct Commit {
    /// Whether a batch is in flight. If none is, the other fields but `working` mean nothing.
    pub busy: bool,
    /// How many turns the batch has had, at most three: its body is written; the body is on the device; its gate is
    /// written.
    pub turns: u8,
    /// Its new commands.
    pub batch: Batch,
    /// The answers to all its letters.
    pub answers: Answers,
    /// The auction after the batch. With none in flight, a copy of the committed auction.
    pub working: Auction,
}

/// The checkpoint on its way to the device, if there is one.
#[derive(Drop)]
pub struct Checkpoint {
    /// The slot with the newest state. The checkpoint is written into the other one.
    pub newest: Slot,
    /// Whether the gate of the other slot may be open.
    pub other_open: bool,
    /// How many steps the checkpoint has made, 0 to 8; 0 if none is begun. After 1 the other slot's gate is closed, and
    /// after 2 that is on the device. After 6 the four chunks are written, and after 7 they are on the device. After 8
    /// the gate is open.
    pub steps: u8,
    /// How many batches it covers.
    pub covers: u64,
    /// Its bytes, `STATE_SIZE` of them.
    pub body: Vec<u8>,
}

/// The frames that are being made clean again.
#[derive(Drop)]
pub struct Retirement {
    /// Whether it has begun, and its sync isn't done yet.
    pub going: bool,
    /// The frames from the end of the clean ones up to here are closed. If it hasn't begun, this is that end.
    pub upto: u64,
}
