//! The laws of a journal, for all frames.
ghost use Rattle.hpb_journal.specs.Laws.{ClosedShowsNothing, KeptGoesOn, KeptIsCut, KeptIsOne, KeptIsOwn, KeptStays, NearAreApart, OpenOrClosed};

use crate::Frames;

/// Each frame is open or closed.
pub fn open_or_closed<F: Frames>(_frames: &F)
    ensures { OpenOrClosed (F.layout _frames.now) }
{}

/// Batches whose indexes differ by less than the number of frames have different frames.
pub fn near_are_apart<F: Frames>(frames: &F)
    ensures { NearAreApart (F.layout frames.now) }
{
    frames.laws();
}

/// A torn body shows nothing behind a closed gate.
pub fn closed_shows_nothing<F: Frames>(frames: &F)
    ensures { ClosedShowsNothing (F.layout frames.now) }
{
    frames.laws();
}

/// If the frames of kept batches stay, the batches stay kept.
pub fn kept_stays<F: Frames>(_frames: &F)
    ensures { KeptStays (F.layout _frames.now) }
{}

/// A frame that continues the contents of a journal belongs to the contents.
pub fn kept_goes_on<F: Frames>(_frames: &F)
    ensures { KeptGoesOn (F.layout _frames.now) }
{}

/// The contents behind the first batches are the contents from their end on.
pub fn kept_is_cut<F: Frames>(_frames: &F)
    ensures { KeptIsCut (F.layout _frames.now) }
{}

/// If a journal contains two lists of batches from the same index and number on, the shorter is a front of the longer.
pub fn kept_is_one<F: Frames>(frames: &F)
    ensures { KeptIsOne (F.layout frames.now) }
{
    frames.laws();
}

/// Each of the batches has a frame that is open with its index, and there are no more batches than frames.
pub fn kept_is_own<F: Frames>(frames: &F)
    ensures { KeptIsOwn (F.layout frames.now) }
{
    frames.laws();
}
