//! The laws of what an image stands for.
ghost use Rattle.hpb_recover.specs.Laws.{FlawIsOne, ReadIsFlawless, ReadIsShown, ReadingIsOne, StandsForOne, StandsIsRead};

use hpb_codec::heads_are_one;
use hpb_journal::shapes_are_journal;
use hpb_slots::newest_is_one;

/// An image stands for a list of commands exactly under these conditions. It can be read. Its checkpoint shows a front
/// of the list, and its batches are the rest.
pub fn stands_is_read()
    ensures { StandsIsRead }
{}

/// An image has at most one complete reading.
pub fn reading_is_one()
    ensures { ReadingIsOne }
{
    heads_are_one();
    newest_is_one();
    shapes_are_journal();
}

/// The value that is read in an image shows each list of commands that the image stands for.
pub fn read_is_shown()
    ensures { ReadIsShown }
{
    heads_are_one();
    newest_is_one();
    shapes_are_journal();
}

/// An image stands for at most one value.
pub fn stands_for_one()
    ensures { StandsForOne }
{
    heads_are_one();
    newest_is_one();
    shapes_are_journal();
}

/// An image has at most one flaw.
pub fn flaw_is_one()
    ensures { FlawIsOne }
{
    heads_are_one();
}

/// An image that can be read has no flaw. So an image that stands for a list of commands has none.
pub fn read_is_flawless()
    ensures { ReadIsFlawless }
{
    heads_are_one();
    newest_is_one();
    shapes_are_journal();
}
