//! The line of each refusal.
ghost use Rattle.std.specs.Prelude.{◌≡◌};
ghost use Rattle.hpb_rules.specs.Rendering.{refusal_text};
ghost use Rattle.hpb_rules.specs.Text.{line_of};

use hpb_rules::Refusal;

/// The line of a refusal. It takes no memory.
pub(crate) fn refusal_line(refusal: Refusal) -> &'static str
    ensures { result.now ≡ line_of (refusal_text refusal) }
{
    match refusal {
        Refusal::Line => "ERR 10 line\n",
        Refusal::Bidder => "ERR 11 bidder\n",
        Refusal::Node => "ERR 12 node\n",
        Refusal::Old => "ERR 13 old\n",
        Refusal::Ticket => "ERR 14 ticket\n",
        Refusal::Gap => "ERR 15 gap\n",
        Refusal::Closed => "ERR 20 closed\n",
        Refusal::Step => "ERR 21 step\n",
        Refusal::Low => "ERR 22 low\n",
        Refusal::High => "ERR 23 high\n",
        Refusal::Again => "ERR 24 again\n",
        Refusal::Eligibility => "ERR 25 eligibility\n",
        Refusal::Limit => "ERR 26 limit\n",
        Refusal::Stage => "ERR 27 stage\n",
        Refusal::Waiver => "ERR 28 waiver\n",
        Refusal::Waived => "ERR 29 waived\n",
        Refusal::Unformatted => "ERR 40 unformatted\n",
        Refusal::Formatted => "ERR 41 formatted\n",
        Refusal::Layout => "ERR 42 layout\n",
        Refusal::Length => "ERR 43 length\n",
        Refusal::Checkpoint => "ERR 44 checkpoint\n",
        Refusal::Frame => "ERR 45 frame\n",
        Refusal::Empty => "ERR 50 empty\n",
        Refusal::Name => "ERR 51 name\n",
        Refusal::Duplicate => "ERR 52 duplicate\n",
        Refusal::Parent => "ERR 53 parent\n",
        Refusal::Children => "ERR 54 children\n",
        Refusal::Leaf => "ERR 55 leaf\n",
        Refusal::Limits => "ERR 56 limits\n",
        Refusal::Terms => "ERR 57 terms\n",
        Refusal::Json => "ERR 60 json\n",
        Refusal::Field => "ERR 61 field\n",
        Refusal::Number => "ERR 62 number\n",
        Refusal::Memory => "ERR 90 memory\n",
        Refusal::Device => "ERR 91 device\n",
        Refusal::Stream => "ERR 92 stream\n",
        Refusal::Failed => "ERR 93 failed\n",
        Refusal::Place => "ERR 94 place\n",
        Refusal::Order => "ERR 95 order\n",
        Refusal::Counts => "ERR 96 counts\n",
    }
}
