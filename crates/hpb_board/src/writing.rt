//! The writer of the two copies, as the publisher uses it.
ghost use Rattle.std.specs.Prelude.{◌≡◌, ◌++◌, [], ◌∷◌, drop, length, map, replicate, IsOk, OnOk, OnErr, IfOk, MatchBool};
ghost use Rattle.left_right.specs.Sides.{view};
ghost use Rattle.hpb_board.specs.Rows.{blank};
ghost use Rattle.hpb_board.specs.Contents.{content};
ghost use Rattle.hpb_board.specs.Views.{AreBlank, IsPublisher, opening};
ghost use Rattle.hpb_board.specs.declared.rule.View.TheVariants.{Of};

use crate::board::{Board, Prepared};
use crate::rule::{Law, Opens, Stays, View};
use crate::trail::Trail;
use hpb_rules::Letters;
use left_right::writer::Writer;
use std::alloc::{AllocError, Global};
use std::sync::Wait;

pub(crate) type BoardWriter = Writer<Board, Prepared, View, Law>;

/// A copy of a list of letters.
pub(crate) fn copied(letters: &Letters) -> Letters
    ensures { result ≡ letters.now }
{
    let mut copy = Letters::new();
    for letter in letters.as_slice() {
        let _ = copy.push(*letter);
    }
    copy
}

/// Adds a batch to the pending operations, and returns whether it did. It didn't if memory was refused.
pub(crate) fn put(writer: &mut BoardWriter, batch: Prepared) -> bool
    ensures desk { writer.new.desk ≡ writer.old.desk }
    ensures pending { MatchBool result (drop writer.new.behind writer.new.log.items ≡ drop writer.old.behind writer.old.log.items ++ batch ∷ []) (drop writer.new.behind writer.new.log.items ≡ drop writer.old.behind writer.old.log.items) }
{
    writer.append(batch).is_ok()
}

/// Adds an operation that changes nothing to the pending ones, and returns whether it did.
fn put_blank(writer: &mut BoardWriter) -> bool
    requires { AreBlank writer.old.desk.shown.value (drop writer.old.behind writer.old.log.items) }
    ensures desk { writer.new.desk ≡ writer.old.desk }
    ensures pending { AreBlank writer.new.desk.shown.value (drop writer.new.behind writer.new.log.items) }
{
    let board = writer.published();
    let blank = Prepared {
        letters: Letters::new(),
        trail: board.trail.again(),
        number: board.number,
    };
    put(writer, blank)
}

/// Adds two operations that change nothing. So the writer's list has room for two, and keeps that room.
pub(crate) fn reserve<R: Wait>(rt: &R, writer: BoardWriter) -> Result<BoardWriter, AllocError>
    requires { drop writer.behind writer.log.items ≡ [] }
    ensures desk { IfOk result (λ w. w.desk ≡ writer.desk) }
    ensures pending { IfOk result (λ w. AreBlank w.desk.shown.value (drop w.behind w.log.items)) }
{
    let mut writer = writer;
    if put_blank(&mut writer) && put_blank(&mut writer) {
        return Ok(writer);
    }
    drop(writer.take(rt));
    Err(AllocError)
}

/// Publishes all prepared batches.
pub(crate) fn show<R: Wait>(rt: &R, writer: BoardWriter, trail: &Trail) -> BoardWriter
    requires { IsPublisher writer.desk.shown.value (view writer.desk.place) (drop writer.behind writer.log.items) trail.now.book trail.now.log }
    ensures kept { IsPublisher result.desk.shown.value (view result.desk.place) (drop result.behind result.log.items) trail.now.book trail.now.log }
    ensures knows { view result.desk.place ≡ view writer.desk.place }
    ensures list { result.desk.shown.value.trail.log ≡ writer.desk.shown.value.trail.log ++ map (λ b. b.letters) (drop writer.behind writer.log.items) }
    ensures pending { drop result.behind result.log.items ≡ [] }
{
    let (writer, shown) = writer.publish_as::<Stays, R>(rt);
    match shown {
        Ok(()) => writer,
        Err(_) => unreachable!(),
    }
}

/// The publisher learns the book of its trail. No prepared operation changes anything yet, and no viewer is waited for.
pub(crate) fn learn_whose<R: Wait>(rt: &R, writer: BoardWriter) -> BoardWriter
    requires pending { AreBlank writer.desk.shown.value (drop writer.behind writer.log.items) }
    requires empty { writer.desk.shown.value.trail.log ≡ [] }
    requires fresh { writer.desk.shown.value.rows.items ≡ replicate (length writer.desk.shown.value.rows.items) blank }
    ensures kept { IsPublisher result.desk.shown.value (view result.desk.place) (drop result.behind result.log.items) result.desk.shown.value.trail.book result.desk.shown.value.trail.log }
    ensures knows { view result.desk.place ≡ Of result.desk.shown.value.trail (opening result.desk.shown.value) }
    ensures shown { content result.desk.shown.value ≡ content writer.desk.shown.value }
    ensures pending { drop result.behind result.log.items ≡ [] }
{
    let (writer, shown) = writer.publish_as::<Opens, R>(rt);
    match shown {
        Ok(()) => writer,
        Err(_) => unreachable!(),
    }
}
