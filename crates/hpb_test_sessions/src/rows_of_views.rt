//! A viewer's views, and when it sees nothing any more.
ghost use Rattle.std.specs.Prelude.{◌≡◌, ◌<◌, []};

use crate::devices::new_opened;
use hpb_board::{Publisher, Viewer};
use hpb_rules::Letters;
use hpb_test_engine::letters::Bidder::X;
use hpb_test_engine::letters::Node::A;
use hpb_test_engine::letters::bid;
use hpb_test_engine::over_layouts;
use std::alloc::{AllocError, Global};
use std::sync::Wait;
use std::test::*;

/// Prepares the first bid.
fn prepare_bid<R: Wait + Drop>(publisher: &mut Publisher<R>) -> Result<(), AllocError>
    requires idle { publisher.old.pending ≡ [] }
    requires seats { 0 < publisher.old.seats }
{
    let mut letters = Letters::new();
    let _ = letters.push(bid(X, 1, A, 100));
    if publisher.room(&letters) {
        publisher.prepare(&letters)?;
    }
    Ok(())
}

fn count_seen(viewer: &mut Viewer) -> Option<u32> {
    viewer.view().map(|auction| auction.count())
}

/// The views of a first bid while it is prepared, by an old viewer and by one that is introduced then; and the views of
/// both once it is published.
fn seen_of_prepared<R: Wait + Drop>(
    alloc: Global,
    publisher: &mut Publisher<R>,
) -> Result<[Option<u32>; 4], AllocError>
    requires idle { publisher.old.pending ≡ [] }
    requires seats { 0 < publisher.old.seats }
{
    let mut viewer = Box::new(alloc, publisher.introduce(alloc)?)?;
    prepare_bid(publisher)?;
    let by_first = count_seen(&mut viewer);
    let mut later = Box::new(alloc, publisher.introduce(alloc)?)?;
    let by_later = count_seen(&mut later);
    publisher.publish();
    let both = (count_seen(&mut viewer), count_seen(&mut later));
    Ok([by_first, by_later, both.0, both.1])
}

#[test]
fn prepared_bid_is_not_seen(rt: HostRuntime) -> Result<(), Fail> {
    let alloc = rt.alloc();
    over_layouts!(shape => {
        let opened = Box::new(alloc, new_opened(alloc, shape)?)?;
        let publisher = Publisher::open(&rt, alloc, opened.auction(), 2, 2);
        drop(opened);
        let mut publisher = publisher?;
        let seen = seen_of_prepared(alloc, &mut publisher)?;
        assert_eq!(rt; seen, [Some(0), Some(0), Some(1), Some(1)]);
    });
    Ok(())
}

#[test]
fn view_is_none_where_the_publisher_has_ended(rt: HostRuntime) -> Result<(), Fail> {
    let alloc = rt.alloc();
    over_layouts!(shape => {
        let opened = Box::new(alloc, new_opened(alloc, shape)?)?;
        let publisher = Publisher::open(&rt, alloc, opened.auction(), 2, 2);
        drop(opened);
        let mut publisher = Box::new(alloc, publisher?)?;
        let mut viewer = Box::new(alloc, publisher.introduce(alloc)?)?;
        prepare_bid(&mut publisher)?;
        publisher.publish();
        assert_eq!(rt; count_seen(&mut viewer), Some(1));
        drop(publisher);
        assert_eq!(rt; count_seen(&mut viewer), None);
        assert_eq!(rt; viewer.auction().count(), 1);
    });
    Ok(())
}
