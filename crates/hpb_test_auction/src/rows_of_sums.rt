//! Numbers by hand: shares, certificates, and how many values a close computes.

use crate::commands::{close, first_round};
use crate::definitions::{new_auction, six_nodes};
use hpb_money::share;
use hpb_prices::check_certificate;
use std::test::Fail;

#[test]
fn shares_of_two_in_three(rt: HostRuntime) {
    assert_eq!(rt; share(2, 3, 0), 1);
    assert_eq!(rt; share(2, 3, 1), 1);
    assert_eq!(rt; share(2, 3, 2), 0);
}

/// The high bids of the first round.
const HIGHS: [u64; 6] = [500, 0, 100, 150, 100, 0];

/// The winners, as bits: the package, and its parts.
const PACKAGE: u128 = 1;

const PARTS: u128 = 1 << 2 | 1 << 3 | 1 << 4;

/// Prices, winners, and whether they certify each other.
const CERTIFICATES: [(&[u64], u128, bool); 5] = [
    (&[138, 187, 175, 0], PACKAGE, true),
    (&[137, 188, 175, 0], PACKAGE, true),
    (&[138, 187, 175, 0], PARTS, false),
    (&[99, 226, 175, 0], PACKAGE, false),
    (&[138, 187, 175], PACKAGE, false),
];

#[test]
fn certificates(rt: HostRuntime) -> Result<(), Fail> {
    let definition = six_nodes(rt.alloc())?;
    for (prices, winners, wanted) in CERTIFICATES {
        let found = check_certificate(definition.tree(), &HIGHS, prices, winners);
        assert_eq!(rt; found, wanted, "{prices:?}");
    }
    Ok(())
}

#[test]
fn values_formed(rt: HostRuntime) -> Result<(), Fail> {
    let mut auction = new_auction(rt.alloc())?;
    // The values of the bids: none. Those of the close: a, b, east, c and all.
    for (command, formed) in first_round().iter().zip([0, 0, 0, 0, 5, 0]) {
        assert_eq!(rt; auction.apply_counted(command).formed, formed);
    }
    // c and all; and none without a bid.
    for (ticket, formed) in [(2, 2), (3, 0)] {
        assert_eq!(rt; auction.apply_counted(&close(ticket)).formed, formed);
    }
    assert_eq!(rt; auction.revenue(), 500);
    Ok(())
}
