//! Auctions that are saved, restored and copied. None of these calls gets an allocator.
ghost use Rattle.std.specs.Prelude.{◌≡◌};

use crate::commands::{close, first_round};
use crate::definitions::new_auction;
use hpb_auction::Auction;
use hpb_rules::Saved;
use hpb_server::{ScriptDesk, serve};
use std::alloc::Global;
use std::test::Fail;

/// Gives an auction the commands of the first round, and the bid behind them.
fn play_first_round(auction: &mut Auction)
    ensures { auction.new.rules ≡ auction.old.rules }
{
    let commands = first_round();
    auction.apply(&commands[0]);
    auction.apply(&commands[1]);
    auction.apply(&commands[2]);
    auction.apply(&commands[3]);
    auction.apply(&commands[4]);
    auction.apply(&commands[5]);
}

/// Questions about the first round, and how it goes on after the bid in the second.
const LINES: &str =
    "SHOW\nNODE a\nNODE b\nNODE c\nNODE east\nNODE all\nNODE d\nBID w 2 c 250\nCLOSE 2\nSHOW\nNODE a\nWHO x\nWHO w\n";

const SHOWN: &str =
    "ROUND 2 STAGE 1 OPEN REVENUE 500 COUNT 6\nNODE a HIGH 100 x PRICE 138 MIN 160 WIN no\nNODE b HIGH 150 y PRICE 187 MIN 210 WIN no\nNODE c HIGH 100 w PRICE 175 MIN 200 WIN no\nNODE east HIGH 0 - PRICE 325 MIN 360 WIN no\nNODE all HIGH 500 z PRICE 500 MIN 550 WIN yes\nNODE d HIGH 0 - PRICE 0 MIN 100 WIN no\nOK 6\nOK 7\nROUND 3 STAGE 1 OPEN REVENUE 500 COUNT 7\nNODE a HIGH 100 x PRICE 100 MIN 110 WIN yes\nWHO x ELIGIBILITY 0 ACTIVITY 10 TICKET 1\nWHO w ELIGIBILITY 25 ACTIVITY 20 TICKET 2\n";

/// The answers of an auction to the lines.
fn shown(alloc: Global, auction: Auction) -> Result<String, Fail> {
    let mut desk = Box::new(alloc, ScriptDesk::new(auction))?;
    let mut input = LINES.as_bytes();
    let mut output = Vec::new(alloc);
    serve(alloc, &mut input, &mut output, &mut *desk)?;
    Ok(String::from_utf8(output)?)
}

#[test]
fn restored_auction_shows_the_same(rt: HostRuntime) -> Result<(), Fail> {
    let alloc = rt.alloc();
    let mut played = new_auction(alloc)?;
    play_first_round(&mut played);
    let mut saved = Box::new(alloc, Saved::empty())?;
    played.save(&mut saved);
    let mut auction = new_auction(alloc)?;
    auction.apply(&close(1));
    assert!(rt; auction.restore(&saved));
    assert_eq!(rt; shown(alloc, auction.copy(alloc)?)?.as_str(), SHOWN);
    // The auction has two stages, and stays as it is.
    saved.stage = 3;
    assert!(rt; !auction.restore(&saved));
    assert_eq!(rt; auction.count(), 6);
    Ok(())
}

#[test]
fn copied_auction_shows_the_same(rt: HostRuntime) -> Result<(), Fail> {
    let alloc = rt.alloc();
    let mut auction = new_auction(alloc)?;
    let mut other = auction.copy(alloc)?;
    play_first_round(&mut auction);
    other.apply(&close(1));
    other.copy_from(&auction);
    assert_eq!(rt; shown(alloc, other)?.as_str(), SHOWN);
    Ok(())
}
