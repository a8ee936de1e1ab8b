ghost use Rattle.hpb_wire.specs.Requests.{IsRequestOf};

use super::*;
use crate::response::{BidderLine, HighBid, NodeLine, RoundLine};
use hpb_auction::Auction;
use hpb_rules::{BidderId, Command, NodeId, Refusal, Reply, Request};
use hpb_tree::{BidderDraft, Definition, Draft, NodeDraft, TermsDraft};
use std::alloc::{AllocError, Global};
use std::test::Fail;

/// The names of the licences with their bidding units.
const LICENCES: [(&str, u64); 2] = [("a", 10), ("d", 7)];

const BIDDERS: [&str; 2] = ["x", "y"];

fn licence(alloc: Global, name: &str, units: u64) -> Result<NodeDraft, AllocError> {
    let opening = 100;
    Ok(NodeDraft {
        name: String::from_str(alloc, name)?,
        parent: None,
        terms: Some(TermsDraft { units, opening }),
    })
}

fn bidder(alloc: Global, name: &str) -> Result<BidderDraft, AllocError> {
    let name = String::from_str(alloc, name)?;
    Ok(BidderDraft { name, units: 20 })
}

/// The licences, and the bidders with 20 units each. The step is 10 dollars.
fn draft(alloc: Global) -> Result<Draft, AllocError> {
    let mut nodes = Vec::new(alloc);
    for (name, units) in LICENCES {
        nodes.push(licence(alloc, name, units)?)?;
    }
    let mut bidders = Vec::new(alloc);
    for name in BIDDERS {
        bidders.push(bidder(alloc, name)?)?;
    }
    Ok(Draft {
        step: 10,
        percent: 10,
        stages: vec![in alloc; 80, 95]?,
        waivers: 0,
        nodes,
        bidders,
    })
}

fn definition(alloc: Global) -> Result<Box<Definition>, Fail> {
    Ok(Box::new(alloc, Definition::check(alloc, &draft(alloc)?)?)?)
}

/// An auction of this draft.
fn auction(alloc: Global) -> Result<Box<Auction>, Fail> {
    let definition = definition(alloc)?;
    Ok(Box::new(alloc, Auction::new(alloc, &definition)?)?)
}

/// Bids of `x` on `a`, with their tickets and amounts.
const BIDS: [(&[u8], u32, u64); 4] = [
    (b"BID x 0 a 123456789", 0, 123_456_789),
    (b"BID x 10 a 1000000", 10, 1_000_000),
    (b"BID x 12345678 a 90817263", 12_345_678, 90_817_263),
    (
        b"BID x 4294967295 a 18446744073709551615",
        u32::MAX,
        u64::MAX,
    ),
];

/// Lines of another form.
const MALFORMED: [(&[u8], Refusal); 10] = [
    (b"", Refusal::Line),
    (b" BID x 1 a 100", Refusal::Line),
    (b"BID x 1 a 100 ", Refusal::Line),
    (b"BID x 1 a 100 1", Refusal::Line),
    (b"BID x +1 a 100", Refusal::Line),
    (b"BID x 1/ a 1000000", Refusal::Line),
    (b"BID x 1: a 1000000", Refusal::Line),
    (b"BID x 1\xb1 a 1000000", Refusal::Line),
    (b"bid x 1 a 100", Refusal::Line),
    (b"NODE ", Refusal::Line),
];

/// Hostile bytes.
const HOSTILE: [(&[u8], Refusal); 13] = [
    (&[b'x'; 1_000], Refusal::Line),
    (b"\xff\xff\xff\xff", Refusal::Line),
    (b"BID x 4294967296 a 100", Refusal::Line),
    (b"BID x 1 a 18446744073709551616", Refusal::Line),
    (b"SHOW\r", Refusal::Line),
    (b"NODE a\r", Refusal::Node),
    (b"NODE a\nNODE d", Refusal::Line),
    (b"WHO \xff", Refusal::Bidder),
    (b"WHO X", Refusal::Bidder),
    (b"BID q 1 e 100", Refusal::Bidder),
    (b"BID x 1 e 100", Refusal::Node),
    (b"BID q 1 e 1x", Refusal::Line),
    (b"BID a 0 x 0", Refusal::Bidder),
];

#[test]
fn lines_are_read(rt: HostRuntime) -> Result<(), Fail> {
    let definition = definition(rt.alloc())?;
    for (line, ticket, amount) in BIDS {
        let bid = Command::Bid {
            bidder: BidderId::new(0),
            ticket,
            node: NodeId::new(0),
            amount,
        };
        let request = parse_line(line, &definition);
        assert_eq!(rt; request, Ok(Request::Command(bid)), "at {line:?}");
    }
    for (line, refusal) in MALFORMED {
        let request = parse_line(line, &definition);
        assert_eq!(rt; request, Err(refusal), "at {line:?}");
    }
    Ok(())
}

#[test]
fn hostile_lines(rt: HostRuntime) -> Result<(), Fail> {
    let definition = definition(rt.alloc())?;
    for (line, refusal) in HOSTILE {
        let request = parse_line(line, &definition);
        assert_eq!(rt; request, Err(refusal), "at {line:?}");
    }
    Ok(())
}

/// Responses of each form.
const RESPONSES: [Response<'static>; 7] = [
    Response::Reply(Reply::Ok(1_000_000)),
    Response::Reply(Reply::Refused(Refusal::Eligibility)),
    Response::Show(RoundLine {
        round: 2,
        stage: 1,
        closed: true,
        revenue: 64_000_000_000_000,
        count: 65,
    }),
    Response::Node(NodeLine {
        name: "a",
        high: Some(HighBid {
            amount: 100,
            bidder: "x",
        }),
        price: 138,
        minimum: 160,
        wins: false,
    }),
    Response::Node(NodeLine {
        name: "d",
        high: None,
        price: 0,
        minimum: 100,
        wins: true,
    }),
    Response::Who(BidderLine {
        name: "w",
        eligibility: 21,
        activity: 20,
        ticket: 2,
        waivers: None,
    }),
    Response::Who(BidderLine {
        name: "w",
        eligibility: 21,
        activity: 20,
        ticket: 2,
        waivers: Some(20),
    }),
];

const WRITTEN: &str = "OK 1000000
ERR 25 eligibility
ROUND 2 STAGE 1 CLOSED REVENUE 64000000000000 COUNT 65
NODE a HIGH 100 x PRICE 138 MIN 160 WIN no
NODE d HIGH 0 - PRICE 0 MIN 100 WIN yes
WHO w ELIGIBILITY 21 ACTIVITY 20 TICKET 2
WHO w ELIGIBILITY 21 ACTIVITY 20 TICKET 2 WAIVERS 20
";

#[test]
fn responses_are_written(rt: HostRuntime) -> Result<(), Fail> {
    let mut text = ResponseText::new(rt.alloc(), 0)?;
    let mut printed = String::new(rt.alloc());
    for response in RESPONSES {
        text.render(&response)?;
        write!(printed, "{response}\n")?;
    }
    assert_eq!(rt; text.as_bytes(), WRITTEN.as_bytes());
    assert_eq!(rt; printed.as_str(), WRITTEN);
    text.clear();
    text.render_reply(Reply::Ok(1))?;
    assert_eq!(rt; text.as_bytes(), b"OK 1\n".as_slice());
    Ok(())
}

/// The response to a question.
fn response(auction: &Auction, request: Request) -> Response<'_>
    requires { IsRequestOf auction.now.rules request }
{
    match request {
        Request::Command(_) => Response::Reply(Reply::Refused(Refusal::Line)),
        Request::Show => show(auction),
        Request::Node(place) => node(auction, place),
        Request::Who(bidder) => who(auction, bidder),
    }
}

/// Adds the response to a line.
fn answer(text: &mut ResponseText, auction: &mut Auction, line: &[u8]) -> Result<(), AllocError> {
    match parse_line(line, auction.definition()) {
        Ok(Request::Command(command)) => text.render_reply(auction.apply(&command)),
        Ok(request) => text.render(&response(auction, request)),
        Err(refusal) => text.render_reply(Reply::Refused(refusal)),
    }
}

const LINES: [&[u8]; 8] = [
    b"BID x 1 a 200",
    b"CLOSE 1",
    b"STAGE 2",
    b"WAIVE y 1",
    b"SHOW",
    b"NODE a",
    b"NODE d",
    b"WHO x",
];

const ANSWERS: &str = "OK 1
OK 2
OK 3
ERR 28 waiver
ROUND 2 STAGE 2 OPEN REVENUE 200 COUNT 3
NODE a HIGH 200 x PRICE 200 MIN 220 WIN yes
NODE d HIGH 0 - PRICE 0 MIN 100 WIN no
WHO x ELIGIBILITY 12 ACTIVITY 10 TICKET 1
";

#[test]
fn auctions_are_shown(rt: HostRuntime) -> Result<(), Fail> {
    let mut auction = auction(rt.alloc())?;
    let mut text = ResponseText::new(rt.alloc(), RESPONSE_BYTES)?;
    for line in LINES {
        answer(&mut text, &mut *auction, line)?;
    }
    assert_eq!(rt; text.as_bytes(), ANSWERS.as_bytes());
    Ok(())
}

/// The lines that come before the commands below.
const BEFORE: [&[u8]; 4] = [
    b"BID x 1 a 200",
    b"BID y 1 d 100",
    b"CLOSE 1",
    b"BID y 2 d 110",
];

/// Commands, each with its refusal and its reason for people.
const REASONS: [(&[u8], Refusal, &str); 9] = [
    // x has bid once and y twice, and one round was closed.
    (
        b"BID x 1 a 300",
        Refusal::Ticket,
        "the next ticket of x is 2",
    ),
    (b"WAIVE y 1", Refusal::Old, "the next ticket of y is 3"),
    (
        b"STAGE 3",
        Refusal::Gap,
        "the next ticket of the auctioneer is 2",
    ),
    (
        b"BID x 2 d 115",
        Refusal::Step,
        "an amount is a multiple of 10 dollars",
    ),
    // a has a high bid of 200, and the percent is 10; the bid on d in the open round doesn't count yet.
    (
        b"BID y 3 a 210",
        Refusal::Low,
        "the least that may be bid on a is 220 dollars",
    ),
    (
        b"BID x 2 d 100",
        Refusal::Low,
        "the least that may be bid on d is 110 dollars",
    ),
    (
        b"BID x 2 d 1000000000010",
        Refusal::High,
        "the most that may be bid is 1000000000000 dollars",
    ),
    // x has won a, which takes 10 of its 12 units; d has 7.
    (
        b"BID x 2 d 110",
        Refusal::Eligibility,
        "x is eligible for 12 bidding units, and active on 10 without this bid",
    ),
    (b"BID x 2 d 110", Refusal::Again, ""),
];

/// The reason for a line's command with this refusal, or nothing.
fn told(alloc: Global, auction: &Auction, line: &[u8], refusal: Refusal) -> Result<String, Fail> {
    let mut text = String::new(alloc);
    if let Request::Command(command) = parse_line(line, auction.definition())? {
        if let Some(reason) = reason_of(auction, &command, refusal) {
            write!(text, "{reason}")?;
        }
    }
    Ok(text)
}

#[test]
fn a_refused_command_is_told_what_would_do(rt: HostRuntime) -> Result<(), Fail> {
    let mut auction = auction(rt.alloc())?;
    let mut text = ResponseText::new(rt.alloc(), RESPONSE_BYTES)?;
    for line in BEFORE {
        answer(&mut text, &mut *auction, line)?;
    }
    for (line, refusal, want) in REASONS {
        let reason = told(rt.alloc(), &auction, line, refusal)?;
        assert_eq!(rt; reason.as_str(), want, "{line:?} {refusal:?}");
    }
    Ok(())
}
