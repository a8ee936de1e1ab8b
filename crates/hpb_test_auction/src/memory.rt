//! Calls that may need memory, with enough of it.

use crate::commands::{A, Y, first_round};
use crate::definitions::{definition_line, six_nodes};
use hpb_auction::run_commands;
use hpb_bids::Books;
use hpb_prices::{Prices, downward};
use hpb_rules::{BidderId, NodeId, Reply};
use hpb_server::{ScriptEnd, run_script};
use hpb_tree::Tree;
use hpb_winners::{Outcome, upward};
use std::alloc::{AllocError, Global};
use std::test::Fail;

/// The books after a round with one bid.
fn books_of_one_bid(alloc: Global, tree: &Tree, node: NodeId) -> Result<Books, AllocError> {
    let mut books = Books::new(alloc, tree)?;
    books.place(BidderId::new(Y), node, 100);
    books.fold_round();
    Ok(books)
}

/// The revenue before and after it.
fn revenues(alloc: Global, tree: &Tree, books: &Books) -> Result<(u64, u64), AllocError> {
    let mut outcome = Outcome::new(alloc, tree)?;
    let first = outcome.revenue();
    upward(tree, books, &mut outcome);
    Ok((first, outcome.copy(alloc)?.revenue()))
}

/// A node's price and minimum after it.
fn price_and_minimum(
    alloc: Global,
    tree: &Tree,
    books: &Books,
    node: NodeId,
) -> Result<(u64, u64), AllocError> {
    let mut outcome = Outcome::new(alloc, tree)?;
    upward(tree, books, &mut outcome);
    let mut prices = Prices::new(alloc, tree)?;
    downward(tree, books, &outcome, &mut prices);
    let copy = prices.copy(alloc)?;
    if node.place() >= tree.node_count() {
        return Ok((0, 0));
    }
    Ok((copy.price(node), copy.minimum(node)))
}

#[test]
fn outcome_and_prices_are_made_and_copied(rt: HostRuntime) -> Result<(), Fail> {
    let alloc = rt.alloc();
    let definition = six_nodes(alloc)?;
    let (tree, node) = (definition.tree(), NodeId::new(A));
    let books = books_of_one_bid(alloc, tree, node)?;
    assert_eq!(rt; revenues(alloc, tree, &books)?, (0, 100));
    assert_eq!(rt; price_and_minimum(alloc, tree, &books, node)?, (100, 110));
    Ok(())
}

#[test]
fn commands_are_run(rt: HostRuntime) -> Result<(), Fail> {
    let alloc = rt.alloc();
    let definition = six_nodes(alloc)?;
    let run = Box::new(alloc, run_commands(alloc, &definition, &first_round())?)?;
    for (number, reply) in (1_u32..7).zip(run.replies.iter()) {
        assert_eq!(rt; *reply, Reply::Ok(number));
    }
    assert_eq!(rt; run.replies.len(), 6);
    assert_eq!(rt; run.auction.revenue(), 500);
    Ok(())
}

/// Waivers of a definition, lines under it, and their answers.
const SCRIPTS: [(u8, &str, &str); 3] = [
    (0, "BID x 1 a 100\nCLOSE 1\n", "OK 1\nOK 2\n"),
    // For a package of which a bidder holds one licence, only the others count.
    (
        0,
        "BID z 1 a 100\nWHO z\nBID z 2 all 300\nWHO z\n",
        "OK 1\nWHO z ELIGIBILITY 40 ACTIVITY 10 TICKET 1\nOK 2\nWHO z ELIGIBILITY 40 ACTIVITY 40 TICKET 2\n",
    ),
    // Having no waiver left is reported before having waived already.
    (1, "WAIVE x 1\nWAIVE x 2\n", "OK 1\nERR 28 waiver\n"),
];

/// The output of a script, if it ends well.
fn written(alloc: Global, waivers: u8, lines: &str) -> Result<Option<String>, Fail> {
    let mut script = definition_line(alloc, waivers)?;
    script.push_str(lines)?;
    let mut input = script.as_bytes();
    let mut output = Vec::new(alloc);
    let mut errors = Vec::new(alloc);
    let end = run_script(alloc, &mut input, &mut output, &mut errors, false)?;
    if end != ScriptEnd::Answered || !errors.is_empty() {
        return Ok(None);
    }
    Ok(Some(String::from_utf8(output)?))
}

#[test]
fn scripts_are_run(rt: HostRuntime) -> Result<(), Fail> {
    for (waivers, lines, wanted) in SCRIPTS {
        let written = written(rt.alloc(), waivers, lines)?;
        assert_eq!(rt; written.as_deref(), Some(wanted), "{lines}");
    }
    Ok(())
}
