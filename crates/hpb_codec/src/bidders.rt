//! Page 2 of a head: the bidders of a definition.
ghost use Rattle.std.specs.Prelude.{◌≡◌, ◌≤◌, ◌<◌, ◌+◌, ◌++◌, List, IfOk, IsSomeAnd, length};
ghost use Rattle.std.specs.List.{AllByRecursion};
ghost use Rattle.hpb_rules.specs.Tree.{Bidder};
ghost use Rattle.hpb_rules.specs.Text.{bidder_name};
ghost use Rattle.hpb_rules.specs.Units.{bidder_units};
ghost use Rattle.hpb_tree.specs.Draft.{bidder_said, bidders_said};
ghost use Rattle.hpb_codec.specs.Numbers.{before};
ghost use Rattle.hpb_codec.specs.BidderPages.{entry_of, bidder_of, bidder_page_of, HasEntry};
ghost use Rattle.hpb_codec.specs.declared.layout.TheConstants.{PAGE_BYTES};

use crate::layout::PAGE_BYTES;
use crate::name::{name_in, put_name};
use crate::reader::{front_bytes, front_u32};
use crate::writer::{fill_zeros, put_u32, put_zeros};
use hpb_rules::{BidderId, MOST_BIDDERS, MOST_NAME_BYTES};
use hpb_tree::{BidderDraft, Definition};
use std::alloc::{AllocError, Global};

/// How many bytes the entry of a bidder has.
const ENTRY_SIZE: usize = 24;

/// Writes the page, every byte of it.
pub(crate) fn put_bidders(page: &mut [u8], definition: &Definition)
    requires { length page.old ≡ PAGE_BYTES }
    ensures { page.new ≡ bidder_page_of definition.now.bidders }
{
    let mut at = 0;
    for place in 0..definition.bidder_count() {
        at = put_bidder(page, at, definition, BidderId::new(place));
    }
    fill_zeros(page, at);
}

/// Writes a bidder.
fn put_bidder(page: &mut [u8], at: usize, definition: &Definition, bidder: BidderId) -> usize
    requires room { at + 24 ≤ length page.old }
    requires bidder { bidder < length definition.now.bidders }
    ensures written { before result page.new ≡ before at page.old ++ entry_of (bidder_name definition.now.bidders bidder) (bidder_units definition.now bidder) }
    ensures next { result ≡ at + 24 }
{
    let at = put_name(page, at, definition.bidder_name(bidder));
    let at = put_u32(page, at, definition.bidder_units(bidder));
    put_zeros(page, at, 4)
}

/// The bidders of the only page that the bytes may be, if the page has room for so many. Its zero bytes aren't looked
/// at.
pub(crate) fn bidders_in(
    alloc: Global,
    page: &[u8],
    count: usize,
) -> Result<Option<Vec<BidderDraft>>, AllocError>
    requires page { length page.now ≡ PAGE_BYTES }
    requires count { count ≤ MOST_BIDDERS }
    ensures { (bidders : List Bidder) → length bidders ≡ count → AllByRecursion HasEntry bidders → page.now ≡ bidder_page_of bidders
        → IfOk result (λ found. IsSomeAnd found (λ drafts. bidders_said drafts.items ≡ bidders)) }
{
    let mut bidders = Vec::with_capacity(alloc, count)?;
    let (mut rest, _) = front_bytes(page, count * ENTRY_SIZE);
    for _ in 0..count {
        let (entry, after) = front_bytes(rest, ENTRY_SIZE);
        match bidder_in(alloc, entry)? {
            Some(bidder) => bidders.push(bidder)?,
            None => return Ok(None),
        }
        rest = after;
    }
    Ok(Some(bidders))
}

/// The only bidder that the bytes may be.
fn bidder_in(alloc: Global, entry: &[u8]) -> Result<Option<BidderDraft>, AllocError>
    requires { length entry.now ≡ 24 }
    ensures { (bidder : Bidder) → HasEntry bidder → entry.now ≡ bidder_of bidder → IfOk result (λ found. IsSomeAnd found (λ draft. bidder_said draft ≡ bidder)) }
{
    let (name, rest) = front_bytes(entry, MOST_NAME_BYTES);
    let (units, _) = front_u32(rest);
    let Some(name) = name_in(name) else {
        return Ok(None);
    };
    Ok(Some(BidderDraft {
        name: String::from_str(alloc, name)?,
        units: u64::from(units),
    }))
}
