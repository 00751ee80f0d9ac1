ghost use Rattle.std.specs.Prelude.{◌≡◌, length, IfOk, IsTrue, MatchResult};
ghost use Rattle.qm_listing.specs.declared.listing.Listing.{Listing as ListingRecord};
ghost use Rattle.qm_listing.specs.Grammar.{listing_layout, listing_text, can_stand, read_listing};
ghost use Rattle.qm_prt.specs.Answers.{IsFaultOfListing, AnswersListing};

use crate::places::header_at_start;
use crate::portals::{count_line_at, portals_at};
use crate::prt_fault::PrtFault;
use qm_listing::Listing;
use qm_lists::Items;
use std::alloc::Global;

/// The listing of a text, or the first fault in the order of the text.
pub fn read(alloc: Global, text: &[u8]) -> Result<Listing, PrtFault>
    // What is read can stand in a text, and is spelled so.
    ensures found { IfOk result (λ listing. IsTrue (can_stand listing) × (text.now ≡ listing_text listing)) }
    // What can stand in a text and is spelled so is read, unless memory runs out.
    ensures only { (listing : ListingRecord) → IsTrue (can_stand listing) → text.now ≡ listing_text listing → MatchResult result (λ found. found ≡ listing) (λ fault. fault ≡ PrtFault.Memory) }
    // Which fault it is.
    ensures exact { AnswersListing (λ listing. listing) (λ _. length text.now) result (read_listing text.now) }
{
    whole_listing(alloc, text)
}

#[tactic(auto, unfolding(qm_listing::specs::Grammar::read_listing))]
fn whole_listing(alloc: Global, text: &[u8]) -> Result<Listing, PrtFault>
    ensures { AnswersListing (λ listing. listing) (λ _. length text.now) result (read_listing text.now) }
{
    let (listing, next) = listing_at_start(alloc, text)?;
    if next < text.len() {
        return Err(PrtFault::Trailing {
            offset: next as u64,
        });
    }
    Ok(listing)
}

/// The listing with which a text begins, and where it ends.
#[tactic(auto, unfolding(qm_listing::specs::Grammar::listing_layout))]
fn listing_at_start(alloc: Global, text: &[u8]) -> Result<(Listing, usize), PrtFault>
    ensures { AnswersListing (λ read. read.0) (λ read. read.1) result (listing_layout.read text.now 0) }
{
    let next = header_at_start(text)?;
    let (leaves, next) = count_line_at(text, next)?;
    let (count, next) = count_line_at(text, next)?;
    let (portals, next) = portals_at(alloc, text, next, leaves, count)?;
    let listing = Listing {
        leaves,
        portals: Items::from_vec(portals),
    };
    Ok((listing, next))
}
