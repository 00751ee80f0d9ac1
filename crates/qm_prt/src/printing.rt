ghost use Rattle.std.specs.Prelude.{◌≡◌, ◌++◌, ◌/◌, ◌<◌, length, IfOk, OnOk, OnErr};
ghost use Rattle.qm_listing.specs.declared.listing.Listing.{Listing as ListingRecord};
ghost use Rattle.qm_listing.specs.Grammar.{listing_text};
ghost use Rattle.qm_listing.specs.WorldListing.{IsListingOf};
ghost use Rattle.qm_listing.specs.inner.PutLines.{HasLine, ArePutLines};

use crate::coordinates::{back_from, corners_of, first_corner};
use crate::lines::{PortalLine, put_count_line, put_header};
use qm_listing::PrtPortal;
use qm_lists::{Encoding, Items};
use qm_portal::World;
use std::alloc::{AllocError, Global};

/// Appends the text of a listing of a world. After an error `out` is as it was.
pub fn print(alloc: Global, world: &World, out: &mut Vec<u8>) -> Result<(), AllocError>
    ensures ok { OnOk result ((listing : ListingRecord) × IsListingOf world.now listing × (out.new.items ≡ out.old.items ++ listing_text listing)) }
    ensures err { OnErr result (out.new.items ≡ out.old.items) }
{
    let text = whole_text(alloc, world)?;
    if out.is_empty() {
        *out = text;
        return Ok(());
    }
    out.extend_from_slice(&text)
}

/// The text of a listing of a world.
fn whole_text(alloc: Global, world: &World) -> Result<Vec<u8>, AllocError>
    ensures { IfOk result (λ text. (listing : ListingRecord) × IsListingOf world.now listing × (text.items ≡ listing_text listing)) }
{
    let mut text = Vec::new(alloc);
    put_header(&mut text)?;
    put_count_line(&mut text, world.leaves())?;
    put_count_line(&mut text, world.portals() / 2)?;
    put_lines(alloc, &mut text, world)?;
    Ok(text)
}

/// The lines of all passages.
fn put_lines(alloc: Global, text: &mut Vec<u8>, world: &World) -> Result<(), AllocError>
    ensures { OnOk result (ArePutLines world.now.portals (length world.now.portals / 2) text.old.items text.new.items) }
{
    for j in 0..world.portals() / 2 {
        let line = line_of(alloc, world, 2 * j)?;
        PortalLine::append(text, &line)?;
    }
    Ok(())
}

/// The line of a portal.
fn line_of(alloc: Global, world: &World, p: u64) -> Result<PrtPortal, AllocError>
    requires { p < length world.now.portals }
    ensures { IfOk result (λ line. HasLine world.now.portals p line) }
{
    let winding = &world.pane(p).winding;
    let corners = corners_of(alloc, winding)?;
    let first = first_corner(&corners);
    let turned = back_from(alloc, &corners, first)?;
    Ok(PrtPortal {
        leaf0: world.from(p),
        leaf1: world.to(p),
        corners: Items::from_vec(turned),
    })
}
