//! Writing what a command makes of a map.

ghost use Rattle.std.specs.Option.{option_map};
ghost use Rattle.qm_shelf.specs.SeenForms.{shelf_state};
ghost use Rattle.qm_commands.specs.FileNames.{AreDifferent};
ghost use Rattle.qm_make.specs.SeenFiles.{file_names};
ghost use Rattle.qm_make.specs.inner.Made.{output_of};
ghost use Rattle.qm_make.specs.inner.Writing.{IsListingWriting, IsWriting};

use crate::files::Files;
use crate::made::Product;
use qm_shelf::{Shelf, ShelfFault, write_whole};

/// Writes the file, and once it is whole the listing, where there is one.
pub fn write_product<H: Shelf>(
    shelf: &mut H,
    files: &Files<'_>,
    product: &Product,
) -> Result<(), ShelfFault>
    requires { AreDifferent (file_names files.now) }
    ensures { IsWriting (shelf_state H.Shelf shelf.old) (shelf_state H.Shelf shelf.new) (file_names files.now) (output_of product.now) result }
{
    match write_whole(shelf, files.out_name, &product.file) {
        Ok(()) => write_listing(shelf, files.listing_name, &product.listing),
        Err(fault) => Err(fault),
    }
}

/// Writes a listing, where there is one and a name for it.
fn write_listing<H: Shelf>(
    shelf: &mut H,
    name: Option<&str>,
    listing: &Option<Vec<u8>>,
) -> Result<(), ShelfFault>
    ensures { IsListingWriting (shelf_state H.Shelf shelf.old) (shelf_state H.Shelf shelf.new)
        (option_map (λ name. name.now) name.entry) (option_map (λ listing. listing.items) listing.now) result }
{
    match (name, listing) {
        (Some(name), Some(listing)) => write_whole(shelf, name, listing),
        _ => Ok(()),
    }
}
