//! What holds of listings, whatever is printed or read.

ghost use Rattle.std.specs.Prelude.{◌≡◌, ◌<◌, ◌^◌, ◌++◌, ℕ, ℤ, List, pos, int_lt, unsigned_abs, length, IsTrue};
ghost use Rattle.qm_convex.specs.Winding.{Winding, next_place, corner_at, IsConvex};
ghost use Rattle.qm_contacts.specs.OwnPortals.{HasOwnPortals};
ghost use Rattle.qm_contacts.specs.World.{World};
ghost use Rattle.qm_numerals.specs.Printed.{printed_fraction};
ghost use Rattle.qm_formats.specs.Exact.{IsExact};
ghost use Rattle.qm_formats.specs.Layout.{got};
ghost use Rattle.qm_listing.specs.declared.listing.Listing.{Listing};
ghost use Rattle.qm_listing.specs.Numbers.{coordinate_numeral};
ghost use Rattle.qm_listing.specs.Grammar.{listing_layout, listing_text, can_stand, read_listing};
ghost use Rattle.qm_listing.specs.WorldListing.{coordinate_at, place_back, IsListingOf};
ghost use Rattle.qm_listing.specs.Turning.{TurnToFront};

/// What is read of a text stands there and can stand there, and the other way round.
pub fn exact_layout()
    ensures { IsExact listing_layout }
{}

/// No two listings have the same text.
pub fn one_listing()
    ensures { (listing other : Listing) → IsTrue (can_stand listing) → IsTrue (can_stand other) → listing_text listing ≡ listing_text other → listing ≡ other }
{}

/// What is left of the text of a listing that is cut off is no listing.
pub fn no_listing_cut_off()
    ensures { (listing : Listing) (front behind : List ℕ) → IsTrue (can_stand listing) → listing_text listing ≡ front ++ behind → 0 < length behind → (found : Listing) (end : ℕ) → read_listing front ≡ got found end → ⊥ }
{}

/// The listing of a world with fewer than 10^18 numbered leaves can stand in a text, so that it can be read again, where its
/// text has fewer than 2^62 bytes.
pub fn own_listings()
    ensures { (world : World) (listing : Listing) → HasOwnPortals world → IsListingOf world listing → listing.leaves < 10 ^ 18 → length (listing_text listing) < 2 ^ 62 → IsTrue (can_stand listing) }
{}

/// A coordinate of a corner stands in a text as `print6` prints its fraction.
pub fn printed_coordinates()
    ensures { (over under : ℤ) → 0 < unsigned_abs under → coordinate_numeral (coordinate_at over under) ≡ printed_fraction (int_lt over (pos 0)) (unsigned_abs over) (unsigned_abs under) }
{}

/// Each three neighbours of a listing's corners turn to the front of the polygon's plane.
pub fn turned_corners()
    ensures { (w : Winding) → IsConvex w → (k i : ℕ) → k < length w.edges → i < length w.edges → TurnToFront w.plane (corner_at w (place_back (length w.edges) k i)) (corner_at w (place_back (length w.edges) k (next_place (length w.edges) i))) (corner_at w (place_back (length w.edges) k (next_place (length w.edges) (next_place (length w.edges) i)))) }
{}
