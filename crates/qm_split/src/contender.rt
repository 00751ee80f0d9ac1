ghost use Rattle.std.specs.Prelude.{◌≡◌, List, ◌++◌, ◌∷◌, [], length, None, All, true, IfOk, IfSome};
ghost use Rattle.std.specs.Bool.{MatchBool};
ghost use Rattle.qm_space.specs.Plane.{Plane, flipped};
ghost use Rattle.qm_space.specs.Reduced.{IsReduced};
ghost use Rattle.qm_space.specs.Cuboid.{Cuboid};
ghost use Rattle.qm_convex.specs.Winding.{IsConvex};
ghost use Rattle.qm_split.specs.Pieces.{solid_of_contender, IsContender};
ghost use Rattle.qm_split.specs.inner.Parts.{IsWindingInCell, IsPartIn, IsFoundPart, HasNoneBehind, KeepsOut, IsNotAhead, HasAhead, part_count, IsShortened};
ghost use Rattle.qm_split.specs.inner.Ranked.{IsLesser, IsWindingOf};

use crate::piece::{Piece, split_pieces};
use crate::rank::{Rank, first_of};
use qm_contents::Contents;
use qm_geom::{Cuboid, Plane};
use qm_wind::{Lies, Winding};
use std::alloc::AllocError;
use std::mem::replace;
use std::sync::Arc;

/// A full solid that has a part of a face in a cell.
#[derive(Drop)]
pub(crate) struct Contender {
    pub(crate) contents: Contents,
    /// The rank of the piece that comes first.
    pub(crate) least: Rank,
    pub(crate) body: Box<Body>,
}

/// What is kept of a solid in a cell, behind a pointer: a contender is moved at most planes.
#[derive(Drop)]
pub(crate) struct Body {
    /// It has all that the solid has of the cell.
    pub(crate) cuboid: Cuboid,
    /// The planes of all its faces, which its parts in other cells share.
    pub(crate) outward: Arc<Vec<Plane>>,
    pub(crate) pieces: Vec<Piece>,
}

/// What a full solid is to a cell: one that has a part of a face in it, one that contains it, or one that lies outside it.
#[derive(Drop)]
pub(crate) enum Part {
    Kept(Contender),
    Containing(Contents),
    Outside,
}

/// What a contender of a cell is to what the cell has in front of a plane, and behind it.
#[derive(Drop)]
pub(crate) struct Parts {
    pub(crate) front: Part,
    pub(crate) back: Part,
}

impl Contender {
    /// For a plane, and a winding that lies on it in the cell. Where its cuboid lies on one side, it is moved.
    pub(crate) fn split(self, plane: &Plane, section: &Winding) -> Result<Parts, AllocError>
        ensures front { IfOk result (λ parts. (book cell : List Plane) →
            IsContender book cell self → IsWindingInCell cell plane.now section.now →
            IsPartIn book (cell ++ plane.now ∷ []) (solid_of_contender self) parts.front) }
        ensures back { IfOk result (λ parts. (book cell : List Plane) →
            IsContender book cell self → IsWindingInCell cell plane.now section.now →
            IsPartIn book (cell ++ flipped plane.now ∷ []) (solid_of_contender self) parts.back) }
        ensures front_count { IfOk result (λ parts. (book cell : List Plane) → IsContender book cell self → IsShortened self plane.now parts.front) }
        ensures back_count { IfOk result (λ parts. (book cell : List Plane) → IsContender book cell self → IsShortened self plane.now parts.back) }
    {
        let least = self.body.cuboid.least_value(plane);
        if least > 0 {
            return Ok(Parts {
                front: Part::Kept(self),
                back: Part::Outside,
            });
        }
        if least >= 0 {
            return Ok(Parts {
                front: self.left_beside(plane, section),
                back: Part::Outside,
            });
        }
        let greatest = self.body.cuboid.greatest_value(plane);
        if greatest < 0 {
            return Ok(Parts {
                front: Part::Outside,
                back: Part::Kept(self),
            });
        }
        if greatest <= 0 {
            return Ok(Parts {
                front: Part::Outside,
                back: self.left_beside(&plane.flipped(), section),
            });
        }
        self.parted(plane, section)
    }

    /// What is in front of a plane of a contender that has nothing behind it: all but what lies in the plane.
    fn left_beside(self, plane: &Plane, section: &Winding) -> Part
        ensures part { (book cell : List Plane) → IsContender book cell self → IsWindingInCell cell plane.now section.now → HasNoneBehind self plane.now →
            IsPartIn book (cell ++ plane.now ∷ []) (solid_of_contender self) result }
        ensures count { (book cell : List Plane) → IsContender book cell self → HasNoneBehind self plane.now → IsShortened self plane.now result }
    {
        let _ = &plane.nx;
        let Contender { contents, body, .. } = self;
        let mut body = body;
        body.pieces.retain(|piece| !piece.is_on(plane));
        left_part(contents, body, section, plane)
    }

    /// For a plane that may part its pieces. What is kept of it behind the plane stands where the whole stood.
    fn parted(self, plane: &Plane, section: &Winding) -> Result<Parts, AllocError>
        ensures front { IfOk result (λ parts. (book cell : List Plane) →
            IsContender book cell self → IsWindingInCell cell plane.now section.now →
            IsPartIn book (cell ++ plane.now ∷ []) (solid_of_contender self) parts.front) }
        ensures back { IfOk result (λ parts. (book cell : List Plane) →
            IsContender book cell self → IsWindingInCell cell plane.now section.now →
            IsPartIn book (cell ++ flipped plane.now ∷ []) (solid_of_contender self) parts.back) }
        ensures front_count { IfOk result (λ parts. IsShortened self plane.now parts.front) }
        ensures back_count { IfOk result (λ parts. IsShortened self plane.now parts.back) }
    {
        let Contender { contents, body, .. } = self;
        let mut body = body;
        let alloc = *body.pieces.allocator();
        let pieces = replace(&mut body.pieces, Vec::new(alloc));
        let lists = split_pieces(pieces, plane)?;
        let behind = plane.flipped();
        let front = part_in_front(
            contents,
            &body.outward,
            body.cuboid.tightened(plane),
            lists.front,
            section,
            plane,
        )?;
        body.cuboid = body.cuboid.tightened(&behind);
        body.pieces = lists.back;
        let back = left_part(contents, body, section, &behind);
        Ok(Parts { front, back })
    }

    /// The winding of a piece on a plane, if there is one.
    pub(crate) fn winding_on(&self, plane: &Plane) -> Option<&Winding>
        ensures { IfSome result (λ w. IsWindingOf self.now.body.value.pieces.items plane.now w.now) }
    {
        for piece in &self.body.pieces {
            if piece.winding.plane() == *plane {
                return Some(&piece.winding);
            }
        }
        None
    }
}

/// What a full solid is to what a cell has in front of a plane, by its pieces there, its cuboid there, and a winding that
/// lies on the plane in the cell.
fn part_in_front(
    contents: Contents,
    outward: &Arc<Vec<Plane>>,
    cuboid: Cuboid,
    pieces: Vec<Piece>,
    section: &Winding,
    plane: &Plane,
) -> Result<Part, AllocError>
    ensures part { IfOk result (λ part. IsFoundPart (record { contents = contents; outward = outward.now.value.items }) section.now cuboid pieces.items part plane.now) }
    ensures count { IfOk result (λ part. part_count part ≡ length pieces.items) }
{
    match least_of(&pieces) {
        Some(least) => {
            let alloc = *pieces.allocator();
            let outward = outward.clone()?;
            let body = Box::new(
                alloc,
                Body {
                    cuboid,
                    outward,
                    pieces,
                },
            )?;
            Ok(Part::Kept(Contender {
                contents,
                least,
                body,
            }))
        }
        None => Ok(lost_part(contents, outward, section, plane)),
    }
}

/// The same, by what is kept of it there.
fn left_part(contents: Contents, body: Box<Body>, section: &Winding, plane: &Plane) -> Part
    ensures part { IsFoundPart (record { contents = contents; outward = body.value.outward.value.items }) section.now body.value.cuboid body.value.pieces.items result plane.now }
    ensures count { part_count result ≡ length body.value.pieces.items }
{
    match least_of(&body.pieces) {
        Some(least) => Part::Kept(Contender {
            contents,
            least,
            body,
        }),
        None => lost_part(contents, &body.outward, section, plane),
    }
}

/// What a full solid without pieces in front of a plane is to what a cell has there.
fn lost_part(contents: Contents, outward: &[Plane], section: &Winding, plane: &Plane) -> Part
    ensures part { (cuboid : Cuboid) → IsFoundPart (record { contents = contents; outward = outward.now }) section.now cuboid [] result plane.now }
    ensures count { part_count result ≡ 0 }
{
    if is_inside(outward, section, plane) {
        Part::Containing(contents)
    } else {
        Part::Outside
    }
}

/// The rank of the piece that comes first, if there is one.
pub(crate) fn least_of(pieces: &[Piece]) -> Option<Rank>
    ensures { IsLesser None pieces.now result }
{
    let mut least = None;
    for piece in pieces {
        least = Some(first_of(least, piece.rank()));
    }
    least
}

/// Whether what is in front of a plane near a winding on it lies behind all planes. A plane does not lie behind itself.
fn is_inside(outward: &[Plane], section: &Winding, plane: &Plane) -> bool
    ensures answer { IsConvex section.now →
        MatchBool result (All (IsNotAhead section.now plane.now) outward.now) (HasAhead outward.now section.now plane.now) }
    ensures reduced { IsReduced plane.now }
{
    let _ = &plane.nx;
    if has_surely_ahead(outward, section, plane) {
        return false;
    }
    for face in outward {
        if is_ahead(face, section, plane) {
            return false;
        }
    }
    true
}

/// Whether some plane is known to have the winding in front, where its cuboid tells: mostly one does, and no corner is
/// looked at.
fn has_surely_ahead(outward: &[Plane], section: &Winding, plane: &Plane) -> bool
    ensures { IsConvex section.now → result ≡ true → HasAhead outward.now section.now plane.now }
{
    let cuboid = section.cuboid();
    for face in outward {
        if cuboid.least_value(face) > 0 && is_ahead(face, section, plane) {
            return true;
        }
    }
    false
}

/// Whether some of a winding is in front of a face's plane, or the face's plane is the other one.
fn is_ahead(face: &Plane, section: &Winding, plane: &Plane) -> bool
    ensures { IsConvex section.now →
        MatchBool result (KeepsOut section.now plane.now face.now) (IsNotAhead section.now plane.now face.now) }
{
    if *face == *plane {
        return true;
    }
    match section.lies(face) {
        Lies::Front | Lies::Across => true,
        Lies::Back | Lies::On => false,
    }
}
