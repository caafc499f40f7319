//! The first fault of a polygon whose rings may touch.

ghost use Rattle.std.specs.Prelude.{◌≡◌, ◌↔◌, length, IfOk, OnErr};
ghost use Rattle.i_shape_core.specs.IntPoint.{IsSafeContour};
ghost use Rattle.i_shape_core.specs.Reading.{read};
ghost use Rattle.i_shape_contacts.specs.Courses.{DividesPoints};
ghost use Rattle.i_shape_contacts.specs.Contacts.{IsRingContact, NoContact};
ghost use Rattle.i_shape_contacts.specs.Validity.{NoDegenerateRing};
ghost use Rattle.i_shape_touching.specs.Touching.{IsTouchingPolygon, IsFirstTouchingFault};
ghost use Rattle.i_shape_touching.specs.declared.validity.TouchingValidity.TheVariants.{Valid};

use crate::circles::first_circle;
use crate::nesting::{first_entering, first_leaving, pieces_of};
use crate::touches::{all_contacts, first_faulty, touches_of};
use i_shape_contacts::{Contact, Validity, validity_of};
use i_shape_core::point::ContourPoint;
use std::alloc::{AllocError, Global};

/// What is wrong with a polygon whose rings may touch, if anything.
#[derive(Clone, Copy, PartialEq, Eq, Debug)]
pub enum TouchingValidity {
    /// Nothing is wrong.
    Valid,
    /// The contour at this index has fewer than three points, or all its points are equal.
    TooFewPoints { contour: usize },
    /// These two edges are in contact, and are of one contour, cross or overlap.
    Contact(Contact),
    /// Some point of the edges of the hole at this index lies outside the outer contour.
    HoleOutside { contour: usize },
    /// Some point of the edges of the hole at `contour` lies inside another hole, at `other`.
    HoleWithin { contour: usize, other: usize },
    /// These two edges touch, and touches at lesser points, by x and then by y, join their contours already, directly
    /// or through other contours.
    Disconnected(Contact),
}

/// Returns the first fault of a polygon, or `Valid` if it has none. The offsets divide the points into its rings: the
/// first is the outer contour, the others are its holes, of either direction. A polygon without rings is valid.
///
/// Two rings may touch at one point, as OGC's rules allow, but no ring may touch itself. Faults come in this order: the
/// first ring that has fewer than three points or whose points are all equal; the first contact of two edges of one
/// ring, or that cross or overlap; the first hole with a point of its edges outside the outer contour; the first hole
/// with a point of its edges inside another, with the first such other; a touch of two rings already joined, directly
/// or through other rings, by touches at lesser points, by x and then by y: of these touches those at the least point,
/// and there the first.
///
/// # Errors
///
/// `AllocError`, if an allocation fails; never if no edges are in contact, or if a ring has fewer than three points or
/// only equal ones.
pub fn touching_validity_of<P: ContourPoint>(
    alloc: Global,
    points: &[P],
    offsets: &[usize],
) -> Result<TouchingValidity, AllocError>
    requires safe { IsSafeContour P.Coordinate.width
        (read P.Coordinate.value P.points points.now) }
    requires divides { DividesPoints (length points.now) offsets.now }
    ensures valid { IfOk result (λ v. v ≡ Valid
        ↔ IsTouchingPolygon offsets.now (read P.Coordinate.value P.points points.now)) }
    ensures fault { IfOk result (IsFirstTouchingFault offsets.now
        (read P.Coordinate.value P.points points.now)) }
    ensures memory { OnErr result (NoContact (IsRingContact offsets.now
        (read P.Coordinate.value P.points points.now)) → ⊥) }
    ensures whole { OnErr result (NoDegenerateRing offsets.now
        (read P.Coordinate.value P.points points.now)) }
{
    match validity_of(alloc, points, offsets) {
        Validity::Valid => Ok(TouchingValidity::Valid),
        Validity::TooFewPoints { contour } => Ok(TouchingValidity::TooFewPoints { contour }),
        Validity::HoleOutside { contour } => Ok(TouchingValidity::HoleOutside { contour }),
        Validity::HoleWithin { contour, other } => {
            Ok(TouchingValidity::HoleWithin { contour, other })
        }
        Validity::Contact(_) => with_contacts(alloc, points, offsets),
    }
}

/// Returns the first fault of a polygon without a degenerate ring.
///
/// # Errors
///
/// `AllocError`, if an allocation fails.
fn with_contacts<P: ContourPoint>(
    alloc: Global,
    points: &[P],
    offsets: &[usize],
) -> Result<TouchingValidity, AllocError>
    requires safe { IsSafeContour P.Coordinate.width
        (read P.Coordinate.value P.points points.now) }
    requires divides { DividesPoints (length points.now) offsets.now }
    requires whole { NoDegenerateRing offsets.now (read P.Coordinate.value P.points points.now) }
    ensures { IfOk result (IsFirstTouchingFault offsets.now
        (read P.Coordinate.value P.points points.now)) }
{
    let contacts = all_contacts(alloc, points, offsets)?;
    if let Some(contact) = first_faulty(points, offsets, &contacts) {
        return Ok(TouchingValidity::Contact(contact));
    }
    let touches = touches_of(alloc, points, offsets, &contacts)?;
    let pieces = pieces_of(alloc, points, offsets, &touches)?;
    if let Some(contour) = first_leaving(points, offsets, &pieces) {
        return Ok(TouchingValidity::HoleOutside { contour });
    }
    if let Some(entry) = first_entering(points, offsets, &pieces) {
        return Ok(TouchingValidity::HoleWithin {
            contour: entry.hole,
            other: entry.other,
        });
    }
    match first_circle(alloc, points, offsets, touches)? {
        Some(contact) => Ok(TouchingValidity::Disconnected(contact)),
        None => Ok(TouchingValidity::Valid),
    }
}
