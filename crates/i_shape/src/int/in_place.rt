//! Cleaning in place. Memory for the longest contour that needs cleaning is allocated first; after that nothing can
//! fail.

ghost use Rattle.std.specs.Prelude.{◌≡◌, ◌<◌, ℕ, length, true, Ok, IfOk, IsOk, IsOkUnless};
ghost use Rattle.std.specs.List.{All, AllZip, Contains, filter};
ghost use Rattle.i_shape_core.specs.IntPoint.{contour_of, IsSafeContour};
ghost use Rattle.i_shape_core.specs.Unclean.{LongestUnclean};
ghost use Rattle.i_shape_source.specs.Paths.{concatenated};
ghost use Rattle.i_shape.specs.ShapeLists.{shape_of, shapes_of, IsSafeShape, IsSafeList};
ghost use Rattle.i_shape.specs.InPlace.{CleansShape, CleansList};
ghost use Rattle.i_shape.specs.Steps.LeftInPlace.{IsLeftOf, AreLeftOf, HasRoom, HasRoomFor, has_points, keeps_outer, kept_contours, kept_shapes};

use crate::int::cleaning::InPlaceCleaner;
use crate::int::shape::{IntContour, IntShape, IntShapes};
use i_shape_core::cleaner::ContourCleaner;
use i_shape_core::error::ShapeError;
use i_shape_core::number::IntNumber;
use i_shape_core::point::IntPoint;
use std::alloc::Global;

/// Replaces the shape by the cleaned shape, or empties it if its outer contour collapses. Returns whether a contour
/// needed cleaning. If none did, and after an error, the shape is unchanged.
///
/// # Errors
///
/// `OutOfMemory`, if an allocation fails.
pub fn clean_shape_in_place<I: IntNumber, C: InPlaceCleaner>(
    shape: &mut IntShape<I>,
) -> Result<bool, ShapeError>
    requires { IsSafeShape I.width (shape_of I.value shape.old.items) }
    ensures gives { CleansShape C.meaning.clean C.meaning.answers (shape_of I.value shape.old.items)
        (shape_of I.value shape.new.items) result }
    ensures unchanged { (result ≡ Ok true → ⊥) → shape.new ≡ shape.old }
    ensures safe { IsSafeShape I.width (shape_of I.value shape.new.items) }
{
    let Some(longest) = longest_unclean::<I, C>(shape.as_slice()) else {
        return Ok(false);
    };
    let mut work = InPlaceWork::<I, C>::with_capacity(*shape.allocator(), longest)?;
    work.clean_contours(shape);
    remove_collapsed(shape);
    Ok(true)
}

/// Replaces the list by the cleaned list. Returns whether a contour needed cleaning. If none did, and after an error,
/// the list is unchanged.
///
/// # Errors
///
/// `OutOfMemory`, if an allocation fails.
pub fn clean_list_in_place<I: IntNumber, C: InPlaceCleaner>(
    shapes: &mut IntShapes<I>,
) -> Result<bool, ShapeError>
    requires { IsSafeList I.width (shapes_of I.value shapes.old.items) }
    ensures gives { CleansList C.meaning.clean C.meaning.answers (shapes_of I.value shapes.old.items)
        (shapes_of I.value shapes.new.items) result }
    ensures unchanged { (result ≡ Ok true → ⊥) → shapes.new ≡ shapes.old }
    ensures safe { IsSafeList I.width (shapes_of I.value shapes.new.items) }
{
    let Some(longest) = longest_unclean_of_list::<I, C>(shapes.as_slice()) else {
        return Ok(false);
    };
    let mut work = InPlaceWork::<I, C>::with_capacity(*shapes.allocator(), longest)?;
    work.clean_shapes(shapes);
    remove_collapsed_shapes(shapes);
    Ok(true)
}

/// Returns the number of points of the longest contour that isn't clean, or `None` if all are clean. Cleaning tests
/// each contour again, since a mark of those that aren't clean would take memory.
fn longest_unclean<I: IntNumber, C: ContourCleaner>(shape: &[IntContour<I>]) -> Option<usize>
    requires { IsSafeShape I.width (shape_of I.value shape.now) }
    ensures { LongestUnclean (Contains (shape_of I.value shape.now)) C.meaning.clean length result }
{
    let mut longest = None;
    for contour in shape {
        if C::is_clean(contour.as_slice()) {
            continue;
        }
        longest = Some(contour.len().max(longest.unwrap_or(0)));
    }
    longest
}

/// Returns the number of points of the longest contour of a list that isn't clean, or `None` if all are clean.
fn longest_unclean_of_list<I: IntNumber, C: ContourCleaner>(shapes: &[IntShape<I>]) -> Option<usize>
    requires { IsSafeList I.width (shapes_of I.value shapes.now) }
    ensures { LongestUnclean (Contains (concatenated (shapes_of I.value shapes.now))) C.meaning.clean
        length result }
{
    let mut longest = None;
    for shape in shapes {
        let Some(points) = longest_unclean::<I, C>(shape.as_slice()) else {
            continue;
        };
        longest = Some(points.max(longest.unwrap_or(0)));
    }
    longest
}

/// The memory for cleaning in place: a cleaner, and a copy of the contour that it cleans.
#[derive(Drop)]
struct InPlaceWork<I, C> {
    cleaner: C,
    copy: Vec<IntPoint<I>>,
}

impl<I: IntNumber, C: InPlaceCleaner> InPlaceWork<I, C> {
    /// Allocates memory for contours of up to `points` points, and none below three. The only error is `OutOfMemory`.
    fn with_capacity(alloc: Global, points: usize) -> Result<InPlaceWork<I, C>, ShapeError>
        ensures room { IfOk result (λ work. HasRoom C.has_room work points) }
        ensures short { points < 3 → IsOk result }
        ensures memory { IsOkUnless result ShapeError.OutOfMemory }
    {
        let mut cleaner = C::new(alloc);
        cleaner.reserve(points)?;
        let copy = if points < 3 {
            Vec::new(alloc)
        } else {
            Vec::with_capacity(alloc, points)?
        };
        Ok(InPlaceWork { cleaner, copy })
    }

    /// Cleans the contour in place, and empties it if it collapses.
    fn clean_contour(&mut self, contour: &mut IntContour<I>)
        requires safe { IsSafeContour I.width (contour_of I.value contour.old.items) }
        requires room { HasRoomFor (HasRoom C.has_room) C.meaning.clean self.old
            (contour_of I.value contour.old.items) }
        ensures left { IsLeftOf C.meaning.answers (contour_of I.value contour.old.items)
            (contour_of I.value contour.new.items) }
        ensures keeps_room { (n : ℕ) → HasRoom C.has_room self.old n
            → HasRoom C.has_room self.new n }
    {
        if contour.len() < 3 {
            contour.clear();
            return;
        }
        if C::is_clean(contour.as_slice()) {
            return;
        }
        self.copy.clear();
        // there is room, as the call requires
        self.copy.extend_from_slice(contour.as_slice()).unwrap();
        let left = self
            .cleaner
            .write_left(self.copy.as_slice(), contour.as_mut_slice());
        contour.truncate(left);
    }

    /// Cleans each contour of a shape in place.
    fn clean_contours(&mut self, shape: &mut IntShape<I>)
        requires safe { IsSafeShape I.width (shape_of I.value shape.old.items) }
        requires room { All (HasRoomFor (HasRoom C.has_room) C.meaning.clean self.old)
            (shape_of I.value shape.old.items) }
        ensures left { AreLeftOf C.meaning.answers (shape_of I.value shape.old.items)
            (shape_of I.value shape.new.items) }
        ensures keeps_room { (n : ℕ) → HasRoom C.has_room self.old n
            → HasRoom C.has_room self.new n }
    {
        for contour in shape.iter_mut() {
            self.clean_contour(contour);
        }
    }

    /// Cleans each contour of each shape in place.
    fn clean_shapes(&mut self, shapes: &mut IntShapes<I>)
        requires safe { IsSafeList I.width (shapes_of I.value shapes.old.items) }
        requires room { All (All (HasRoomFor (HasRoom C.has_room) C.meaning.clean self.old))
            (shapes_of I.value shapes.old.items) }
        ensures left { AllZip (AreLeftOf C.meaning.answers) (shapes_of I.value shapes.old.items)
            (shapes_of I.value shapes.new.items) }
    {
        for shape in shapes.iter_mut() {
            self.clean_contours(shape);
        }
    }
}

/// Returns whether the outer contour has points, or true if there is no contour.
fn keeps_outer<I: IntNumber>(shape: &[IntContour<I>]) -> bool
    ensures { result ≡ keeps_outer (shape_of I.value shape.now) }
{
    shape.first().is_none_or(|outer| !outer.is_empty())
}

/// Removes the contours without points.
fn remove_empty<I: IntNumber>(shape: &mut IntShape<I>)
    ensures { shape_of I.value shape.new.items
        ≡ filter has_points (shape_of I.value shape.old.items) }
{
    shape.retain(|contour| !contour.is_empty());
}

/// Removes the contours without points, or all contours if the outer one has no points.
pub fn remove_collapsed<I: IntNumber>(shape: &mut IntShape<I>)
    ensures { shape_of I.value shape.new.items ≡ kept_contours (shape_of I.value shape.old.items) }
{
    if keeps_outer(shape.as_slice()) {
        remove_empty(shape);
    } else {
        shape.clear();
    }
}

/// Removes the contours without points, and the shapes whose outer contour has no points.
pub fn remove_collapsed_shapes<I: IntNumber>(shapes: &mut IntShapes<I>)
    ensures { shapes_of I.value shapes.new.items
        ≡ kept_shapes (shapes_of I.value shapes.old.items) }
{
    shapes.retain(|shape| keeps_outer(shape.as_slice()));
    for shape in shapes.iter_mut() {
        remove_empty(shape);
    }
}
