//! Cleaning of shapes and shape lists by any cleaner of contours.

ghost use Rattle.std.specs.Prelude.{◌≡◌, ◌↔◌, ◌<◌, ◌++◌, List, [], length, Option, Some, None, IsTrue, Ok, IsOk, OnOk, IsOkUnless};
ghost use Rattle.std.specs.Int.{Width};
ghost use Rattle.std.specs.List.{All};
ghost use Rattle.std.specs.Option.{option_to_list};
ghost use Rattle.i_shape_core.specs.Point.{Point};
ghost use Rattle.i_shape_core.specs.IntPoint.{contour_of, IsSafe, IsSafeContour};
ghost use Rattle.i_shape_core.specs.Cleaners.{KeptAnswer};
ghost use Rattle.i_shape_core.proofs.Walks.Found.{simple_stays};
ghost use Rattle.i_shape_core.proofs.CleanerAnswers.Kept.{simple_kept, despike_kept, spikeless_stays};
ghost use Rattle.i_shape_core.proofs.CleanerAnswers.Cleaners.{simple_safe, simple_short, despike_safe, despike_short, canonical_safe, unoriented_safe};
ghost use Rattle.i_shape.specs.ShapeAnswers.{HasShortOuter, Survivors, ShapeClean, EachContour, EachShape, CleansShapeTo, CleansListTo};
ghost use Rattle.i_shape.specs.ShapeLists.{shape_of, shapes_of, IsSafeShape, IsSafeList};
ghost use Rattle.i_shape_core.specs.Refusals.{OkUnlessMemory};

use crate::int::shape::{IntContour, IntShape, IntShapes};
pub use i_shape_core::cleaner::{
    Canonicalizer, ContourCleaner, SpikeRemover, UnorientedCanonicalizer,
};
use i_shape_core::error::ShapeError;
use i_shape_core::number::IntNumber;
use i_shape_core::point::IntPoint;
use i_shape_core::simplifier::ContourSimplifier;
use std::alloc::Global;

/// A cleaner for shapes and lists: what it leaves of a contour has safe points again. `ContourDeSpiker` isn't one,
/// since shapes without spikes keep their repeated points.
pub trait CleanerLaws: ContourCleaner {
    /// A result has safe points if the contour has.
    ghost stays_safe: { (width : Width) (c e : List Point) → Self.meaning.answers c (Some e) → All (IsSafe width) c → All (IsSafe width) e };
}

/// A cleaner that leaves clean contours unchanged.
pub trait InPlaceCleaner: CleanerLaws {
    /// A clean contour is its own result.
    ghost stays: { (c : List Point) → Self.meaning.clean c → Self.meaning.answers c (Some c) };

    /// A result keeps the double area, containment and winding numbers.
    ghost kept: { (c : List Point) (r : Option (List Point)) → Self.meaning.answers c r → KeptAnswer c r };

    /// A contour of fewer than three points collapses.
    ghost short: { (c : List Point) → length c < 3 → Self.meaning.answers c None };
}

impl CleanerLaws for ContourSimplifier {
    ghost stays_safe = { simple_safe };
}

impl InPlaceCleaner for ContourSimplifier {
    ghost stays = { simple_stays };

    ghost kept = { simple_kept };

    ghost short = { simple_short };
}

impl CleanerLaws for SpikeRemover {
    ghost stays_safe = { despike_safe };
}

impl InPlaceCleaner for SpikeRemover {
    ghost stays = { spikeless_stays };

    ghost kept = { despike_kept };

    ghost short = { despike_short };
}

impl CleanerLaws for Canonicalizer {
    ghost stays_safe = { canonical_safe };
}

impl CleanerLaws for UnorientedCanonicalizer {
    ghost stays_safe = { unoriented_safe };
}

/// Returns whether no contour of the shape needs cleaning.
pub fn is_clean_shape<I: IntNumber, C: ContourCleaner>(shape: &[IntContour<I>]) -> bool
    requires { IsSafeShape I.width (shape_of I.value shape.now) }
    ensures { IsTrue result ↔ EachContour C.meaning.clean (shape_of I.value shape.now) }
{
    for contour in shape {
        if !C::is_clean(contour.as_slice()) {
            return false;
        }
    }
    true
}

/// Returns whether no contour of any shape needs cleaning.
pub fn is_clean_list<I: IntNumber, C: ContourCleaner>(shapes: &[IntShape<I>]) -> bool
    requires { IsSafeList I.width (shapes_of I.value shapes.now) }
    ensures { IsTrue result ↔ EachShape C.meaning.clean (shapes_of I.value shapes.now) }
{
    for shape in shapes {
        if !is_clean_shape::<I, C>(shape.as_slice()) {
            return false;
        }
    }
    true
}

/// Appends the cleaned contour, or nothing if it collapses.
///
/// # Errors
///
/// `OutOfMemory`, if an allocation fails.
pub fn append_contour<I: IntNumber, C: ContourCleaner>(
    cleaner: &mut C,
    kept: &mut IntShape<I>,
    contour: &[IntPoint<I>],
) -> Result<(), ShapeError>
    requires { IsSafeContour I.width (contour_of I.value contour.now) }
    ensures ok { OnOk result ((answer : Option (List Point))
        × C.meaning.answers (contour_of I.value contour.now) answer
        × (shape_of I.value kept.new.items ≡ shape_of I.value kept.old.items
        ++ option_to_list answer)) }
    ensures memory { IsOkUnless result ShapeError.OutOfMemory }
{
    match cleaner.cleaned(contour)? {
        Some(contour) => {
            kept.push(contour)?;
            Ok(())
        }
        None => Ok(()),
    }
}

/// Appends the cleaned contours, without those that collapse.
fn append_holes<I: IntNumber, C: ContourCleaner>(
    cleaner: &mut C,
    kept: &mut IntShape<I>,
    contours: &[IntContour<I>],
) -> Result<(), ShapeError>
    requires { IsSafeShape I.width (shape_of I.value contours.now) }
    ensures ok { OnOk result ((more : List (List Point))
        × Survivors C.meaning.answers (shape_of I.value contours.now) more
        × (shape_of I.value kept.new.items ≡ shape_of I.value kept.old.items ++ more)) }
    ensures memory { IsOkUnless result ShapeError.OutOfMemory }
{
    for contour in contours {
        append_contour(cleaner, kept, contour.as_slice())?;
    }
    Ok(())
}

/// Returns the cleaned shape, or `None` if its outer contour collapses.
///
/// # Errors
///
/// `OutOfMemory`, which can't occur for an empty shape, nor if the outer contour has fewer than three points.
pub fn clean_shape<I: IntNumber, C: InPlaceCleaner>(
    cleaner: &mut C,
    alloc: Global,
    shape: &[IntContour<I>],
) -> Result<Option<IntShape<I>>, ShapeError>
    requires { IsSafeShape I.width (shape_of I.value shape.now) }
    ensures answer { OkUnlessMemory result
        (CleansShapeTo C.meaning.answers I.width I.value (shape_of I.value shape.now)) }
    ensures none { shape_of I.value shape.now ≡ [] → IsOk result }
    ensures short { HasShortOuter (shape_of I.value shape.now) → result ≡ Ok None }
{
    let Some((outer, holes)) = shape.split_first() else {
        return Ok(Some(Vec::new(alloc)));
    };
    let Some(contour) = cleaner.cleaned(outer.as_slice())? else {
        return Ok(None);
    };
    let mut kept = Vec::with_capacity(alloc, shape.len())?;
    kept.push(contour)?;
    append_holes(cleaner, &mut kept, holes)?;
    Ok(Some(kept))
}

/// Appends the cleaned shape, or nothing if its outer contour collapses.
fn push_cleaned_shape<I: IntNumber, C: InPlaceCleaner>(
    cleaner: &mut C,
    kept: &mut IntShapes<I>,
    shape: &[IntContour<I>],
) -> Result<(), ShapeError>
    requires { IsSafeShape I.width (shape_of I.value shape.now) }
    ensures ok { OnOk result ((answer : Option (List (List Point)))
        × ShapeClean C.meaning.answers (shape_of I.value shape.now) answer
        × (shapes_of I.value kept.new.items ≡ shapes_of I.value kept.old.items
        ++ option_to_list answer)) }
    ensures memory { IsOkUnless result ShapeError.OutOfMemory }
{
    let alloc = *kept.allocator();
    match clean_shape(cleaner, alloc, shape)? {
        Some(cleaned) => {
            kept.push(cleaned)?;
            Ok(())
        }
        None => Ok(()),
    }
}

/// Returns the cleaned shapes of a list, without those whose outer contour collapses.
///
/// # Errors
///
/// `OutOfMemory`, which can't occur for an empty list.
pub fn clean_list<I: IntNumber, C: InPlaceCleaner>(
    cleaner: &mut C,
    alloc: Global,
    shapes: &[IntShape<I>],
) -> Result<IntShapes<I>, ShapeError>
    requires { IsSafeList I.width (shapes_of I.value shapes.now) }
    ensures answer { OkUnlessMemory result
        (CleansListTo C.meaning.answers I.width I.value (shapes_of I.value shapes.now)) }
    ensures none { shapes_of I.value shapes.now ≡ [] → IsOk result }
{
    let mut kept = Vec::with_capacity(alloc, shapes.len())?;
    for shape in shapes {
        push_cleaned_shape(cleaner, &mut kept, shape.as_slice())?;
    }
    Ok(kept)
}
