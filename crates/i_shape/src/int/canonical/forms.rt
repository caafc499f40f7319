//! The forms of shapes and shape lists, given a cleaner that returns the forms of contours.

ghost use Rattle.std.specs.Prelude.{◌≡◌, ◌++◌, List, [], Option, Some, None, Ok, IsOk, IfOk, IfSome, OnOk, IsOkUnless};
ghost use Rattle.std.specs.Option.{option_to_list};
ghost use Rattle.i_shape_core.specs.Point.{Point};
ghost use Rattle.i_shape_core.specs.IntPoint.{answered};
ghost use Rattle.i_shape_core.specs.Canonical.{IsAtMost};
ghost use Rattle.i_shape.specs.ShapeLists.{shape_of, shapes_of, IsSafeShape, IsSafeList};
ghost use Rattle.i_shape.specs.ShapeAnswers.{HasShortOuter};
ghost use Rattle.i_shape.specs.CanonicalShapes.{SortedForms, ShapeForm, ListForm};

use crate::int::cleaning::{CleanerLaws, append_contour};
use crate::int::shape::{IntContour, IntShape, IntShapes};
use i_shape_core::error::ShapeError;
use i_shape_core::number::IntNumber;
use std::alloc::Global;

/// Returns the forms of the contours that don't collapse, sorted, with room reserved for one more.
fn sorted_forms<I: IntNumber, C: CleanerLaws>(
    cleaner: &mut C,
    alloc: Global,
    contours: &[IntContour<I>],
) -> Result<IntShape<I>, ShapeError>
    requires { IsSafeShape I.width (shape_of I.value contours.now) }
    ensures answer { IfOk result
        (λ sorted. SortedForms C.meaning.answers IsAtMost (shape_of I.value contours.now)
        (shape_of I.value sorted.items)) }
    ensures memory { IsOkUnless result ShapeError.OutOfMemory }
{
    let mut sorted = Vec::with_capacity(alloc, contours.len().saturating_add(1))?;
    for contour in contours {
        append_contour(cleaner, &mut sorted, contour.as_slice())?;
    }
    sorted.sort_unstable();
    Ok(sorted)
}

/// Returns the form of a shape, or `None` if its outer contour collapses.
///
/// # Errors
///
/// `OutOfMemory`, if an allocation fails.
pub fn shape_form<I: IntNumber, C: CleanerLaws>(
    cleaner: &mut C,
    alloc: Global,
    shape: &[IntContour<I>],
) -> Result<Option<IntShape<I>>, ShapeError>
    requires { IsSafeShape I.width (shape_of I.value shape.now) }
    ensures answer { IfOk result
        (λ r. ShapeForm C.meaning.answers (shape_of I.value shape.now) (answered (shape_of I.value) r)) }
    ensures safe { IfOk result
        (λ r. IfSome r (λ form. IsSafeShape I.width (shape_of I.value form.items))) }
    ensures memory { IsOkUnless result ShapeError.OutOfMemory }
    ensures none { shape_of I.value shape.now ≡ [] → IsOk result }
    ensures short { HasShortOuter (shape_of I.value shape.now) → result ≡ Ok None }
{
    let Some((outer, holes)) = shape.split_first() else {
        return Ok(Some(Vec::new(alloc)));
    };
    let Some(contour) = cleaner.cleaned(outer.as_slice())? else {
        return Ok(None);
    };
    let mut contours = sorted_forms(cleaner, alloc, holes)?;
    contours.insert(0, contour)?;
    Ok(Some(contours))
}

/// Appends the form of a shape, or nothing if its outer contour collapses.
fn push_shape_form<I: IntNumber, C: CleanerLaws>(
    cleaner: &mut C,
    forms: &mut IntShapes<I>,
    shape: &[IntContour<I>],
) -> Result<(), ShapeError>
    requires { IsSafeShape I.width (shape_of I.value shape.now) }
    ensures ok { OnOk result ((answer : Option (List (List Point)))
        × ShapeForm C.meaning.answers (shape_of I.value shape.now) answer
        × (shapes_of I.value forms.new.items ≡ shapes_of I.value forms.old.items
        ++ option_to_list answer)) }
    ensures memory { IsOkUnless result ShapeError.OutOfMemory }
{
    let alloc = *forms.allocator();
    match shape_form(cleaner, alloc, shape)? {
        Some(contours) => {
            forms.push(contours)?;
            Ok(())
        }
        None => Ok(()),
    }
}

/// Returns the forms of the shapes that have one, sorted.
///
/// # Errors
///
/// `OutOfMemory`, if an allocation fails.
pub fn list_form<I: IntNumber, C: CleanerLaws>(
    cleaner: &mut C,
    alloc: Global,
    shapes: &[IntShape<I>],
) -> Result<IntShapes<I>, ShapeError>
    requires { IsSafeList I.width (shapes_of I.value shapes.now) }
    ensures answer { IfOk result
        (λ r. ListForm C.meaning.answers (shapes_of I.value shapes.now) (shapes_of I.value r.items)) }
    ensures safe { IfOk result (λ r. IsSafeList I.width (shapes_of I.value r.items)) }
    ensures memory { IsOkUnless result ShapeError.OutOfMemory }
    ensures none { shapes_of I.value shapes.now ≡ [] → IsOk result }
{
    let mut forms = Vec::with_capacity(alloc, shapes.len())?;
    for shape in shapes {
        push_shape_form(cleaner, &mut forms, shape.as_slice())?;
    }
    forms.sort_unstable();
    Ok(forms)
}
