//! Which polygons and contours are left, as indices, if collapsed contours are empty.

ghost use Rattle.std.specs.Prelude.{◌≡◌, ◌↔◌, ◌+◌, ◌-◌, ◌<◌, ◌≤◌, length, IsTrue};
ghost use Rattle.i_shape_c.specs.Steps.Appended.{IsPut};
ghost use Rattle.i_shape_c.specs.Batch.{PartsPoints};
ghost use Rattle.i_shape_c.specs.Compacted.{has_points, is_left, contours_left, AreIndicesLeft, HasIndicesRoom, CompactsShapes};

use crate::codes::Refusal;
use crate::polygons::are_polygons;

/// Writes the indices of the polygons that are left, those of their contours that have points, and the offsets that
/// divide these contours among these polygons. Returns how many polygons are left, or a code below 0.
pub fn compact_shapes(
    contours: &[usize],
    shapes: &[usize],
    out_contours: &mut [usize],
    out_shapes: &mut [usize],
    out_offsets: &mut [usize],
) -> isize
    ensures { CompactsShapes contours.now shapes.now
        (record { contours = out_contours.old; shapes = out_shapes.old; offsets = out_offsets.old })
        (record { contours = out_contours.new; shapes = out_shapes.new; offsets = out_offsets.new })
        result }
{
    if !are_polygons(usize::MAX, contours, shapes) {
        return Refusal::BadOffsets.code() as isize;
    }
    if !has_indices_room(
        contours.len() - 1,
        shapes.len() - 1,
        out_contours.len(),
        out_shapes.len(),
        out_offsets.len(),
    ) {
        return Refusal::NoRoom.code() as isize;
    }
    write_indices(contours, shapes, out_contours, out_shapes, out_offsets) as isize
}

/// Returns whether there is room for the indices of so many contours and polygons, and for their offsets.
fn has_indices_room(
    contours: usize,
    shapes: usize,
    out_contours: usize,
    out_shapes: usize,
    out_offsets: usize,
) -> bool
    ensures { IsTrue result
        ↔ HasIndicesRoom contours shapes out_contours out_shapes out_offsets }
{
    contours <= out_contours && shapes <= out_shapes && shapes < out_offsets
}

/// Writes the indices and the offsets. Returns how many polygons are left.
fn write_indices(
    contours: &[usize],
    shapes: &[usize],
    out_contours: &mut [usize],
    out_shapes: &mut [usize],
    out_offsets: &mut [usize],
) -> usize
    requires some { 0 < length contours.now }
    requires parted { PartsPoints (length contours.now - 1) shapes.now }
    requires room { HasIndicesRoom (length contours.now - 1) (length shapes.now - 1)
        (length out_contours.old) (length out_shapes.old) (length out_offsets.old) }
    ensures { AreIndicesLeft contours.now shapes.now (length shapes.now - 1)
        (record { contours = out_contours.old; shapes = out_shapes.old; offsets = out_offsets.old })
        (record { contours = out_contours.new; shapes = out_shapes.new; offsets = out_offsets.new })
        result }
{
    out_offsets[0] = 0;
    let mut count = 0;
    let mut end = 0;
    for shape in 0..shapes.len() - 1 {
        if !is_left(contours, shapes, shape) {
            continue;
        }
        end = append_contours(
            contours,
            shapes[shape],
            shapes[shape + 1],
            out_contours,
            end,
        );
        out_shapes[count] = shape;
        count += 1;
        out_offsets[count] = end;
    }
    count
}

/// Returns whether a polygon is left: it has no contours, or its outer one has points.
fn is_left(contours: &[usize], shapes: &[usize], shape: usize) -> bool
    requires some { 0 < length contours.now }
    requires parted { PartsPoints (length contours.now - 1) shapes.now }
    requires within { shape + 1 < length shapes.now }
    ensures { result ≡ is_left contours.now shapes.now shape }
{
    shapes[shape + 1] <= shapes[shape] || has_points(contours, shapes[shape])
}

/// Writes the indices of the contours from `start` to before `end` that have points to `out`, from `place` on. Returns
/// the index after them.
fn append_contours(
    contours: &[usize],
    start: usize,
    end: usize,
    out: &mut [usize],
    place: usize,
) -> usize
    requires order { start ≤ end }
    requires within { end < length contours.now }
    requires room { place + (end - start) ≤ length out.old }
    ensures put { IsPut place (contours_left contours.now start end) out.old out.new }
    ensures count { result ≡ place + length (contours_left contours.now start end) }
    ensures fewer { result + start ≤ place + end }
{
    let mut next = place;
    for contour in start..end {
        if has_points(contours, contour) {
            out[next] = contour;
            next += 1;
        }
    }
    next
}

/// Returns whether a contour has points.
fn has_points(contours: &[usize], contour: usize) -> bool
    requires { contour + 1 < length contours.now }
    ensures { result ≡ has_points contours.now contour }
{
    contours[contour] < contours[contour + 1]
}
