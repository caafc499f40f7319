//! The calls that take offsets and no points.

ghost use Rattle.i_shape_c.specs.Places.{IsFirstBadOffset};
ghost use Rattle.i_shape_c.specs.Compacted.{CompactsShapes};

use i_shape_c::compact::compact_shapes;
use i_shape_c::places::first_bad_offset;

/// Returns the index of the first offset that is below the one before it or above `count`, or the number of offsets if
/// none is.
#[unsafe(no_mangle)]
pub extern "C" fn i_shape_first_bad_offset(count: usize, offsets: &[usize]) -> usize
    ensures { IsFirstBadOffset count offsets.now result }
{
    first_bad_offset(count, offsets)
}

/// Writes the indices of the polygons that are left, those of their contours that have points, and the offsets that
/// divide these contours among these polygons. Returns how many polygons are left, or a code below 0.
#[unsafe(no_mangle)]
pub extern "C" fn i_shape_compact_shapes(
    contours: &[usize],
    shapes: &[usize],
    out_contours: &mut [usize],
    out_shapes: &mut [usize],
    out_offsets: &mut [usize],
) -> isize
    ensures { CompactsShapes contours.now shapes.now
        (record { contours = out_contours.old; shapes = out_shapes.old; offsets = out_offsets.old })
        (record { contours = out_contours.new; shapes = out_shapes.new; offsets = out_offsets.new })
        result }
{
    compact_shapes(contours, shapes, out_contours, out_shapes, out_offsets)
}
