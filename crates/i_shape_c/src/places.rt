//! The first point or offset at which a call fails.

ghost use Rattle.i_shape_c.specs.Places.{IsFirstUnsafe, IsFirstBadOffset};
ghost use Rattle.i_shape_c.specs.Points.{point_by};

use crate::point::CPoint;

/// Returns the index of the first point that isn't safe, or the number of points if each is safe.
pub fn first_unsafe<P: CPoint>(points: &[P]) -> usize
    ensures { IsFirstUnsafe P.Coordinate.width (point_by P.Coordinate.value P.point)
        points.now result }
{
    for place in 0..points.len() {
        if !points[place].to_point().is_in_safe_range() {
            return place;
        }
    }
    points.len()
}

/// Returns the index of the first offset that is below the one before it or above the number of points. Returns the
/// number of offsets if none is, which may be 0.
pub fn first_bad_offset(points: usize, offsets: &[usize]) -> usize
    ensures { IsFirstBadOffset points offsets.now result }
{
    let mut before = 0;
    for place in 0..offsets.len() {
        let offset = offsets[place];
        if offset < before || offset > points {
            return place;
        }
        before = offset;
    }
    offsets.len()
}
