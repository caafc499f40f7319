//! Borrowed paths: of points, of lists, of lists of lists and of buffers.

ghost use Rattle.std.specs.Prelude.{◌≡◌, [], ◌∷◌, length, IfOk};
ghost use Rattle.i_shape.specs.Paths.{paths_of_shapes};

use i_shape::flat::buffer::{FlatContoursBuffer, FlatShapesBuffer};
use i_shape::flat::float::{FloatFlatContoursBuffer, FloatFlatShapesBuffer};
use i_shape::int::IntPoint;
use i_shape::int::safe_range::IntSafeRange;
use i_shape::source::float::resource::{ShapePoint, ShapeResource};
use i_shape::source::int::contour::ContourResourceIterator;
use i_shape::source::int::resource::IntShapeResource;
use i_shape::{IntNumber, path};
use i_shape_test_data::given::WholePoint;
use i_shape_test_data::row::Row;
use i_shape_test_data::texts;
use std::alloc::Global;
use std::test::Fail;

/// Whether a walk of the resource lends these paths, and then ends.
macro_rules! lend {
    ($resource:ident, $wanted:ident) => {{
        let mut rest = $wanted.iter();
        for path in $resource.iter_paths() {
            let Some(next) = rest.next() else {
                return false;
            };
            if path != next.as_slice() {
                return false;
            }
        }
        rest.next().is_none()
    }};
}

fn lends<'a, I: IntNumber + 'a, R: IntShapeResource<'a, I> + Copy>(
    resource: R,
    wanted: &[Vec<IntPoint<I>>],
) -> bool
    requires { R.can_read resource }
{
    lend!(resource, wanted)
}

pub fn lends_points<'a, P: ShapePoint + PartialEq + 'a, R: ShapeResource<'a, P> + Copy>(
    resource: R,
    wanted: &[Vec<P>],
) -> bool
    requires { R.can_read resource }
{
    lend!(resource, wanted)
}

/// A resource of the tests' own.
#[derive(Clone, Copy)]
struct Outline<'p> {
    points: &'p [IntPoint<i32>],
}

impl<'p> IntShapeResource<'p, i32> for Outline<'p> {
    type ResourceIter = ContourResourceIterator<'p, IntPoint<i32>>;

    ghost paths = { λ outline. outline.points.now ∷ [] };

    ghost safe = { λ outline. ⟦<&'p [IntPoint<i32>] as IntShapeResource<'p, i32>>⟧.safe outline.points };

    fn iter_paths(self) -> ContourResourceIterator<'p, IntPoint<i32>> {
        self.points.iter_paths()
    }
}

#[test]
fn another_resource_forwards_its_slice(rt: HostRuntime) -> Result<(), Fail> {
    let row = &Row::new(rt.alloc(), "a resource of the tests' own");
    let points = [IntPoint::new(7, 1), IntPoint::new(2, -3)];
    let outline = Outline { points: &points };
    let wanted = [points.to_vec(row.alloc)?];
    let twice = lends(outline, &wanted) & lends(outline, &wanted);
    row.holds(twice, "a path, and again")?;
    row.holds(outline.is_in_safe_range(), "safe")?;
    row.equal(outline.iter_paths().count(), 1, "paths")?;
    let far = [IntPoint::new(1073741824, 0)];
    row.holds(!Outline { points: &far }.is_in_safe_range(), "a far point")
}

/// An empty shape, a shape with an empty path between two paths, an empty shape, a shape of one empty path, an empty
/// shape.
fn some_shapes<P: Copy>(alloc: Global, path: &[P]) -> Result<[Vec<Vec<P>>; 5], Fail>
    ensures { IfOk result (λ shapes. length (paths_of_shapes shapes) ≡ 4) }
{
    let filled = vec![in alloc; path.to_vec(alloc)?, Vec::new(alloc), path.to_vec(alloc)?]?;
    let hollow = vec![in alloc; Vec::new(alloc)]?;
    Ok([
        Vec::new(alloc),
        filled,
        Vec::new(alloc),
        hollow,
        Vec::new(alloc),
    ])
}

/// The paths that `some_shapes` holds.
fn paths_of_some_shapes<P: Copy>(alloc: Global, path: &[P]) -> Result<Vec<Vec<P>>, Fail> {
    let (first, second) = (path.to_vec(alloc)?, path.to_vec(alloc)?);
    Ok(vec![in alloc; first, Vec::new(alloc), second, Vec::new(alloc)]?)
}

/// The path, an empty path, and the path without its first point.
fn some_paths<P: Copy>(alloc: Global, path: &[P]) -> Result<[Vec<P>; 3], Fail> {
    let rest = path[1.min(path.len())..].to_vec(alloc)?;
    Ok([path.to_vec(alloc)?, Vec::new(alloc), rest])
}

/// An array, the vector of its items and a slice of that, each behind one reference and two, lend these paths.
macro_rules! lend_alike {
    ($lends:ident, $row:ident, $array:ident, $wanted:ident) => {{
        let lent = $lends(&$array, &$wanted) & $lends(&&$array, &$wanted);
        $row.holds(lent, "an array")?;
        let vector = Vec::from_array($row.alloc, $array)?;
        let slice = vector.as_slice();
        let lent = $lends(&vector, &$wanted)
            & $lends(&&vector, &$wanted)
            & $lends(slice, &$wanted)
            & $lends(&slice, &$wanted);
        $row.holds(lent, "a vector")
    }};
}

/// Lists of shapes, of which some are empty, lend their paths.
macro_rules! lend_shapes {
    ($lends:ident, $row:ident, $points:ident) => {{
        let shapes = some_shapes($row.alloc, $points)?;
        let wanted = paths_of_some_shapes($row.alloc, $points)?;
        lend_alike!($lends, $row, shapes, wanted)
    }};
}

/// Lists of paths lend them. A list without paths lends none.
macro_rules! lend_paths {
    ($lends:ident, $row:ident, $points:ident) => {{
        let wanted = some_paths($row.alloc, $points)?;
        let none = &wanted.as_slice()[..0];
        $row.holds($lends(none, none), "no path")?;
        let paths = some_paths($row.alloc, $points)?;
        lend_alike!($lends, $row, paths, wanted)
    }};
}

/// The points lend themselves as one path. No points lend an empty one.
macro_rules! lend_points {
    ($lends:ident, $row:ident, $points:ident) => {{
        let wanted = vec![in $row.alloc; Vec::new($row.alloc)]?;
        $row.holds($lends(&$points.as_slice()[..0], &wanted), "no point")?;
        let wanted = vec![in $row.alloc; $points.to_vec($row.alloc)?]?;
        lend_alike!($lends, $row, $points, wanted)
    }};
}

/// Lists of the points, of no point and of the last point, all borrowed, lend these three.
macro_rules! lend_borrowed {
    ($lends:ident, $lends_vector:ident, $row:ident, $points:ident) => {{
        let wanted = some_paths($row.alloc, $points)?;
        let array = [$points, &$points[..0], &$points[1.min($points.len())..]];
        let slice = array.as_slice();
        let lent = $lends(&array, &wanted)
            & $lends(&&array, &wanted)
            & $lends(slice, &wanted)
            & $lends(&slice, &wanted);
        $row.holds(lent, "an array of slices")?;
        let vector = Vec::from_array($row.alloc, array)?;
        $row.holds($lends_vector(&vector, &wanted), "a vector of slices")
    }};
}

/// Whether a vector of borrowed paths lends them, behind one reference and two.
fn lends_vector<I: IntNumber>(vector: &Vec<&[IntPoint<I>]>, wanted: &[Vec<IntPoint<I>>]) -> bool {
    lends(vector, wanted) & lends(&vector, wanted)
}

fn lends_points_vector(vector: &Vec<&[WholePoint]>, wanted: &[Vec<WholePoint>]) -> bool {
    lends_points(vector, wanted) & lends_points(&vector, wanted)
}

fn shapes_lend<I: IntNumber>(row: &Row<'_>, points: &[IntPoint<I>]) -> Result<(), Fail> {
    lend_shapes!(lends, row, points)
}

fn paths_lend<I: IntNumber>(row: &Row<'_>, points: &[IntPoint<I>]) -> Result<(), Fail> {
    lend_paths!(lends, row, points)
}

fn points_lend<I: IntNumber>(row: &Row<'_>, points: [IntPoint<I>; 2]) -> Result<(), Fail> {
    lend_points!(lends, row, points)
}

fn borrowed_lend<I: IntNumber>(row: &Row<'_>, points: &[IntPoint<I>]) -> Result<(), Fail> {
    lend_borrowed!(lends, lends_vector, row, points)
}

fn all_lend<I: IntNumber>(row: &Row<'_>, points: [IntPoint<I>; 2]) -> Result<(), Fail> {
    shapes_lend(row, points.as_slice())?;
    paths_lend(row, points.as_slice())?;
    borrowed_lend(row, points.as_slice())?;
    points_lend(row, points)
}

#[test]
fn lists_of_each_width_lend_their_paths(rt: HostRuntime) -> Result<(), Fail> {
    let row = &Row::new(rt.alloc(), "two points");
    all_lend(row, [IntPoint::new(7i16, 1), IntPoint::new(2, -3)])?;
    all_lend(row, [IntPoint::new(7i32, 1), IntPoint::new(2, -3)])?;
    all_lend(row, [IntPoint::new(7i64, 1), IntPoint::new(2, -3)])
}

fn shapes_of_points_lend(row: &Row<'_>, points: &[WholePoint]) -> Result<(), Fail> {
    lend_shapes!(lends_points, row, points)
}

fn paths_of_points_lend(row: &Row<'_>, points: &[WholePoint]) -> Result<(), Fail> {
    lend_paths!(lends_points, row, points)
}

fn whole_points_lend(row: &Row<'_>, points: [WholePoint; 2]) -> Result<(), Fail> {
    lend_points!(lends_points, row, points)
}

fn borrowed_points_lend(row: &Row<'_>, points: &[WholePoint]) -> Result<(), Fail> {
    lend_borrowed!(lends_points, lends_points_vector, row, points)
}

#[test]
fn lists_of_other_points_lend_their_paths(rt: HostRuntime) -> Result<(), Fail> {
    let row = &Row::new(rt.alloc(), "two points of the tests' own");
    let points = [WholePoint { x: 7, y: 1 }, WholePoint { x: 2, y: -3 }];
    shapes_of_points_lend(row, points.as_slice())?;
    paths_of_points_lend(row, points.as_slice())?;
    borrowed_points_lend(row, points.as_slice())?;
    whole_points_lend(row, points)
}

/// The points are safe, or not: as a contour, as a shape of it, as a list of that shape.
fn are_safe<I: IntNumber>(row: &Row<'_>, points: &[IntPoint<I>], wanted: bool) -> Result<(), Fail> {
    let contour = points.to_vec(row.alloc)?;
    let of_contour = (&contour).is_in_safe_range();
    let shape = vec![in row.alloc; contour]?;
    let of_shape = (&shape).is_in_safe_range();
    let shapes = vec![in row.alloc; shape]?;
    let safe = [of_contour, of_shape, (&shapes).is_in_safe_range()];
    row.equal(safe, [wanted; 3], "a contour, a shape and a list")
}

/// The point isn't safe, and nor are the corners with it.
fn is_far<I: IntNumber>(
    row: &Row<'_>,
    corners: &[IntPoint<I>],
    far: IntPoint<I>,
) -> Result<(), Fail> {
    row.holds(!far.is_in_safe_range(), "a point beyond the corners")?;
    let mut points = corners.to_vec(row.alloc)?;
    points.push(far)?;
    are_safe(row, points.as_slice(), false)
}

/// The corners of a width are safe, and no longer with a point beyond them, whichever coordinate it is.
fn safe_range_ends_at<I: IntNumber>(
    row: &Row<'_>,
    corners: &[IntPoint<I>],
    beyond: &[I],
) -> Result<(), Fail> {
    for corner in corners {
        row.holds(corner.is_in_safe_range(), "a corner")?;
    }
    are_safe(row, corners, true)?;
    for far in beyond {
        is_far(row, corners, IntPoint::new(*far, I::ZERO))?;
        is_far(row, corners, IntPoint::new(I::ZERO, *far))?;
    }
    Ok(())
}

#[test]
fn safe_range_ends_at_a_quarter_of_each_width(rt: HostRuntime) -> Result<(), Fail> {
    let row = Row::new(rt.alloc(), "the safe range");
    let m = 16383i16;
    safe_range_ends_at(
        &row,
        &[IntPoint::new(-m, -m), IntPoint::new(m, m)],
        &[m + 1, -m - 1, i16::MAX, i16::MIN],
    )?;
    let m = 1073741823i32;
    safe_range_ends_at(
        &row,
        &[IntPoint::new(-m, -m), IntPoint::new(m, m)],
        &[m + 1, -m - 1, i32::MAX, i32::MIN],
    )?;
    let m = 4611686018427387903i64;
    safe_range_ends_at(
        &row,
        &[IntPoint::new(-m, -m), IntPoint::new(m, m)],
        &[m + 1, -m - 1, i64::MAX, i64::MIN],
    )
}

#[test]
fn each_path_decides_whether_a_resource_is_safe(rt: HostRuntime) -> Result<(), Fail> {
    let row = Row::new(rt.alloc(), "paths");
    let near = [IntPoint::new(1, 2)].to_vec(row.alloc)?;
    let far = [IntPoint::new(0, 1073741824)].to_vec(row.alloc)?;
    let paths = [Vec::new(row.alloc), near, far];
    let told = [
        (&paths).is_in_safe_range(),
        paths[..2].is_in_safe_range(),
        paths[..1].is_in_safe_range(),
        paths[..0].is_in_safe_range(),
    ];
    let wanted = [false, true, true, true];
    row.equal(
        told,
        wanted,
        "with a far path, a near one, an empty one, none",
    )
}

/// A buffer of contours lends each of its ranges.
#[test]
fn integer_contours_lend_each_range(rt: HostRuntime) -> Result<(), Fail> {
    let row = &Row::new(rt.alloc(), "three ranges");
    let contours = FlatContoursBuffer {
        points: texts::contour(row.alloc, "1 2 3 4")?,
        ranges: texts::ranges(row.alloc, "1..2 0..0 0..2")?,
    };
    row.holds(contours.can_read_contours(), "ranges that can be read")?;
    let wanted = texts::shape(row.alloc, "3 4;;1 2 3 4;")?;
    let wanted = wanted.as_slice();
    let lent = lends(&contours, wanted) & lends(&&contours, wanted);
    row.holds(lent, "contours")?;
    let mut walk = (&contours).iter_paths();
    row.equal((walk.len(), walk.size_hint()), (3, (3, Some(3))), "a walk")?;
    walk.next();
    row.equal(walk.len(), 2, "a walk after a path")?;
    row.equal(walk.count(), 2, "a walk after a path, counted")
}

/// A buffer of shapes lends each of its ranges of contours, whatever those of shapes are.
#[test]
fn integer_shapes_lend_each_range(rt: HostRuntime) -> Result<(), Fail> {
    let row = &Row::new(rt.alloc(), "three ranges of contours");
    let shapes = FlatShapesBuffer {
        points: texts::contour(row.alloc, "1 2 3 4")?,
        contour_ranges: texts::ranges(row.alloc, "1..2 0..0 0..2")?,
        shape_ranges: Vec::new(row.alloc),
    };
    row.holds(shapes.can_read_contours(), "ranges that can be read")?;
    let wanted = texts::shape(row.alloc, "3 4;;1 2 3 4;")?;
    let wanted = wanted.as_slice();
    let lent = lends(&shapes, wanted) & lends(&&shapes, wanted);
    row.holds(lent, "shapes")?;
    let mut walk = (&shapes).iter_paths();
    row.equal(walk.len(), 3, "a walk of shapes")?;
    walk.next();
    row.equal(walk.count(), 2, "a walk of shapes after a path")
}

/// The iterators other than those of integer buffers give no hint of how many paths are left.
#[test]
fn other_walks_give_no_hint(rt: HostRuntime) -> Result<(), Fail> {
    let row = Row::new(rt.alloc(), "other walks");
    let points = [WholePoint { x: 7, y: 1 }, WholePoint { x: 2, y: -3 }];
    let paths = some_paths(row.alloc, points.as_slice())?;
    let shapes = some_shapes(row.alloc, points.as_slice())?;
    let mut contours = FloatFlatContoursBuffer::new(row.alloc);
    contours.set_with_resource(&paths)?;
    let mut list = FloatFlatShapesBuffer::new(row.alloc);
    list.set_with_resource(&paths)?;
    let hints = [
        points.as_slice().iter_paths().size_hint(),
        (&paths).iter_paths().size_hint(),
        (&shapes).iter_paths().size_hint(),
        (&contours).iter_paths().size_hint(),
        (&list).iter_paths().size_hint(),
    ];
    row.equal(
        hints,
        [(0, None); 5],
        "a path, a shape, a list, two buffers",
    )
}

/// Both buffers are safe if their ranges skip the far point.
#[test]
fn points_that_no_range_names_may_be_far(rt: HostRuntime) -> Result<(), Fail> {
    for (name, is_safe) in [("0..1 0..0", true), ("0..1 0..0 1..2", false)] {
        let row = Row::new(rt.alloc(), name);
        let contours = FlatContoursBuffer {
            points: path![row.alloc; IntPoint::new(0, 0), IntPoint::new(i32::MAX, 0)]?,
            ranges: texts::ranges(row.alloc, name)?,
        };
        row.holds(contours.can_read_contours(), "ranges that can be read")?;
        row.equal((&contours).is_in_safe_range(), is_safe, "contours")?;
        let shapes = FlatShapesBuffer {
            points: path![row.alloc; IntPoint::new(0, 0), IntPoint::new(i32::MAX, 0)]?,
            contour_ranges: texts::ranges(row.alloc, name)?,
            shape_ranges: Vec::new(row.alloc),
        };
        row.holds(shapes.can_read_contours(), "ranges that can be read")?;
        row.equal((&shapes).is_in_safe_range(), is_safe, "shapes")?;
    }
    Ok(())
}

/// The number of paths that are left after these steps of a walk.
macro_rules! count {
    ($resource:expr, [$($next:ident),*]) => {{
        let mut walk = $resource.iter_paths();
        $(walk.$next();)*
        walk.count()
    }};
}

/// The numbers of paths left: of a path, of a shape, and of a list of shapes.
macro_rules! count_each {
    ($row:ident, $path:ident) => {{
        let of_path = count!($path, [next]);
        let two = vec![in $row.alloc; $path.to_vec($row.alloc)?, $path.to_vec($row.alloc)?]?;
        let of_shape = count!(two.as_slice(), [next]);
        let shapes = [two, vec![in $row.alloc; $path.to_vec($row.alloc)?]?];
        let of_list = count!(&shapes, [next]);
        $row.equal([of_path, of_shape, of_list], [0, 1, 2], "paths left")
    }};
}

/// The numbers of paths left of a list of shapes, of which some are empty.
macro_rules! count_some {
    ($row:ident, $path:ident) => {{
        let shapes = some_shapes($row.alloc, $path)?;
        let of_some = [
            count!(&shapes, []),
            count!(&shapes, [next, next]),
            count!(&shapes, [next, next, next, next]),
        ];
        $row.equal(of_some, [4, 2, 0], "paths left of shapes")
    }};
}

fn counts_each<I: IntNumber>(row: &Row<'_>, path: &[IntPoint<I>]) -> Result<(), Fail> {
    count_each!(row, path)
}

fn counts_some<I: IntNumber>(row: &Row<'_>, path: &[IntPoint<I>]) -> Result<(), Fail> {
    count_some!(row, path)
}

#[test]
fn paths_left_are_counted(rt: HostRuntime) -> Result<(), Fail> {
    let row = &Row::new(rt.alloc(), "whole numbers");
    counts_each(row, &[IntPoint::new(7i16, 1)])?;
    counts_each(row, &[IntPoint::new(7i32, 1)])?;
    counts_each(row, &[IntPoint::new(7i64, 1)])?;
    counts_some(row, &[IntPoint::new(7i16, 1)])?;
    counts_some(row, &[IntPoint::new(7i32, 1)])?;
    counts_some(row, &[IntPoint::new(7i64, 1)])
}

#[test]
fn paths_left_of_other_points_are_counted(rt: HostRuntime) -> Result<(), Fail> {
    let row = Row::new(rt.alloc(), "points of the tests' own");
    let points = [WholePoint { x: 7, y: 1 }];
    let path = points.as_slice();
    count_each!(row, path)
}

#[test]
fn paths_left_of_some_shapes_are_counted(rt: HostRuntime) -> Result<(), Fail> {
    let row = Row::new(rt.alloc(), "shapes of the tests' own points");
    let points = [WholePoint { x: 7, y: 1 }];
    let path = points.as_slice();
    count_some!(row, path)
}
