//! The names that callers rely on and that the other modules of this crate don't use: the paths, calls and fields of
//! the Rust crate `i_shape`, as far as they are here, and of what is only here the calls on numbers, `Probe`, counted
//! calls, the canonical form of a contour and the tests of ranges. If one gets another name, other types or a further
//! condition, this module no longer checks. Tests use the other names: `i_shape_core_tests` those of the laws,
//! `i_shape_tool_tests` and `refusals` those of the program.

ghost use Rattle.std.specs.Prelude.{◌≡◌, ◌≤◌, vec_len};
ghost use Rattle.std.specs.List.{All, sum_by};
ghost use Rattle.i_shape.specs.IntPoint.{point_of};
ghost use Rattle.i_shape.specs.Point.{origin};
ghost use Rattle.i_shape.specs.ShapeAnswers.{HasPoints};
ghost use Rattle.i_shape.specs.ShapeLists.{shape_of, shapes_of};

use i_shape::base::data::{Contour, Path, Paths, Shape, Shapes};
use i_shape::flat::buffer::{FlatContoursBuffer, FlatShapesBuffer};
use i_shape::flat::float::{FloatFlatContoursBuffer, FloatFlatShapesBuffer};
use i_shape::int::area::{Area, IteratorArea, UnsafeArea};
use i_shape::int::count::{self, PointsCount};
use i_shape::int::despike::{DeSpike, DeSpikeContour, DeSpikeShape, DeSpikeShapes};
use i_shape::int::path::{ContourExtension, IntPath, IntPaths};
use i_shape::int::safe_range::IntSafeRange;
use i_shape::int::shape::{IntContour, IntShape, IntShapes};
use i_shape::int::simple::{ContourSimplifier, SimpleContour, SimpleShape, SimpleShapes, Simplify};
use i_shape::int::{IntPoint, Origin};
use i_shape::source::float::buffer::{
    FloatContoursBufferResourceIterator, FloatShapesBufferResourceIterator,
};
use i_shape::source::float::resource::{ShapePoint, ShapeResource};
use i_shape::source::int::buffer::IntBufferResourceIterator;
use i_shape::source::int::resource::IntShapeResource;
use i_shape::source::{float, int};
use i_shape::{IntNumber, ShapeError, int_path, int_shape, int_shapes, path, paths};
use i_shape_core::{Probe, Triangle, Turn, WideIntNumber};
use std::alloc::Global;
use std::iter::Copied;
use std::ops::Range;
use std::slice::Iter;

/// Returns twice the product of two numbers, wrapped, and its sign.
pub fn doubled<I: IntNumber>(a: I, b: I) -> (I::Wide, I::Wide) {
    let product = a.to_wide().wrapping_mul(b.to_wide());
    let twice = product.wrapping_add(product).wrapping_sub(I::Wide::ZERO);
    (twice, twice.signum())
}

/// Returns the least number of a type, half of one less than the greatest, and the bits of the type.
pub fn limits<I: IntNumber>() -> (I::Wide, I::Wide, u32) {
    let below_max = I::MAX.minus(I::ONE).to_wide();
    (I::MIN.to_wide(), below_max.divide(I::Wide::TWO), I::BITS)
}

/// Returns the point with both coordinates zero.
pub fn point_zero<I: IntNumber>() -> IntPoint<I>
    ensures { point_of I.value result ≡ origin }
{
    IntPoint::<I>::ZERO
}

/// Returns the point of height zero above or below a point.
pub fn foot<I: i_shape_core::IntNumber>(point: IntPoint<I>) -> IntPoint<I> {
    IntPoint {
        x: point.x,
        y: I::ZERO,
    }
}

/// Returns the cross and dot product of the vectors from `a` to `b` and to `c`, and whether the three points turn
/// clockwise. `None` if one isn't safe.
pub fn products<I: IntNumber>(
    a: IntPoint<I>,
    b: IntPoint<I>,
    c: IntPoint<I>,
) -> Option<(I::Wide, I::Wide, bool)> {
    if !(a.is_in_safe_range() && b.is_in_safe_range() && c.is_in_safe_range()) {
        return None;
    }
    let (v, w) = (b - a, c - a);
    Some((
        v.cross_product(w),
        v.dot_product(w),
        Triangle::is_clockwise(a, b, c),
    ))
}

/// Returns twice the signed area of a contour, its signed area, and whether it runs clockwise. `None` if it has no
/// point.
pub fn measures<I: IntNumber>(contour: &[IntPoint<I>]) -> Option<(I::Wide, I::Wide, bool)> {
    if contour.is_empty() {
        return None;
    }
    Some((
        contour.area_two(),
        contour.area(),
        contour.is_clockwise_ordered(),
    ))
}

/// Returns twice the signed areas of a shape and of a list, and the signed areas. Each contour must have a point.
pub fn areas<I: IntNumber>(
    shape: &[IntContour<I>],
    shapes: &[IntShape<I>],
) -> ([I::Wide; 2], [I::Wide; 2])
    requires of_shape { All HasPoints (shape_of I.value shape.now) }
    requires of_list { All (All HasPoints) (shapes_of I.value shapes.now) }
{
    (
        [shape.area_two(), shapes.area_two()],
        [shape.area(), shapes.area()],
    )
}

/// Returns whether a contour contains a point. `None` if a point isn't safe.
pub fn contains<I: IntNumber>(contour: &[IntPoint<I>], point: IntPoint<I>) -> Option<bool> {
    if !contour.is_in_safe_range() || !point.is_in_safe_range() {
        return None;
    }
    Some(contour.contains_point(point))
}

/// Returns the turn of a contour's first three points, and the visits so far. `None` if it has fewer points, or one
/// isn't safe.
pub fn first_turn<I: IntNumber>(contour: &[IntPoint<I>]) -> Option<(Turn, u128)> {
    if !contour.is_in_safe_range() {
        return None;
    }
    let mut probe: Probe<'_, I> = Probe::new(contour);
    if probe.len() < 3 {
        return None;
    }
    let turn = probe.turn(0, 1, 2);
    probe.skip();
    Some((turn, probe.visits()))
}

/// Returns whether cleaning removes the vertex: the path goes straight on there, or back.
pub fn is_zero_turn(turn: Turn) -> bool {
    match turn {
        Turn::Turning => false,
        Turn::Straight | Turn::Back => true,
    }
}

/// Returns the first point of a contour, kept by a probe without a visit.
pub fn first_kept<I: IntNumber>(
    alloc: Global,
    contour: &[IntPoint<I>],
) -> Result<(IntContour<I>, u128), ShapeError> {
    if contour.is_empty() || !contour.is_in_safe_range() {
        return Ok((Vec::new(alloc), 0));
    }
    Probe::new(contour).keep(alloc, &[0])
}

/// Returns whether a contour has safe points, is simple and convex, and has no spikes.
pub fn is_plain<I: IntNumber>(contour: &IntContour<I>) -> bool {
    let points = contour.as_slice();
    points.is_in_safe_range() && points.is_simple() && points.is_convex() && contour.has_no_spikes()
}

/// Returns whether all points of a shape and a list are safe, and each contour is simple and has no spikes.
pub fn are_plain<I: IntNumber>(shape: &IntShape<I>, shapes: &IntShapes<I>) -> bool {
    shape.is_in_safe_range()
        && shapes.is_in_safe_range()
        && shape.as_slice().is_simple()
        && shape.has_no_spikes()
        && shapes.as_slice().is_simple()
        && shapes.has_no_spikes()
}

/// Returns a contour without zero turns, its form, and the contour without spikes. There is none if a point isn't safe.
pub fn cleaned<I: IntNumber>(
    alloc: Global,
    contour: &IntContour<I>,
) -> Result<[Option<IntContour<I>>; 3], ShapeError> {
    if !contour.is_in_safe_range() {
        return Ok([None, None, None]);
    }
    let points = contour.as_slice();
    let mut simplifier = ContourSimplifier::new(alloc);
    let simple = simplifier.simplify_contour(points)?;
    let form = simplifier.canonical(points)?;
    Ok([simple, form, contour.despiked_contour(alloc)?])
}

/// Returns a shape without zero turns, and without spikes. There is none if a point isn't safe.
pub fn cleaned_shape<I: IntNumber>(
    alloc: Global,
    shape: &IntShape<I>,
) -> Result<[Option<IntShape<I>>; 2], ShapeError> {
    if !shape.is_in_safe_range() {
        return Ok([None, None]);
    }
    let simple = shape.as_slice().simplified(alloc)?;
    Ok([simple, shape.despiked_shape(alloc)?])
}

/// Removes spikes from a shape in place, or all zero turns. Returns whether a contour had to be cleaned, or `None` if a
/// point isn't safe.
pub fn clean_shape<I: IntNumber>(
    shape: &mut IntShape<I>,
    only_spikes: bool,
) -> Result<Option<bool>, ShapeError> {
    if !shape.is_in_safe_range() {
        return Ok(None);
    }
    let was_unclean = if only_spikes {
        shape.remove_spikes()?
    } else {
        shape.simplify_contour()?
    };
    Ok(Some(was_unclean))
}

/// Returns a list without zero turns, and without spikes. Both are empty if a point isn't safe.
pub fn cleaned_list<I: IntNumber>(
    alloc: Global,
    shapes: &IntShapes<I>,
) -> Result<[IntShapes<I>; 2], ShapeError> {
    if !shapes.is_in_safe_range() {
        return Ok([Vec::new(alloc), Vec::new(alloc)]);
    }
    let simple = shapes.as_slice().simplified(alloc)?;
    Ok([simple, shapes.despiked_shapes(alloc)?])
}

/// Returns how many vertices each cleaner visits, or `None` if a point isn't safe.
pub fn visits<I: IntNumber>(
    alloc: Global,
    contour: &IntContour<I>,
) -> Result<Option<(u128, u128)>, ShapeError> {
    if !contour.is_in_safe_range() {
        return Ok(None);
    }
    let mut simplifier = ContourSimplifier::new(alloc);
    let (_kept, simplified) = simplifier.simplify_counted(contour.as_slice())?;
    let (_kept, despiked) = contour.despiked_counted(alloc)?;
    Ok(Some((simplified, despiked)))
}

/// Returns literal lists of points of any type, by the types that the library names.
pub fn lists(alloc: Global) -> Result<(Path<[u8; 2]>, Paths<[u8; 2]>), ShapeError> {
    Ok((path![alloc; [0, 0], [4, 0]]?, paths![alloc; [[0, 0]], []]?))
}

/// Returns a list of shapes with one contour.
pub fn one_shape<P: Copy>(alloc: Global, contour: Contour<P>) -> Result<Shapes<P>, ShapeError> {
    let shape: Shape<P> = Vec::from_array(alloc, [contour])?;
    Ok(Vec::from_array(alloc, [shape])?)
}

/// Returns literal lists of integer points, by the types that the library names.
pub fn whole_number_lists(
    alloc: Global,
) -> Result<(IntPath<i16>, IntShape<i16>, IntShapes<i16>), ShapeError> {
    Ok((
        int_path![alloc; [0, 0], [4, 0], [4, 4]]?,
        int_shape![alloc; [[0, 0], [4, 0], [4, 4]], []]?,
        int_shapes![alloc; [[[0, 0], [4, 0], [4, 4]]], []]?,
    ))
}

/// Returns the number of points of paths, which must fit `usize`.
pub fn points_of_paths<I: IntNumber>(paths: &IntPaths<I>) -> usize
    requires { sum_by (λ path. vec_len path) paths.now.items ≤ usize.MAX }
{
    paths.as_slice().points_count()
}

/// Returns the number of points of a list, which must fit `usize`, by the name of the list where points are counted.
pub fn points_of_list<I: IntNumber>(shapes: &count::IntShapes<I>) -> usize
    requires { sum_by (λ shape. sum_by (λ path. vec_len path) shape.items) shapes.now.items ≤ usize.MAX }
{
    shapes.as_slice().points_count()
}

/// Changes the first contour of a buffer in place: its first point becomes `point`. Returns whether it could.
pub fn change_first<I: IntNumber>(buffer: &mut FlatContoursBuffer<I>, point: IntPoint<I>) -> bool {
    if buffer.is_empty() || !buffer.is_single_contour() || !buffer.can_read_first() {
        return false;
    }
    if buffer.as_first_contour().is_empty() {
        return false;
    }
    buffer.as_first_contour_mut()[0] = point;
    true
}

/// Returns a buffer of contours with room, filled again and again, and copied.
pub fn filled_contours<I: IntNumber>(
    alloc: Global,
    contour: &[IntPoint<I>],
    shape: &[IntContour<I>],
    shapes: &[IntShape<I>],
) -> Result<FlatContoursBuffer<I>, ShapeError> {
    let mut contours = FlatContoursBuffer::with_capacity(alloc, contour.len())?;
    contours.set_with_contour(contour)?;
    contours.set_with_shape(shape)?;
    contours.set_with_shapes(shapes)?;
    contours.clear_and_reserve(contour.len(), 1)?;
    contours.add_contour(contour)?;
    contours.clone()
}

/// Returns a buffer of shapes, filled in the same way.
pub fn filled_shapes<I: IntNumber>(
    alloc: Global,
    contour: &[IntPoint<I>],
    shape: &[IntContour<I>],
    shapes: &[IntShape<I>],
) -> Result<FlatShapesBuffer<I>, ShapeError> {
    let mut buffer = FlatShapesBuffer::with_capacity(alloc, contour.len(), 1, 1)?;
    buffer.set_with_contour(contour)?;
    buffer.set_with_shape(shape)?;
    buffer.set_with_shapes(shapes)?;
    buffer.clear_and_reserve(contour.len(), 1, 1)?;
    buffer.add_shape(shape)?;
    buffer.clone()
}

/// Returns what is read back of two buffers, or `None` if one can't be read.
pub fn read<I: IntNumber>(
    contours: &FlatContoursBuffer<I>,
    shapes: &FlatShapesBuffer<I>,
) -> Result<Option<(IntShape<I>, IntShapes<I>)>, ShapeError> {
    if !contours.can_read_contours() || !shapes.can_read_shapes() {
        return Ok(None);
    }
    Ok(Some((contours.to_contours()?, shapes.to_shapes()?)))
}

/// Returns the lengths of the lists of two buffers, or `None` if neither has a point.
pub fn lengths<I: IntNumber>(
    contours: &FlatContoursBuffer<I>,
    shapes: &FlatShapesBuffer<I>,
) -> Option<([usize; 2], [usize; 3])> {
    if contours.is_empty() && shapes.is_empty() {
        return None;
    }
    Some((
        [contours.points.len(), contours.ranges.len()],
        [
            shapes.points.len(),
            shapes.contour_ranges.len(),
            shapes.shape_ranges.len(),
        ],
    ))
}

/// Returns empty buffers of shapes, over integer points and over points of any type.
pub fn empty<I: IntNumber, P: Copy>(
    alloc: Global,
) -> (FlatShapesBuffer<I>, FloatFlatShapesBuffer<P>) {
    (
        FlatShapesBuffer::new(alloc),
        FloatFlatShapesBuffer::new(alloc),
    )
}

/// A point of one's own, for buffers and resources over points of any type.
#[derive(Clone, Copy)]
pub struct Place {
    pub east: i32,
    pub north: i32,
}

impl ShapePoint for Place {}

/// Returns a buffer of contours over points of any type, filled from slices, iterators and a resource.
pub fn gathered_contours<P: ShapePoint + Drop>(
    alloc: Global,
    points: &[P],
    ranges: &[Range<usize>],
    paths: &[Vec<P>],
) -> Result<FloatFlatContoursBuffer<P>, ShapeError> {
    let mut contours = FloatFlatContoursBuffer::with_capacity(alloc, points.len(), ranges.len())?;
    contours.set_flat(points, ranges)?;
    contours.set_with_iter(points.iter().copied(), ranges)?;
    contours.set_with_resource(paths)?;
    contours.clear_and_reserve(points.len(), 2)?;
    contours.add_contour(points)?;
    contours.add_contour_iter(points.iter().copied())?;
    contours.clone()
}

/// Returns a buffer of shapes, filled in the same way.
pub fn gathered_shapes<P: ShapePoint + Drop>(
    alloc: Global,
    points: &[P],
    ranges: &[Range<usize>],
    paths: &[Vec<P>],
) -> Result<FloatFlatShapesBuffer<P>, ShapeError> {
    let mut shapes = FloatFlatShapesBuffer::with_capacity(alloc, points.len(), 1, 1)?;
    shapes.set_flat(points, ranges, ranges)?;
    shapes.set_with_iter(points.iter().copied(), ranges, ranges)?;
    shapes.set_with_resource(paths)?;
    shapes.clear_and_reserve(points.len(), 2, 2)?;
    shapes.add_contour(points)?;
    shapes.add_contour_iter(points.iter().copied())?;
    shapes.clone()
}

/// Returns what is read back of two buffers over points of any type, or `None` if one can't be read.
pub fn read_of_any_kind<P: Copy>(
    contours: &FloatFlatContoursBuffer<P>,
    shapes: &FloatFlatShapesBuffer<P>,
) -> Result<Option<(Shape<P>, Shapes<P>)>, ShapeError> {
    if !contours.can_read_contours() || !shapes.can_read_shapes() {
        return Ok(None);
    }
    Ok(Some((contours.to_contours()?, shapes.to_shapes()?)))
}

/// Returns the contours of a buffer of shapes over points of any type. There are none if it has no point, or can't be
/// read.
pub fn contours_of_any_kind<P: Copy>(
    alloc: Global,
    shapes: &FloatFlatShapesBuffer<P>,
) -> Result<Shape<P>, ShapeError> {
    if shapes.is_empty() || !shapes.can_read_contours() {
        return Ok(Vec::new(alloc));
    }
    shapes.to_contours()
}

/// Returns the lengths of the lists of two buffers over points of any type, or `None` if the first has no point.
pub fn lengths_of_any_kind<P: Copy>(
    contours: &FloatFlatContoursBuffer<P>,
    shapes: &FloatFlatShapesBuffer<P>,
) -> Option<([usize; 2], [usize; 3])> {
    if contours.is_empty() {
        return None;
    }
    Some((
        [contours.points.len(), contours.ranges.len()],
        [
            shapes.points.len(),
            shapes.contour_ranges.len(),
            shapes.shape_ranges.len(),
        ],
    ))
}

/// Returns the first paths of resources over integer points, by the names of their iterators.
pub fn lent<'a, I: IntNumber>(
    path: &'a [IntPoint<I>],
    shape: &'a [IntContour<I>],
    shapes: &'a [IntShape<I>],
    slices: &'a [&'a [IntPoint<I>]],
) -> [Option<&'a [IntPoint<I>]>; 4] {
    let mut path: int::contour::ContourResourceIterator<'a, IntPoint<I>> = path.iter_paths();
    let mut shape: int::shape::ShapeResourceIterator<'a, IntPoint<I>> = shape.iter_paths();
    let mut shapes: int::shapes::ShapesResourceIterator<'a, IntPoint<I>> = shapes.iter_paths();
    let mut slices: Copied<Iter<'a, &'a [IntPoint<I>]>> = slices.iter_paths();
    [path.next(), shape.next(), shapes.next(), slices.next()]
}

/// Returns how many paths two buffers have, by the name of their iterator, or `None` if one can't be read.
pub fn lent_by_buffers<I: IntNumber>(
    contours: &FlatContoursBuffer<I>,
    shapes: &FlatShapesBuffer<I>,
) -> Option<[usize; 2]> {
    if !contours.can_read_contours() || !shapes.can_read_contours() {
        return None;
    }
    let of_contours: IntBufferResourceIterator<'_, I> = contours.iter_paths();
    let of_shapes: IntBufferResourceIterator<'_, I> = shapes.iter_paths();
    Some([of_contours.len(), of_shapes.len()])
}

/// Returns the first paths of resources over points of any type, by the names of their iterators.
pub fn lent_of_any_kind<'a, P: ShapePoint>(
    path: &'a [P],
    shape: &'a [Vec<P>],
    list: &'a [Vec<Vec<P>>],
    contours: &'a FloatFlatContoursBuffer<P>,
    shapes: &'a FloatFlatShapesBuffer<P>,
) -> [Option<&'a [P]>; 5] {
    let mut path: float::contour::ContourResourceIterator<'a, P> = path.iter_paths();
    let mut shape: float::shape::ShapeResourceIterator<'a, P> = shape.iter_paths();
    let mut list: float::shapes::ShapesResourceIterator<'a, P> = list.iter_paths();
    let mut contours: FloatContoursBufferResourceIterator<'a, P> = contours.iter_paths();
    let mut shapes: FloatShapesBufferResourceIterator<'a, P> = shapes.iter_paths();
    [
        path.next(),
        shape.next(),
        list.next(),
        contours.next(),
        shapes.next(),
    ]
}

/// Whether an iterator is one over a buffer of shapes. Two names of one type couldn't both implement it.
trait BufferIterator {
    fn is_of_shapes(&self) -> bool;
}

impl<'a, P> BufferIterator for FloatContoursBufferResourceIterator<'a, P> {
    fn is_of_shapes(&self) -> bool {
        false
    }
}

impl<'a, P> BufferIterator for FloatShapesBufferResourceIterator<'a, P> {
    fn is_of_shapes(&self) -> bool {
        true
    }
}

/// Returns which of the iterators over two buffers is one over a buffer of shapes.
pub fn are_of_shapes<P: ShapePoint>(
    contours: &FloatFlatContoursBuffer<P>,
    shapes: &FloatFlatShapesBuffer<P>,
) -> [bool; 2] {
    [
        contours.iter_paths().is_of_shapes(),
        shapes.iter_paths().is_of_shapes(),
    ]
}

/// Returns the double area of the contour of three points, by each of its two names, and its area.
pub fn of_three<I: IntNumber>(points: [IntPoint<I>; 3]) -> [I::Wide; 3] {
    [
        points.iter().copied().unsafe_area(),
        points.iter().copied().area_two(),
        points.iter().copied().area(),
    ]
}
