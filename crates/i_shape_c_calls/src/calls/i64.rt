//! The calls at 64 bits, made by scripts/widths.sh from those at 32 bits.

ghost use Rattle.std.specs.Prelude.{◌≡◌, ◌↔◌, ◌<◌, length, map, IsTrue};
ghost use Rattle.std.specs.Int.{w64};
ghost use Rattle.i_shape.specs.Contour.{IsSimple};
ghost use Rattle.i_shape.specs.Convex.{Convex, NoSpikes};
ghost use Rattle.i_shape_contacts.specs.Contacts.{IsSimplePolygon};
ghost use Rattle.i_shape_c.specs.Points.{point_i64};
ghost use Rattle.i_shape.specs.Cleaning.{simplifying, despiking, removing_spikes, canonicalizing, canonicalizing_unoriented};
ghost use Rattle.i_shape_c.specs.Cleaned.{AreSafe, CleansContour};
ghost use Rattle.i_shape_c.specs.Batch.{contour_arrays, CleansContours};
ghost use Rattle.i_shape_c.specs.Areas.{AreDoubleAreaHalves};
ghost use Rattle.i_shape_c.specs.Tests.{IsTold, TestsContour, TestsPoint};
ghost use Rattle.i_shape_c.specs.Polygons.{polygon_arrays, cleaned_by, formed_by, CleansPolygons};
ghost use Rattle.i_shape_c.specs.Windings.{WindsAbout, WindsAboutEach};
ghost use Rattle.i_shape_c.specs.Locations.{query, FillsPoint, IsFilledByte, IsLocated, TellsEach};
ghost use Rattle.i_shape_c.specs.Places.{IsFirstUnsafe};
ghost use Rattle.i_shape_c.specs.Contacts.{FindsContact, FindsContacts, FindsRingContact, FindsRingContacts};
ghost use Rattle.i_shape_c.specs.Validity.{IsFaultOf, IsTouchingFaultOf, FindsFaults};
ghost use Rattle.i_shape_c.specs.Kinds.{FindsKinds};
ghost use Rattle.i_shape_c.specs.Formed.{feature_arrays, FormsEach, FormsFeatures};
ghost use Rattle.i_shape_c.specs.Holders.{holders_query, FindsHolders};

use i_shape::int::cleaner::{Canonicalizer, SpikeRemover, UnorientedCanonicalizer};
use i_shape::int::despike::ContourDeSpiker;
use i_shape::int::simple::ContourSimplifier;
use i_shape_c::area::{Halves, area_two};
use i_shape_c::batch::clean_contours;
use i_shape_c::canonical::form_shapes;
use i_shape_c::contacts::{
    find_contact, find_contact_of_rings, find_contacts, find_contacts_of_rings,
};
use i_shape_c::contour::clean_contour;
use i_shape_c::features::form_features;
use i_shape_c::forms::form_polygons;
use i_shape_c::holders::find_holders;
use i_shape_c::kinds::find_kinds;
use i_shape_c::location::{Filled, Located, contains_by, tell_points};
use i_shape_c::places::first_unsafe;
use i_shape_c::point::PointI64;
use i_shape_c::polygons::clean_shapes;
use i_shape_c::predicates::{
    Bulging, Simple, SimplePolygon, Spikeless, contains, is_safe, test_contour,
};
use i_shape_c::touching::find_touching_faults;
use i_shape_c::validity::{Fault, find_faults};
use i_shape_c::winding::{winding, windings};
use i_shape_contacts::Contact;
use std::alloc::Global;

/// Removes zero turns from the contour. Returns how many points are written to the front of `out`, 0 if the contour
/// collapses, or a code below 0.
#[unsafe(no_mangle)]
pub extern "C" fn i_shape_simplify_i64(
    alloc: Global,
    points: &[PointI64],
    out: &mut [PointI64],
) -> isize
    ensures { CleansContour simplifying w64 point_i64 points.now out.old out.new result }
{
    clean_contour::<PointI64, ContourSimplifier>(alloc, points, out)
}

/// Removes spikes and repeated points from the contour. Returns how many points are written to the front of `out`, 0 if
/// the contour collapses, or a code below 0.
#[unsafe(no_mangle)]
pub extern "C" fn i_shape_despike_i64(
    alloc: Global,
    points: &[PointI64],
    out: &mut [PointI64],
) -> isize
    ensures { CleansContour despiking w64 point_i64 points.now out.old out.new result }
{
    clean_contour::<PointI64, ContourDeSpiker>(alloc, points, out)
}

/// Writes the canonical form: the least rotation of the contour without zero turns. Returns how many points are written
/// to the front of `out`, 0 if the contour collapses, or a code below 0.
#[unsafe(no_mangle)]
pub extern "C" fn i_shape_canonical_i64(
    alloc: Global,
    points: &[PointI64],
    out: &mut [PointI64],
) -> isize
    ensures { CleansContour canonicalizing w64 point_i64 points.now out.old out.new result }
{
    clean_contour::<PointI64, Canonicalizer>(alloc, points, out)
}

/// Writes the canonical form without regard to direction: the lesser of the canonical forms of the contour and of its
/// reverse. Returns how many points are written to the front of `out`, 0 if the contour collapses, or a code below 0.
#[unsafe(no_mangle)]
pub extern "C" fn i_shape_canonical_unoriented_i64(
    alloc: Global,
    points: &[PointI64],
    out: &mut [PointI64],
) -> isize
    ensures { CleansContour canonicalizing_unoriented w64 point_i64 points.now out.old out.new result }
{
    clean_contour::<PointI64, UnorientedCanonicalizer>(alloc, points, out)
}

/// Writes for each contour a result of `i_shape_simplify_i64`, empty if it collapses. Returns how many points are
/// written, or a code below 0.
#[unsafe(no_mangle)]
pub extern "C" fn i_shape_simplify_contours_i64(
    alloc: Global,
    points: &[PointI64],
    offsets: &[usize],
    out_points: &mut [PointI64],
    out_offsets: &mut [usize],
) -> isize
    ensures { CleansContours simplifying w64 point_i64 (contour_arrays points.now offsets.now)
        (contour_arrays out_points.old out_offsets.old)
        (contour_arrays out_points.new out_offsets.new) result }
{
    clean_contours::<PointI64, ContourSimplifier>(alloc, points, offsets, out_points, out_offsets)
}

/// Writes for each contour a result of `i_shape_despike_i64`, empty if it collapses. Returns how many points are
/// written, or a code below 0.
#[unsafe(no_mangle)]
pub extern "C" fn i_shape_despike_contours_i64(
    alloc: Global,
    points: &[PointI64],
    offsets: &[usize],
    out_points: &mut [PointI64],
    out_offsets: &mut [usize],
) -> isize
    ensures { CleansContours despiking w64 point_i64 (contour_arrays points.now offsets.now)
        (contour_arrays out_points.old out_offsets.old)
        (contour_arrays out_points.new out_offsets.new) result }
{
    clean_contours::<PointI64, ContourDeSpiker>(alloc, points, offsets, out_points, out_offsets)
}

/// Writes for each contour a result of `i_shape_canonical_i64`, empty if it collapses. Returns how many points are
/// written, or a code below 0.
#[unsafe(no_mangle)]
pub extern "C" fn i_shape_canonical_contours_i64(
    alloc: Global,
    points: &[PointI64],
    offsets: &[usize],
    out_points: &mut [PointI64],
    out_offsets: &mut [usize],
) -> isize
    ensures { CleansContours canonicalizing w64 point_i64 (contour_arrays points.now offsets.now)
        (contour_arrays out_points.old out_offsets.old)
        (contour_arrays out_points.new out_offsets.new) result }
{
    clean_contours::<PointI64, Canonicalizer>(alloc, points, offsets, out_points, out_offsets)
}

/// Writes the unoriented canonical form of each contour, empty if it collapses, end to end to the front of
/// `out_points`, and their offsets, from 0 on, to `out_offsets`. Returns how many points are written, or a code
/// below 0.
#[unsafe(no_mangle)]
pub extern "C" fn i_shape_canonical_unoriented_contours_i64(
    alloc: Global,
    points: &[PointI64],
    offsets: &[usize],
    out_points: &mut [PointI64],
    out_offsets: &mut [usize],
) -> isize
    ensures { CleansContours canonicalizing_unoriented w64 point_i64
        (contour_arrays points.now offsets.now) (contour_arrays out_points.old out_offsets.old)
        (contour_arrays out_points.new out_offsets.new) result }
{
    clean_contours::<PointI64, UnorientedCanonicalizer>(
        alloc,
        points,
        offsets,
        out_points,
        out_offsets,
    )
}

/// Removes zero turns from the polygons, the holes that collapse, and the polygons whose outer contour collapses.
/// Returns how many polygons are left, or a code below 0.
#[unsafe(no_mangle)]
pub extern "C" fn i_shape_simplify_shapes_i64(
    alloc: Global,
    points: &[PointI64],
    contours: &[usize],
    shapes: &[usize],
    out_points: &mut [PointI64],
    out_contours: &mut [usize],
    out_shapes: &mut [usize],
) -> isize
    ensures { CleansPolygons (cleaned_by simplifying) w64 point_i64
        (polygon_arrays points.now contours.now shapes.now)
        (polygon_arrays out_points.old out_contours.old out_shapes.old)
        (polygon_arrays out_points.new out_contours.new out_shapes.new) result }
{
    clean_shapes::<PointI64, ContourSimplifier>(
        alloc,
        points,
        contours,
        shapes,
        out_points,
        out_contours,
        out_shapes,
    )
}

/// Removes spikes from the polygons, the holes that collapse, and the polygons whose outer contour collapses. Returns
/// how many polygons are left, or a code below 0.
#[unsafe(no_mangle)]
pub extern "C" fn i_shape_despike_shapes_i64(
    alloc: Global,
    points: &[PointI64],
    contours: &[usize],
    shapes: &[usize],
    out_points: &mut [PointI64],
    out_contours: &mut [usize],
    out_shapes: &mut [usize],
) -> isize
    ensures { CleansPolygons (cleaned_by removing_spikes) w64 point_i64
        (polygon_arrays points.now contours.now shapes.now)
        (polygon_arrays out_points.old out_contours.old out_shapes.old)
        (polygon_arrays out_points.new out_contours.new out_shapes.new) result }
{
    clean_shapes::<PointI64, SpikeRemover>(
        alloc,
        points,
        contours,
        shapes,
        out_points,
        out_contours,
        out_shapes,
    )
}

/// Writes the canonical form of the polygons. Returns how many polygons are left, or a code below 0.
#[unsafe(no_mangle)]
pub extern "C" fn i_shape_canonical_shapes_i64(
    alloc: Global,
    points: &[PointI64],
    contours: &[usize],
    shapes: &[usize],
    out_points: &mut [PointI64],
    out_contours: &mut [usize],
    out_shapes: &mut [usize],
) -> isize
    ensures { CleansPolygons (formed_by canonicalizing) w64 point_i64
        (polygon_arrays points.now contours.now shapes.now)
        (polygon_arrays out_points.old out_contours.old out_shapes.old)
        (polygon_arrays out_points.new out_contours.new out_shapes.new) result }
{
    form_shapes::<PointI64, Canonicalizer>(
        alloc,
        points,
        contours,
        shapes,
        out_points,
        out_contours,
        out_shapes,
    )
}

/// Writes the canonical form of the polygons without regard to the direction of each contour. Returns how many polygons
/// are left, or a code below 0.
#[unsafe(no_mangle)]
pub extern "C" fn i_shape_canonical_unoriented_shapes_i64(
    alloc: Global,
    points: &[PointI64],
    contours: &[usize],
    shapes: &[usize],
    out_points: &mut [PointI64],
    out_contours: &mut [usize],
    out_shapes: &mut [usize],
) -> isize
    ensures { CleansPolygons (formed_by canonicalizing_unoriented) w64 point_i64
        (polygon_arrays points.now contours.now shapes.now)
        (polygon_arrays out_points.old out_contours.old out_shapes.old)
        (polygon_arrays out_points.new out_contours.new out_shapes.new) result }
{
    form_shapes::<PointI64, UnorientedCanonicalizer>(
        alloc,
        points,
        contours,
        shapes,
        out_points,
        out_contours,
        out_shapes,
    )
}

/// Returns whether there are at least three points and none of them is a zero turn: 1 or 0, or a code below 0.
#[unsafe(no_mangle)]
pub extern "C" fn i_shape_is_simple_i64(points: &[PointI64]) -> i32
    ensures { TestsContour IsSimple w64 point_i64 points.now result }
{
    test_contour(points, Simple {})
}

/// Returns whether there are at least three points, consecutive duplicates counted once, and the contour never turns
/// back: 1 or 0, or a code below 0.
#[unsafe(no_mangle)]
pub extern "C" fn i_shape_has_no_spikes_i64(points: &[PointI64]) -> i32
    ensures { TestsContour NoSpikes w64 point_i64 points.now result }
{
    test_contour(points, Spikeless {})
}

/// Returns whether there are at most two points, consecutive duplicates counted once, or the contour never turns back
/// and doesn't turn both left and right: 1 or 0, or a code below 0.
#[unsafe(no_mangle)]
pub extern "C" fn i_shape_is_convex_i64(points: &[PointI64]) -> i32
    ensures { TestsContour Convex w64 point_i64 points.now result }
{
    test_contour(points, Bulging {})
}

/// Returns whether the point (x, y) is inside by the even-odd rule: 1 or 0, or a code below 0.
#[unsafe(no_mangle)]
pub extern "C" fn i_shape_contains_i64(points: &[PointI64], x: i64, y: i64) -> i32
    ensures { TestsPoint w64 point_i64 points.now (record { x = x; y = y }) result }
{
    contains(points, PointI64 { x, y })
}

/// Returns whether the fill rule fills the point (x, y), given the contour's winding number about it: 1 or 0, or a code
/// below 0.
#[unsafe(no_mangle)]
pub extern "C" fn i_shape_contains_by_i64(points: &[PointI64], x: i64, y: i64, rule: i32) -> i32
    ensures { FillsPoint w64 point_i64 points.now (record { x = x; y = y }) rule result }
{
    contains_by(points, PointI64 { x, y }, rule)
}

/// Writes for each point of `about` whether the fill rule fills it, given the contours' total winding number about it:
/// 1 or 0, one byte each. Returns 0, or a code below 0.
#[unsafe(no_mangle)]
pub extern "C" fn i_shape_contains_points_i64(
    alloc: Global,
    points: &[PointI64],
    offsets: &[usize],
    about: &[PointI64],
    rule: i32,
    out: &mut [u8],
) -> i32
    ensures { TellsEach (IsFilledByte point_i64) w64 point_i64
        (query points.now offsets.now about.now rule) out.old out.new result }
{
    tell_points::<PointI64, Filled>(alloc, points, offsets, about, rule, out)
}

/// Writes where each point of `about` lies: 0 on an edge; otherwise 1 if the fill rule fills it, and -1 if it doesn't.
/// Returns 0, or a code below 0.
#[unsafe(no_mangle)]
pub extern "C" fn i_shape_locate_i64(
    alloc: Global,
    points: &[PointI64],
    offsets: &[usize],
    about: &[PointI64],
    rule: i32,
    out: &mut [i8],
) -> i32
    ensures { TellsEach (IsLocated point_i64) w64 point_i64
        (query points.now offsets.now about.now rule) out.old out.new result }
{
    tell_points::<PointI64, Located>(alloc, points, offsets, about, rule, out)
}

/// Writes for each point of `about` the index of the first polygon that the fill rule fills there, given the total
/// winding number about it of the polygon's contours, or the greatest `usize` where there is none. Returns 0, or a code
/// below 0.
#[unsafe(no_mangle)]
pub extern "C" fn i_shape_locate_in_shapes_i64(
    alloc: Global,
    points: &[PointI64],
    contours: &[usize],
    shapes: &[usize],
    about: &[PointI64],
    rule: i32,
    out: &mut [usize],
) -> i32
    ensures { FindsHolders w64 point_i64
        (holders_query (polygon_arrays points.now contours.now shapes.now) about.now rule)
        out.old out.new result }
{
    find_holders(alloc, points, contours, shapes, about, rule, out)
}

/// Returns the contour's winding number about the point (x, y), or a code below every winding number. Counterclockwise
/// is positive.
#[unsafe(no_mangle)]
pub extern "C" fn i_shape_winding_i64(points: &[PointI64], x: i64, y: i64) -> isize
    ensures { WindsAbout w64 point_i64 points.now (record { x = x; y = y }) result }
{
    winding(points, PointI64 { x, y })
}

/// Writes the contours' total winding number about each point of `about`. Returns 0, or a code below 0.
#[unsafe(no_mangle)]
pub extern "C" fn i_shape_windings_i64(
    alloc: Global,
    points: &[PointI64],
    offsets: &[usize],
    about: &[PointI64],
    out: &mut [isize],
) -> i32
    ensures { WindsAboutEach w64 point_i64 (contour_arrays points.now offsets.now)
        about.now out.old out.new result }
{
    windings(alloc, points, offsets, about, out)
}

/// Returns 1 if each point is safe, otherwise 0.
#[unsafe(no_mangle)]
pub extern "C" fn i_shape_is_safe_i64(points: &[PointI64]) -> i32
    ensures { IsTold (AreSafe w64 point_i64 points.now) result }
{
    is_safe(points)
}

/// Returns the index of the first point that isn't safe, or the number of points if each is safe.
#[unsafe(no_mangle)]
pub extern "C" fn i_shape_first_unsafe_i64(points: &[PointI64]) -> usize
    ensures { IsFirstUnsafe w64 point_i64 points.now result }
{
    first_unsafe(points)
}

/// Writes twice the signed area to `area`, positive if the contour runs counterclockwise. Returns whether there is a
/// point. Without points `area` stays unchanged. The points needn't be safe; a sum that doesn't fit wraps.
#[unsafe(no_mangle)]
pub extern "C" fn i_shape_area_two_i64(points: &[PointI64], area: &mut Halves) -> bool
    ensures some { IsTrue result ↔ (0 < length points.now) }
    ensures area { IsTrue result → AreDoubleAreaHalves (map point_i64 points.now) area.new }
    ensures none { (IsTrue result → ⊥) → area.new ≡ area.old }
{
    let Some(twice) = area_two(points) else {
        return false;
    };
    *area = Halves::of(twice);
    true
}

/// Returns whether the contour is the boundary of a simple polygon, that is, has at least three points, not all equal,
/// and no two edges in contact: 1 or 0, or a code below 0.
#[unsafe(no_mangle)]
pub extern "C" fn i_shape_is_simple_polygon_i64(alloc: Global, points: &[PointI64]) -> i32
    ensures { TestsContour IsSimplePolygon w64 point_i64 points.now result }
{
    test_contour(points, SimplePolygon { alloc })
}

/// Writes the indices of the points from which the two edges of the first contact lead. Returns 1, or 0 if there is no
/// contact, or a code below 0.
#[unsafe(no_mangle)]
pub extern "C" fn i_shape_first_contact_i64(
    alloc: Global,
    points: &[PointI64],
    out: &mut [usize],
) -> i32
    ensures { FindsContact w64 point_i64 points.now out.old out.new result }
{
    find_contact(alloc, points, out)
}

/// Writes the same for the contours together, within one or between two. Returns 1, or 0 if there is no contact, or a
/// code below 0.
#[unsafe(no_mangle)]
pub extern "C" fn i_shape_first_contact_of_rings_i64(
    alloc: Global,
    points: &[PointI64],
    offsets: &[usize],
    out: &mut [usize],
) -> i32
    ensures { FindsRingContact w64 point_i64 points.now offsets.now out.old out.new result }
{
    find_contact_of_rings(alloc, points, offsets, out)
}

/// Writes the contacts of the contour, as many as `out` has room for, by the first edge and then by the second. Returns
/// how many there are, or a code below 0.
#[unsafe(no_mangle)]
pub extern "C" fn i_shape_contacts_i64(
    alloc: Global,
    points: &[PointI64],
    out: &mut [Contact],
) -> isize
    ensures { FindsContacts w64 point_i64 points.now out.old out.new result }
{
    find_contacts(alloc, points, out)
}

/// Writes the same for the contours together, within one or between two. Returns how many there are, or a code below 0.
#[unsafe(no_mangle)]
pub extern "C" fn i_shape_contacts_of_rings_i64(
    alloc: Global,
    points: &[PointI64],
    offsets: &[usize],
    out: &mut [Contact],
) -> isize
    ensures { FindsRingContacts w64 point_i64 points.now offsets.now out.old out.new result }
{
    find_contacts_of_rings(alloc, points, offsets, out)
}

/// Writes how each pair of edges meets, one byte each: 0 if they share no point, 1 if they cross, 2 if they touch, 3 if
/// they overlap. The pairs are given as four points each, the ends of the first edge and those of the second. Returns 0,
/// or a code below 0.
#[unsafe(no_mangle)]
pub extern "C" fn i_shape_kinds_of_contacts_i64(edges: &[PointI64], out: &mut [u8]) -> i32
    ensures { FindsKinds w64 point_i64 edges.now out.old out.new result }
{
    find_kinds(edges, out)
}

/// Writes the first fault of each polygon. Returns 0, or a code below 0.
#[unsafe(no_mangle)]
pub extern "C" fn i_shape_validity_shapes_i64(
    alloc: Global,
    points: &[PointI64],
    contours: &[usize],
    shapes: &[usize],
    out: &mut [Fault],
) -> i32
    ensures { FindsFaults IsFaultOf w64 point_i64
        (polygon_arrays points.now contours.now shapes.now) out.old out.new result }
{
    find_faults(alloc, points, contours, shapes, out)
}

/// Writes the first fault of each polygon if its contours may touch at single points. Returns 0, or a code below 0.
#[unsafe(no_mangle)]
pub extern "C" fn i_shape_touching_validity_shapes_i64(
    alloc: Global,
    points: &[PointI64],
    contours: &[usize],
    shapes: &[usize],
    out: &mut [Fault],
) -> i32
    ensures { FindsFaults IsTouchingFaultOf w64 point_i64
        (polygon_arrays points.now contours.now shapes.now) out.old out.new result }
{
    find_touching_faults(alloc, points, contours, shapes, out)
}

/// Writes the canonical form of each polygon alone: that of each contour, empty where it collapses, and behind the first
/// of a polygon those of the others, sorted. Returns how many points are written, or a code below 0.
#[unsafe(no_mangle)]
pub extern "C" fn i_shape_canonical_polygons_i64(
    alloc: Global,
    points: &[PointI64],
    contours: &[usize],
    shapes: &[usize],
    out_points: &mut [PointI64],
    out_contours: &mut [usize],
) -> isize
    ensures { FormsEach canonicalizing w64 point_i64
        (polygon_arrays points.now contours.now shapes.now)
        (contour_arrays out_points.old out_contours.old)
        (contour_arrays out_points.new out_contours.new) result }
{
    form_polygons::<PointI64, Canonicalizer>(
        alloc,
        points,
        contours,
        shapes,
        out_points,
        out_contours,
    )
}

/// Writes the canonical form of each polygon alone without regard to the direction of each contour. Returns how many
/// points are written, or a code below 0.
#[unsafe(no_mangle)]
pub extern "C" fn i_shape_canonical_unoriented_polygons_i64(
    alloc: Global,
    points: &[PointI64],
    contours: &[usize],
    shapes: &[usize],
    out_points: &mut [PointI64],
    out_contours: &mut [usize],
) -> isize
    ensures { FormsEach canonicalizing_unoriented w64 point_i64
        (polygon_arrays points.now contours.now shapes.now)
        (contour_arrays out_points.old out_contours.old)
        (contour_arrays out_points.new out_contours.new) result }
{
    form_polygons::<PointI64, UnorientedCanonicalizer>(
        alloc,
        points,
        contours,
        shapes,
        out_points,
        out_contours,
    )
}

/// Writes the canonical form of each feature: those of its polygons, sorted. A polygon that collapses has no contour.
/// Returns how many polygons there are, or a code below 0.
#[unsafe(no_mangle)]
pub extern "C" fn i_shape_canonical_features_i64(
    alloc: Global,
    points: &[PointI64],
    contours: &[usize],
    shapes: &[usize],
    features: &[usize],
    out_points: &mut [PointI64],
    out_contours: &mut [usize],
    out_shapes: &mut [usize],
) -> isize
    ensures { FormsFeatures canonicalizing w64 point_i64
        (feature_arrays points.now contours.now shapes.now features.now)
        (polygon_arrays out_points.old out_contours.old out_shapes.old)
        (polygon_arrays out_points.new out_contours.new out_shapes.new) result }
{
    form_features::<PointI64, Canonicalizer>(
        alloc,
        points,
        contours,
        shapes,
        features,
        out_points,
        out_contours,
        out_shapes,
    )
}

/// Writes the canonical form of each feature without regard to the direction of each contour. Returns how many polygons
/// there are, or a code below 0.
#[unsafe(no_mangle)]
pub extern "C" fn i_shape_canonical_unoriented_features_i64(
    alloc: Global,
    points: &[PointI64],
    contours: &[usize],
    shapes: &[usize],
    features: &[usize],
    out_points: &mut [PointI64],
    out_contours: &mut [usize],
    out_shapes: &mut [usize],
) -> isize
    ensures { FormsFeatures canonicalizing_unoriented w64 point_i64
        (feature_arrays points.now contours.now shapes.now features.now)
        (polygon_arrays out_points.old out_contours.old out_shapes.old)
        (polygon_arrays out_points.new out_contours.new out_shapes.new) result }
{
    form_features::<PointI64, UnorientedCanonicalizer>(
        alloc,
        points,
        contours,
        shapes,
        features,
        out_points,
        out_contours,
        out_shapes,
    )
}
