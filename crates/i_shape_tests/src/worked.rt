//! Worked contours at 32 bits, and what each call returns for them.

ghost use Rattle.std.specs.Int.{w32};
ghost use Rattle.i_shape.specs.IntPoint.{contour_of, IsSafeContour};

use i_shape::int::IntPoint;
use i_shape::int::area::{Area, IteratorArea, UnsafeArea};
use i_shape::int::despike::{DeSpike, DeSpikeContour};
use i_shape::int::path::ContourExtension;
use i_shape::int::simple::{ContourSimplifier, SimpleContour, Simplify};
use i_shape_core::area::area_of;
use i_shape_test_data::given::{contour, pairs, reversed, rotated};
use i_shape_test_data::plain::{Pair, has_back_vertex, is_rotation};
use i_shape_test_data::row::Row;
use i_shape_test_data::texts;
use std::alloc::Global;
use std::test::Fail;

/// The columns: a name; the points; twice their area, which is also that of each contour that is left; the contour
/// without zero turns, and the visits of the simplifier; the contour that the despiker leaves, and its visits; whether
/// there are spikes; the canonical form. If the contour collapses, the columns of contours that are left are empty.
const ROWS: &str = "\
a square|0 0 10 0 10 10 0 10|200|0 0 10 0 10 10 0 10|4|0 0 10 0 10 10 0 10|4|no spikes|0 0 10 0 10 10 0 10
the square backwards|0 10 10 10 10 0 0 0|-200|0 10 10 10 10 0 0 0|4|0 10 10 10 10 0 0 0|4|no spikes|0 0 0 10 10 10 10 0
doubled corners|0 0 0 1024 0 1024 512 1024 1024 1024 1024 1024 1024 0|-2097152|0 0 0 1024 1024 1024 1024 0|9|0 0 0 1024 512 1024 1024 1024 1024 0|9|no spikes|0 0 0 1024 1024 1024 1024 0
no point||0||0||0|spikes|
one point|3 4|0||0||0|spikes|
two points|3 4 5 6|0||0||0|spikes|
three points on a line|0 0 0 512 0 1|0||1||1|spikes|
one point five times|7 7 7 7 7 7 7 7 7 7|0||3||3|spikes|
one point three times|0 0 0 0 0 0|0||1||1|spikes|
a spike, from its tip|6 0 0 0 2 0 1 0 1 5|-25|6 0 1 0 1 5|5|6 0 2 0 1 0 1 5|6|spikes|1 0 1 5 6 0
the same spike from another start|2 0 1 0 1 5 6 0 0 0|-25|1 0 1 5 6 0|8|1 0 1 5 6 0|5|spikes|1 0 1 5 6 0
the first point again at the end|0 0 4 0 4 4 0 4 0 0|32|4 0 4 4 0 4 0 0|6|4 0 4 4 0 4 0 0|5|no spikes|0 0 4 0 4 4 0 4
the same backwards|0 0 0 4 4 4 4 0 0 0|-32|0 4 4 4 4 0 0 0|6|0 4 4 4 4 0 0 0|5|no spikes|0 0 0 4 4 4 4 0
repeated points and a straight one|0 0 1 0 1 0 2 0 2 2 0 2 0 0|8|2 0 2 2 0 2 0 0|8|1 0 2 0 2 2 0 2 0 0|8|no spikes|0 0 2 0 2 2 0 2
a spike on a straight way|0 0 2 0 4 0 2 0 2 2 0 2|8|0 0 2 0 2 2 0 2|6|0 0 2 0 2 2 0 2|8|spikes|0 0 2 0 2 2 0 2
a straight point|0 0 2 0 4 0 4 4 0 4|32|0 0 4 0 4 4 0 4|5|0 0 2 0 4 0 4 4 0 4|5|no spikes|0 0 4 0 4 4 0 4
a spike there and back|0 0 8 0 4 0 6 0 6 4 0 4|48|0 0 6 0 6 4 0 4|6|0 0 4 0 6 0 6 4 0 4|7|spikes|0 0 6 0 6 4 0 4
a triangle of half a square|0 0 1 0 0 1|1|0 0 1 0 0 1|3|0 0 1 0 0 1|3|no spikes|0 0 1 0 0 1
the triangle backwards|0 1 1 0 0 0|-1|0 1 1 0 0 0|3|0 1 1 0 0 0|3|no spikes|0 0 0 1 1 0
the unit square from zero|0 0 1 0 1 1 0 1|2|0 0 1 0 1 1 0 1|4|0 0 1 0 1 1 0 1|4|no spikes|0 0 1 0 1 1 0 1
a unit square, clockwise|0 0 0 1 1 1 1 0|-2|0 0 0 1 1 1 1 0|4|0 0 0 1 1 1 1 0|4|no spikes|0 0 0 1 1 1 1 0
the unit square|1 0 1 1 0 1 0 0|2|1 0 1 1 0 1 0 0|4|1 0 1 1 0 1 0 0|4|no spikes|0 0 1 0 1 1 0 1
there and back over a repeated point|0 0 2 0 2 0 0 0|0||2||2|spikes|
a spike whose removal makes a zero turn|0 0 2 0 2 5 2 0 4 0 4 4 0 4|32|0 0 4 0 4 4 0 4|8|0 0 2 0 4 0 4 4 0 4|9|spikes|0 0 4 0 4 4 0 4
a spike over a straight point|0 0 0 2 1 2 3 2 4 2 2 2 2 0|-8|0 0 0 2 2 2 2 0|10|0 0 0 2 1 2 2 2 2 0|9|spikes|0 0 0 2 2 2 2 0
a spike of two points|0 0 0 2 1 2 4 2 3 2 2 2 2 0|-8|0 0 0 2 2 2 2 0|10|0 0 0 2 1 2 2 2 2 0|9|spikes|0 0 0 2 2 2 2 0
a spike of six points|0 0 10 0 2 0 8 0 4 0 6 0 6 6 0 6|72|0 0 6 0 6 6 0 6|8|0 0 2 0 4 0 6 0 6 6 0 6|10|spikes|0 0 6 0 6 6 0 6
a ring that passes a point twice|0 0 4 0 4 4 0 0 2 6 0 6|28|0 0 4 0 4 4 0 0 2 6 0 6|6|0 0 4 0 4 4 0 0 2 6 0 6|6|no spikes|0 0 2 6 0 6 0 0 4 0 4 4
a square about zero|-1 -1 1 -1 1 1 -1 1|8|-1 -1 1 -1 1 1 -1 1|4|-1 -1 1 -1 1 1 -1 1|4|no spikes|-1 -1 1 -1 1 1 -1 1
a spike across the start|0 -1 0 1 1 1 1 0 0 0|-2|0 1 1 1 1 0 0 0|6|0 1 1 1 1 0 0 0|5|spikes|0 0 0 1 1 1 1 0
a square with a point on each edge|0 -10 10 -10 10 0 10 10 0 10 -10 10 -10 0 -10 -10|800|10 -10 10 10 -10 10 -10 -10|12|0 -10 10 -10 10 0 10 10 0 10 -10 10 -10 0 -10 -10|8|no spikes|-10 -10 10 -10 10 10 -10 10
a clockwise square|-10 -10 -10 10 10 10 10 -10|-800|-10 -10 -10 10 10 10 10 -10|4|-10 -10 -10 10 10 10 10 -10|4|no spikes|-10 -10 -10 10 10 10 10 -10
that square backwards|10 -10 10 10 -10 10 -10 -10|800|10 -10 10 10 -10 10 -10 -10|4|10 -10 10 10 -10 10 -10 -10|4|no spikes|-10 -10 10 -10 10 10 -10 10
two ways there and back|-10 -10 -10 10 10 10 -10 10 -10 -10 10 -10|0||5||7|spikes|";

/// The double area of the contour is `two`, and its area is half of that, rounded towards zero, as a slice and as an
/// iterator.
fn has_area(row: &Row<'_>, points: &[IntPoint<i32>], two: i64) -> Result<(), Fail> {
    row.holds(!points.is_empty(), "no point")?;
    let by_walks = [
        IteratorArea::area_two(points.iter().copied()),
        points.iter().copied().unsafe_area(),
    ];
    let by_slices = [points.area_two(), area_of(points)];
    let areas = [points.area(), IteratorArea::area(points.iter().copied())];
    let told = (by_walks, by_slices, areas, points.is_clockwise_ordered());
    let half = two / 2;
    let wanted = ([two, two], [two, two], [half, half], two <= 0);
    row.equal(told, wanted, "double areas, areas, clockwise")
}

/// The contour is simple exactly if it equals `left`. Each call leaves `left`, and the simplifier does so in this
/// number of visits, whatever it has cleaned before.
fn is_simplified(
    row: &Row<'_>,
    simplifier: &mut ContourSimplifier,
    [given, left]: [&str; 2],
    visits: u128,
) -> Result<(), Fail> {
    let contour = texts::contour(row.alloc, given)?;
    let is_clean = !left.is_empty() && given == left;
    row.equal(contour.as_slice().is_simple(), is_clean, "is_simple")?;
    let kept = contour.as_slice().simplified(row.alloc)?;
    texts::leaves(row, kept, left, "simplified")?;
    let (kept, walked) = simplifier.simplify_counted(contour.as_slice())?;
    row.equal(walked, visits, "visits")?;
    texts::leaves(row, kept, left, "simplify_counted")?;
    let kept = simplifier.simplify_contour(contour.as_slice())?;
    texts::leaves(row, kept, left, "simplify_contour")?;
    let kept = simplifier.simplify_contour(contour.as_slice())?;
    texts::leaves(row, kept, left, "simplify_contour again")
}

/// In place the contour becomes `left` too, and a second call changes nothing.
fn is_simplified_in_place(row: &Row<'_>, [given, left]: [&str; 2]) -> Result<(), Fail> {
    let mut cleaned = texts::contour(row.alloc, given)?;
    let is_clean = !left.is_empty() && given == left;
    let told = [cleaned.simplify_contour()?, cleaned.simplify_contour()?];
    row.equal(told, [!is_clean, left.is_empty()], "what is told in place")?;
    texts::leaves(row, Some(cleaned), left, "what is left in place")
}

/// The contour has spikes or none. Each call of the despiker leaves `left`, in this number of visits. In place a
/// contour without spikes is unchanged, another becomes `left`, and a second call changes nothing.
fn is_despiked(
    row: &Row<'_>,
    [given, left]: [&str; 2],
    visits: u128,
    has_spikes: bool,
) -> Result<(), Fail> {
    let mut cleaned = texts::contour(row.alloc, given)?;
    row.equal(cleaned.has_no_spikes(), !has_spikes, "has_no_spikes")?;
    let (counted, walked) = cleaned.despiked_counted(row.alloc)?;
    row.equal(walked, visits, "visits of the despiker")?;
    texts::leaves(row, counted, left, "despiked_counted")?;
    let kept = cleaned.despiked_contour(row.alloc)?;
    texts::leaves(row, kept, left, "despiked_contour")?;
    let told = [cleaned.remove_spikes()?, cleaned.remove_spikes()?];
    let left = if has_spikes { left } else { given };
    row.equal(told, [has_spikes, left.is_empty()], "spikes told in place")?;
    texts::leaves(row, Some(cleaned), left, "despiked in place")
}

/// Both calls give this canonical form.
fn has_form(
    row: &Row<'_>,
    simplifier: &mut ContourSimplifier,
    [given, form]: [&str; 2],
) -> Result<(), Fail> {
    let given = texts::contour(row.alloc, given)?;
    let kept = given.as_slice().canonical(row.alloc)?;
    texts::leaves(row, kept, form, "canonical")?;
    let kept = simplifier.canonical(given.as_slice())?;
    texts::leaves(row, kept, form, "the simplifier's canonical")
}

#[test]
fn each_call_returns_what_its_row_says(rt: HostRuntime) -> Result<(), Fail> {
    let alloc = rt.alloc();
    let mut simplifier = ContourSimplifier::new(alloc);
    for line in ROWS.lines() {
        let columns: Vec<&str> = line.split('|').collect(alloc)?;
        let [
            name,
            given,
            two,
            simple,
            visits,
            despiked,
            walked,
            spikes,
            form,
        ] = columns.as_slice()
        else {
            return Err(Fail::new("a row has nine columns"));
        };
        let row = Row::new(alloc, *name);
        let two = two.parse::<i64>()?;
        for list in [*given, *simple, *despiked] {
            let points = texts::contour(row.alloc, list)?;
            if !points.is_empty() {
                has_area(&row, points.as_slice(), two)?;
            }
        }
        let visits = visits.parse::<u128>()?;
        is_simplified(&row, &mut simplifier, [*given, *simple], visits)?;
        is_simplified_in_place(&row, [*given, *simple])?;
        let walked = walked.parse::<u128>()?;
        is_despiked(&row, [*given, *despiked], walked, *spikes == "spikes")?;
        has_form(&row, &mut simplifier, [*given, *form])?;
    }
    Ok(())
}

#[test]
fn an_octagon_of_large_coordinates(rt: HostRuntime) -> Result<(), Fail> {
    let row = Row::new(rt.alloc(), "an octagon");
    let octagon = texts::contour(row.alloc, OCTAGON)?;
    has_area(&row, octagon.as_slice(), 747667906887680000)
}

const OCTAGON: &str = "\
-314572800 209715200 -314572800 -209715200 -209715200 -314572800 209715200 -314572800
314572800 -209715200 314572800 209715200 209715200 314572800 -209715200 314572800";

/// A thousand points on a line, and one point a thousand times, collapse in 998 to 3,000 visits.
#[test]
fn a_thousand_points_on_a_line_or_at_one_place_collapse(rt: HostRuntime) -> Result<(), Fail> {
    let row = Row::new(rt.alloc(), "a thousand points");
    let place = IntPoint::new(5, 5);
    row.holds(place.is_in_safe_range(), "a safe place")?;
    for is_line in [true, false] {
        let mut points = Vec::new(row.alloc);
        for x in 0..1000_i32 {
            points.push(if is_line { [x, 0] } else { [5, 5] })?;
        }
        let given = contour::<i32>(row.alloc, points.as_slice())?;
        let (kept, visits) = ContourSimplifier::new(row.alloc).simplify_counted(given.as_slice())?;
        let (despiked, walked) = given.despiked_counted(row.alloc)?;
        row.holds(kept.is_none() && despiked.is_none(), "it collapses")?;
        row.holds(998 <= visits && visits <= 3000, "visits")?;
        row.holds(998 <= walked && walked <= 3000, "visits of the despiker")?;
        has_area(&row, given.as_slice(), 0)?;
        row.holds(!given.as_slice().contains_point(place), "contains a point")?;
    }
    Ok(())
}

/// Contours with repeated points, reversals and spikes, among them one whose despiked form depends on where it starts;
/// the ring that is left of each without zero turns, from its least start, which is one point of it alone; and whether
/// the despiker leaves no more, from any start.
const HOSTILE: [(&str, &str, bool); 7] = [
    (
        "0 0 0 1024 0 1024 512 1024 1024 1024 1024 1024 1024 0",
        "0 0 0 1024 1024 1024 1024 0",
        false,
    ),
    ("6 0 0 0 2 0 1 0 1 5", "1 0 1 5 6 0", false),
    ("0 0 4 0 4 4 0 4 0 0", "0 0 4 0 4 4 0 4", false),
    ("0 0 1 0 1 0 2 0 2 2 0 2 0 0", "0 0 2 0 2 2 0 2", false),
    ("0 0 8 0 4 0 6 0 6 4 0 4", "0 0 6 0 6 4 0 4", false),
    ("0 0 10 0 2 0 8 0 4 0 6 0 6 6 0 6", "0 0 6 0 6 6 0 6", false),
    ("0 0 4 0 4 0 2 0 2 2 0 2", "0 0 2 0 2 2 0 2", true),
];

/// Whether the points are the ring from some start.
fn is_turned(alloc: Global, points: &[IntPoint<i32>], ring: &[Pair]) -> Result<bool, Fail> {
    Ok(is_rotation(pairs(alloc, points)?.as_slice(), ring))
}

/// What is left of the contour without zero turns is the ring.
fn simplifies_to(
    row: &Row<'_>,
    points: &[IntPoint<i32>],
    ring: &[Pair],
    what: &str,
) -> Result<(), Fail>
    requires { IsSafeContour w32 (contour_of (λ z. z) points.now) }
{
    let kept = points.simplified(row.alloc)?.ok_or("it collapsed")?;
    row.holds(is_turned(row.alloc, kept.as_slice(), ring)?, what)
}

/// The canonical form of the contour is the ring.
fn has_ring_as_form(row: &Row<'_>, points: &[IntPoint<i32>], ring: &[Pair]) -> Result<(), Fail>
    requires { IsSafeContour w32 (contour_of (λ z. z) points.now) }
{
    let form = points.canonical(row.alloc)?.ok_or("it collapsed")?;
    let form = pairs(row.alloc, form.as_slice())?;
    row.holds(form.as_slice() == ring, "the form")
}

/// The contour leaves the ring by both cleaners, and has it as its form.
fn leaves_ring(row: &Row<'_>, list: &[Pair], ring: &[Pair]) -> Result<Vec<Pair>, Fail> {
    let given = contour::<i32>(row.alloc, list)?;
    simplifies_to(row, given.as_slice(), ring, "the ring")?;
    has_ring_as_form(row, given.as_slice(), ring)?;
    let despiked = given.despiked_contour(row.alloc)?.ok_or("it collapsed")?;
    simplifies_to(row, despiked.as_slice(), ring, "the despiker's ring")?;
    let survivors = pairs(row.alloc, despiked.as_slice())?;
    row.holds(!has_back_vertex(survivors.as_slice()), "a spike is left")?;
    Ok(survivors)
}

/// In place the contour loses spikes, and then has none, and the ring is left.
fn loses_spikes(row: &Row<'_>, list: &[Pair], ring: &[Pair]) -> Result<(), Fail> {
    let mut given = contour::<i32>(row.alloc, list)?;
    row.holds(!given.has_no_spikes(), "has_no_spikes")?;
    let told = [given.remove_spikes()?, given.remove_spikes()?];
    row.equal(told, [true, false], "what is told of spikes")?;
    row.holds(is_turned(row.alloc, given.as_slice(), ring)?, "in place")
}

#[test]
fn every_start_and_direction_leaves_the_same_ring(rt: HostRuntime) -> Result<(), Fail> {
    let alloc = rt.alloc();
    for (name, ring, is_spiked) in &HOSTILE {
        let row = Row::new(alloc, *name);
        let list = texts::points(alloc, *name)?;
        let ring = texts::points(alloc, *ring)?;
        let back = rotated(alloc, ring.as_slice(), 1.min(ring.len()))?;
        let back = reversed(alloc, back.as_slice())?;
        for start in 0..list.len() {
            let list = rotated(alloc, list.as_slice(), start)?;
            let turned = reversed(alloc, list.as_slice())?;
            for (list, ring) in [(list, &ring), (turned, &back)] {
                let (list, ring) = (list.as_slice(), ring.as_slice());
                let despiked = leaves_ring(&row, list, ring)?;
                if *is_spiked {
                    row.holds(is_rotation(despiked.as_slice(), ring), "despiked")?;
                    loses_spikes(&row, list, ring)?;
                }
            }
        }
    }
    Ok(())
}
