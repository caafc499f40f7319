//! The cleaners by their one trait: whether a contour is clean, what is left of it as a copy, and what is written of
//! it.

ghost use Rattle.std.specs.Prelude.{◌≤◌, map, length, IfOk};
ghost use Rattle.std.specs.List.{All};
ghost use Rattle.i_shape.specs.IntPoint.{IsSafe};
ghost use Rattle.i_shape.specs.Reading.{read};
ghost use mathlib.Core.Path.{refl};

use callers::into::are_safe;
use i_shape::ShapeError;
use i_shape::int::cleaner::{
    Canonicalizer, ContourCleaner, ContourDeSpiker, ContourSimplifier, SpikeRemover,
    UnorientedCanonicalizer,
};
use i_shape::int::{ContourPoint, IntPoint};
use i_shape_test_data::given::pairs;
use i_shape_test_data::row::Row;
use i_shape_test_data::texts;
use std::alloc::Global;
use std::test::Fail;

/// A point with a number of its own.
#[derive(Clone, Copy)]
struct Vertex {
    id: usize,
    x: i32,
    y: i32,
}

impl ContourPoint for Vertex {
    type Coordinate = i32;

    ghost point = { λ p. record { x = p.x; y = p.y } };

    ghost points = { λ list. map (λ p. record { x = p.x; y = p.y }) list };

    ghost each = { λ list. refl };

    fn to_point(self) -> IntPoint<i32> {
        IntPoint::new(self.x, self.y)
    }
}

/// What a cleaner writes of a contour to the front of `out`.
fn written<P: ContourPoint, C: ContourCleaner>(
    cleaner: &mut C,
    contour: &[P],
    out: &mut [P],
) -> Result<usize, ShapeError>
    requires points_safe { All (IsSafe P.Coordinate.width) (read P.Coordinate.value P.points contour.now) }
    requires room { length contour.now ≤ length out.old }
    ensures fewer { IfOk result (λ n. n ≤ length out.new) }
{
    cleaner.try_clean_into(contour, out)
}

/// What the cleaner writes of numbered points has these coordinates.
fn writes<C: ContourCleaner>(
    row: &Row<'_>,
    cleaner: &mut C,
    given: &[[i32; 2]],
    left: &[[i32; 2]],
) -> Result<(), Fail> {
    let mut vertices = Vec::new(row.alloc);
    for [x, y] in given {
        let id = vertices.len();
        vertices.push(Vertex { id, x: *x, y: *y })?;
    }
    row.holds(are_safe(vertices.as_slice()), "a point isn't in safe range")?;
    let mut out = Vec::from_slice(row.alloc, vertices.as_slice())?;
    let count = written(cleaner, vertices.as_slice(), out.as_mut_slice())?;
    let mut written = Vec::new(row.alloc);
    for vertex in &out.as_slice()[..count] {
        written.push([vertex.x, vertex.y])?;
    }
    row.holds(written.as_slice() == left, "try_clean_into")
}

/// The cleaner, whatever it has cleaned before, returns whether the contour is clean, and leaves these points, as a
/// copy and in a slice.
fn cleans<C: ContourCleaner>(
    row: &Row<'_>,
    cleaner: &mut C,
    given: &str,
    wanted: &str,
) -> Result<(), Fail> {
    let (is_clean, left) = match wanted.strip_prefix('=') {
        Some("") => (true, given),
        Some(left) => (true, left),
        None => (false, wanted),
    };
    let contour = texts::contour(row.alloc, given)?;
    row.equal(C::is_clean(contour.as_slice()), is_clean, "is_clean")?;
    texts::leaves(row, cleaner.cleaned(contour.as_slice())?, left, "cleaned")?;
    let given = pairs(row.alloc, contour.as_slice())?;
    let left = texts::points(row.alloc, left)?;
    writes(row, cleaner, given.as_slice(), left.as_slice())
}

/// One cleaner cleans each of these rows as it has it in this column.
fn cleans_rows<C: ContourCleaner>(alloc: Global, rows: &str, place: usize) -> Result<(), Fail> {
    let mut cleaner = C::new(alloc);
    for line in rows.lines() {
        let columns: Vec<&str> = line.split('|').collect(alloc)?;
        let (Some(given), Some(left)) = (columns.first(), columns.get(place)) else {
            return Err(Fail::new("a row has six columns"));
        };
        cleans(&Row::new(alloc, line), &mut cleaner, *given, *left)?;
    }
    Ok(())
}

/// A contour, and what is left of it by the simplifier, the despiker, the remover of spikes, the canonicalizer and the
/// one for either direction: after an equals sign if it is clean, and then itself if nothing follows.
const ROWS: &str = "\
4 4 0 4 0 0 4 0|=|=|=|=0 0 4 0 4 4 0 4|=0 0 0 4 4 4 4 0
0 0 2 0 4 0 4 4 4 4|0 0 4 0 4 4|0 0 2 0 4 0 4 4|=|0 0 4 0 4 4|0 0 4 0 4 4
4 4 4 0 0 0 -3 0 0 0 0 4|4 4 4 0 0 0 0 4|4 4 4 0 0 0 0 4|4 4 4 0 0 0 0 4|0 0 0 4 4 4 4 0|0 0 0 4 4 4 4 0
0 0 0 8 0 1|||||
0 0 4 4|||||";

/// The last contour is long: along one height to the right, and back along another, by steps of one.
#[test]
fn each_cleaner_cleans_each_row(rt: HostRuntime) -> Result<(), Fail> {
    let alloc = rt.alloc();
    let mut there = String::new(alloc);
    let mut back = String::new(alloc);
    for x in 0..5000_i32 {
        there.push_str(format!(in alloc; "{x} 0 ")?.as_str())?;
        back.push_str(format!(in alloc; "{} 8 ", 4999_i32.wrapping_sub(x))?.as_str())?;
    }
    let kept = "|0 0 4999 0 4999 8 0 8|=|=|0 0 4999 0 4999 8 0 8|0 0 0 8 4999 8 4999 0";
    let rows = format!(in alloc; "{ROWS}\n{there}{back}{kept}")?;
    cleans_rows::<ContourSimplifier>(alloc, rows.as_str(), 1)?;
    cleans_rows::<ContourDeSpiker>(alloc, rows.as_str(), 2)?;
    cleans_rows::<SpikeRemover>(alloc, rows.as_str(), 3)?;
    cleans_rows::<Canonicalizer>(alloc, rows.as_str(), 4)?;
    cleans_rows::<UnorientedCanonicalizer>(alloc, rows.as_str(), 5)
}
