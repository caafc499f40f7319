//! Contours as text.

ghost use Rattle.std.specs.Prelude.{◌≡◌, ◌+◌, ◌*◌, ◌<◌, ◌≤◌, ◌++◌, length, drop, OnOk, IsAscii, string_bytes};
ghost use Rattle.i_shape.specs.Written.{slot};
ghost use Rattle.i_shape_tool.specs.Points.{contour_of, point_of};
ghost use Rattle.i_shape_tool.specs.Text.{shown, spaced, spaced_points};
ghost use Rattle.i_shape_tool.specs.Run.{ended, shown_line, shown_or_none, shown_area};

use crate::decimal::{POINT_ROOM, write_number};
use i_shape::int::IntPoint;
use i_shape::int::area::Area;
use std::alloc::AllocError;

/// How many points are written before they are appended at once. Bytes that were just written one by one are slow to
/// copy.
const POINTS: usize = 16;

/// Appends the coordinates of the points in order, separated by single spaces. The space before the first one is
/// skipped.
///
/// # Errors
///
/// `AllocError`, if an allocation fails.
#[tactic(auto, using(crate::proofs::Showing::Contours::without_first_space))]
pub fn show_contour(output: &mut String, contour: &[IntPoint<i32>]) -> Result<(), AllocError>
    ensures { OnOk result (string_bytes output.new ≡ string_bytes output.old
        ++ shown (contour_of contour.now)) }
{
    let mut text = [0; POINTS * POINT_ROOM];
    let mut left = contour;
    let mut skipped = 1;
    while !left.is_empty() {
        let (points, after) = left.split_at(left.len().min(POINTS));
        let start = write_points(points, &mut text) + skipped;
        // SAFETY: the text is ASCII, by the clause `ascii` of `write_points`.
        output.push_str(unsafe { str::from_utf8_unchecked(&text[start..]) })?;
        left = after;
        skipped = 0;
    }
    Ok(())
}

/// Writes the coordinates of the points, a space before each, so that they end where the text does. Returns where they
/// start.
#[tactic(auto, using(crate::proofs::Showing::Contours::starts_within))]
fn write_points(points: &[IntPoint<i32>], text: &mut [u8]) -> usize
    requires { length points.now * 24 ≤ length text.old }
    ensures within { 0 < length points.now → result < length text.new }
    ensures ascii { IsAscii (spaced_points (contour_of points.now)) }
    ensures written { drop result text.new ≡ spaced_points (contour_of points.now) }
{
    let mut start = text.len();
    let mut left = points;
    while let Some((last, others)) = left.split_last() {
        start = write_point(*last, text, start);
        left = others;
    }
    start
}

/// Writes the coordinates of a point, a space before each, so that they end at `end`. Returns where they start.
#[tactic(auto, using(crate::proofs::Showing::Decimals::spaced_ascii))]
fn write_point(point: IntPoint<i32>, text: &mut [u8], end: usize) -> usize
    requires { (24 ≤ end) × (end ≤ length text.old) }
    ensures room { end ≤ result + 24 }
    ensures ascii { IsAscii (spaced (point_of point)) }
    ensures written { drop result text.new ≡ spaced (point_of point) ++ drop end text.old }
{
    let middle = write_number(point.y, text, end);
    write_number(point.x, text, middle)
}

/// Appends a contour on a line of its own.
///
/// # Errors
///
/// `AllocError`, if an allocation fails.
pub fn show_line(output: &mut String, contour: &[IntPoint<i32>]) -> Result<(), AllocError>
    ensures { OnOk result (string_bytes output.new ≡ string_bytes output.old
        ++ shown_line (contour_of contour.now)) }
{
    show_contour(output, contour)?;
    output.push('\n')
}

/// Appends what a cleaner left of a contour, or a word if no point is left, on a line of its own.
///
/// # Errors
///
/// `AllocError`, if an allocation fails.
pub fn show_cleaned(output: &mut String, left: &[IntPoint<i32>]) -> Result<(), AllocError>
    ensures { OnOk result (string_bytes output.new ≡ string_bytes output.old
        ++ ended (shown_or_none (slot (contour_of left.now)))) }
{
    if left.is_empty() {
        return output.push_str("none\n");
    }
    show_line(output, left)
}

/// Appends twice the area of a contour, or a word if it has no points, on a line of its own.
///
/// # Errors
///
/// `AllocError`, if an allocation fails.
pub fn show_area(output: &mut String, contour: &[IntPoint<i32>]) -> Result<(), AllocError>
    ensures { OnOk result (string_bytes output.new ≡ string_bytes output.old
        ++ ended (shown_area (contour_of contour.now))) }
{
    if contour.is_empty() {
        return output.push_str("empty\n");
    }
    writeln!(output, "{}", contour.area_two())
}
