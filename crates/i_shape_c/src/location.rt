//! The points that contours fill by a fill rule, and the points on their edges, at any width.

ghost use Rattle.std.specs.Prelude.{◌≡◌, ◌≤◌, ◌↔◌, ℕ, ℤ, pos, List, length, map, take, drop, IsTrue, IfOk};
ghost use Rattle.std.specs.List.{AllZip};
ghost use Rattle.i_shape.specs.Point.{Point};
ghost use Rattle.i_shape.specs.Filling.{IsFilled};
ghost use Rattle.i_shape_c.specs.Batch.{PartsPoints, AreSafeContours};
ghost use Rattle.i_shape_c.specs.Cleaned.{AreSafe};
ghost use Rattle.i_shape_c.specs.Locations.{query, rule_of, IsFilledByte, IsLocation, IsLocated, AreTold, Settles, TellsEach, FillsPoint};
ghost use Rattle.i_shape_c.specs.Points.{point_by};
ghost use Rattle.i_shape_c.specs.Tests.{IsTold};
ghost use Rattle.i_shape_c.specs.Windings.{contours_winding};

use crate::batch::refusal_about;
use crate::codes::Refusal;
use crate::edges::mark_edges;
use crate::point::CPoint;
use crate::winding::{wind_all, wind_in_batches};
use i_shape::FillRule;
use i_shape_core::safe_range::are_safe;
use i_shape_core::winding::winding_about;
use std::alloc::{AllocError, Global};

/// What a call reports about a point, given a fill rule.
pub trait Telling<P: CPoint>: Copy {
    ghost use Rattle.i_shape_core.specs.declared.measure.fill_rule.FillRule.{FillRule};

    type Answer: Copy;

    /// Relates contours and a point to the result.
    ghost gives: { FillRule → List P → List ℕ → Point → Self.Answer → Type 0 };

    /// Relates the contours' total winding number about a point to the result unless it is on an edge.
    ghost tells: { FillRule → ℤ → Self.Answer → Type 0 };

    /// Returns the result for a point on an edge, or `None` if that is the same as elsewhere.
    fn on_edge() -> Option<Self::Answer>
        ensures { Settles (point_by P.Coordinate.value P.point) tells gives result };

    /// Returns the result for another point, about which the contours have the total winding number `turns`.
    fn tell(rule: FillRule, turns: isize) -> Self::Answer
        ensures { tells rule turns result };
}

/// Whether the rule fills the point: 1 or 0.
#[derive(Clone, Copy)]
pub struct Filled {}

impl<P: CPoint> Telling<P> for Filled {
    type Answer = u8;

    ghost gives = { IsFilledByte (point_by P.Coordinate.value P.point) };

    ghost tells = { λ rule turns byte. IsTold (IsFilled rule turns) (pos byte) };

    fn on_edge() -> Option<u8> {
        None
    }

    fn tell(rule: FillRule, turns: isize) -> u8 {
        if fills(rule, turns) { 1 } else { 0 }
    }
}

/// Where the point lies: 0 on an edge; elsewhere 1 where the rule fills it, and -1 where it doesn't.
#[derive(Clone, Copy)]
pub struct Located {}

impl<P: CPoint> Telling<P> for Located {
    type Answer = i8;

    ghost gives = { IsLocated (point_by P.Coordinate.value P.point) };

    ghost tells = { λ rule turns. IsLocation ⊥ (IsFilled rule turns) };

    fn on_edge() -> Option<i8> {
        Some(0)
    }

    fn tell(rule: FillRule, turns: isize) -> i8 {
        if fills(rule, turns) { 1 } else { -1 }
    }
}

/// Returns the fill rule of a code, or `None` where there is none.
pub fn rule_of(code: i32) -> Option<FillRule>
    ensures { result ≡ rule_of code }
{
    match code {
        0 => Some(FillRule::EvenOdd),
        1 => Some(FillRule::NonZero),
        2 => Some(FillRule::Positive),
        3 => Some(FillRule::Negative),
        _ => None,
    }
}

/// Returns whether the fill rule fills the point, given the contour's winding number about it: 1 or 0, or a code below
/// 0.
pub fn contains_by<P: CPoint>(points: &[P], given: P, code: i32) -> i32
    ensures { FillsPoint P.Coordinate.width (point_by P.Coordinate.value P.point)
        points.now (point_by P.Coordinate.value P.point given) code result }
{
    let Some(rule) = rule_of(code) else {
        return Refusal::BadOffsets.code();
    };
    let point = given.to_point();
    if !point.is_in_safe_range() || !are_safe(points) {
        return Refusal::Unsafe.code();
    }
    if fills(rule, winding_about(points, point)) {
        1
    } else {
        0
    }
}

/// Returns whether the rule fills a point about which contours have this winding number.
pub fn fills(rule: FillRule, turns: isize) -> bool
    ensures { IsTrue result ↔ IsFilled rule turns }
{
    rule.fills(turns as i128)
}

/// Writes the result for each point of `about`, by the fill rule of the code. Returns 0, or a code below 0.
pub fn tell_points<P: CPoint, T: Telling<P>>(
    alloc: Global,
    points: &[P],
    offsets: &[usize],
    about: &[P],
    code: i32,
    out: &mut [T::Answer],
) -> i32
    ensures { TellsEach T.gives P.Coordinate.width (point_by P.Coordinate.value P.point)
        (query points.now offsets.now about.now code) out.old out.new result }
{
    let Some(rule) = rule_of(code) else {
        return Refusal::BadOffsets.code();
    };
    if let Some(refusal) = refusal_about(points, offsets, about, out.len()) {
        return refusal.code();
    }
    tell_each::<P, T>(alloc, points, offsets, about, rule, out);
    0
}

/// Writes the result for each point of `about`.
fn tell_each<P: CPoint, T: Telling<P>>(
    alloc: Global,
    points: &[P],
    offsets: &[usize],
    about: &[P],
    rule: FillRule,
    out: &mut [T::Answer],
)
    requires parted { PartsPoints (length points.now) offsets.now }
    requires points_safe { AreSafeContours P.Coordinate.width
        (point_by P.Coordinate.value P.point) points.now offsets.now }
    requires about_safe { AreSafe P.Coordinate.width (point_by P.Coordinate.value P.point) about.now }
    requires room { length about.now ≤ length out.old }
    ensures { AreTold (T.gives rule points.now offsets.now)
        (point_by P.Coordinate.value P.point) about.now out.old out.new }
{
    tell_off_edges::<P, T>(alloc, points, offsets, about, rule, out);
    if let Some(mark) = T::on_edge() {
        mark_edges(alloc, points, offsets, about, mark, out);
    }
}

/// Writes for each point of `about` the result unless it is on an edge.
fn tell_off_edges<P: CPoint, T: Telling<P>>(
    alloc: Global,
    points: &[P],
    offsets: &[usize],
    about: &[P],
    rule: FillRule,
    out: &mut [T::Answer],
)
    requires parted { PartsPoints (length points.now) offsets.now }
    requires points_safe { AreSafeContours P.Coordinate.width
        (point_by P.Coordinate.value P.point) points.now offsets.now }
    requires about_safe { AreSafe P.Coordinate.width (point_by P.Coordinate.value P.point) about.now }
    requires room { length about.now ≤ length out.old }
    ensures { AreTold (λ p. T.tells rule (contours_winding
        (point_by P.Coordinate.value P.point) points.now offsets.now p))
        (point_by P.Coordinate.value P.point) about.now out.old out.new }
{
    match winding_numbers(alloc, points, offsets, about) {
        Ok(numbers) => tell_by_numbers::<P, T>(&numbers, rule, out),
        Err(_) => tell_one_by_one::<P, T>(points, offsets, about, rule, out),
    }
}

/// Returns the contours' total winding number about each point of `about`.
fn winding_numbers<P: CPoint>(
    alloc: Global,
    points: &[P],
    offsets: &[usize],
    about: &[P],
) -> Result<Vec<isize>, AllocError>
    requires parted { PartsPoints (length points.now) offsets.now }
    requires points_safe { AreSafeContours P.Coordinate.width
        (point_by P.Coordinate.value P.point) points.now offsets.now }
    requires about_safe { AreSafe P.Coordinate.width (point_by P.Coordinate.value P.point) about.now }
    ensures { IfOk result (λ v. v.items ≡ map (λ q. contours_winding
        (point_by P.Coordinate.value P.point) points.now offsets.now
        (point_by P.Coordinate.value P.point q)) about.now) }
{
    let mut numbers = vec![in alloc; 0isize; about.len()]?;
    wind_in_batches(alloc, points, offsets, about, &mut numbers);
    Ok(numbers)
}

/// Writes the result for each of the winding numbers.
fn tell_by_numbers<P: CPoint, T: Telling<P>>(
    numbers: &[isize],
    rule: FillRule,
    out: &mut [T::Answer],
)
    requires room { length numbers.now ≤ length out.old }
    ensures each { AllZip (T.tells rule) numbers.now (take (length numbers.now) out.new) }
    ensures rest { drop (length numbers.now) out.new ≡ drop (length numbers.now) out.old }
{
    for place in 0..numbers.len() {
        out[place] = T::tell(rule, numbers[place]);
    }
}

/// Writes for each point of `about` the result unless it is on an edge, one by one.
fn tell_one_by_one<P: CPoint, T: Telling<P>>(
    points: &[P],
    offsets: &[usize],
    about: &[P],
    rule: FillRule,
    out: &mut [T::Answer],
)
    requires parted { PartsPoints (length points.now) offsets.now }
    requires points_safe { AreSafeContours P.Coordinate.width
        (point_by P.Coordinate.value P.point) points.now offsets.now }
    requires about_safe { AreSafe P.Coordinate.width (point_by P.Coordinate.value P.point) about.now }
    requires room { length about.now ≤ length out.old }
    ensures { AreTold (λ p. T.tells rule (contours_winding
        (point_by P.Coordinate.value P.point) points.now offsets.now p))
        (point_by P.Coordinate.value P.point) about.now out.old out.new }
{
    for place in 0..about.len() {
        let turns = wind_all(points, offsets, about[place].to_point());
        out[place] = T::tell(rule, turns);
    }
}
