//! A view of a contour for a cleaner's walk, which counts its visits.

ghost use Rattle.std.specs.Prelude.{◌≡◌, ◌+◌, ◌<◌, ◌≤◌, [], Some, map, option_map, length, slice_get, IfOk, IsOk, IsOkUnless};
ghost use Rattle.std.specs.Option.{IfSome};
ghost use Rattle.std.specs.List.{All};
ghost use Rattle.i_shape_core.specs.declared.point.IntPoint.{IntPoint};
ghost use Rattle.i_shape_core.specs.IntPoint.{point_of, contour_of, answered, IsSafe, IsSafeContour};
ghost use Rattle.i_shape_core.specs.Reading.{read};
ghost use Rattle.i_shape_core.specs.Contour.{point_at};
ghost use Rattle.i_shape_core.specs.Steps.Walks.{Seen};
ghost use Rattle.i_shape_core.specs.Turn.{IsTurn};

use crate::clean::copies::copied;
use crate::error::ShapeError;
use crate::number::IntNumber;
use crate::point::{ContourPoint, IntPoint};
use crate::turn::{Turn, turn_at, turn_of};
use std::alloc::Global;
use std::marker::Model;

/// The only view of a contour that a cleaner's walk gets. It counts the vertices visited. Walks pass it by value, since
/// `keep` ends it: once its points are out, nothing more can be visited.
#[derive(Drop)]
pub struct Probe<'a, I: IntNumber, P: ContourPoint<Coordinate = I> = IntPoint<I>> {
    points: &'a [P],
    count: u128,
}

/// A point of a probe's contour, which a walk keeps from one turn to the next: it reads one point a step in place of
/// three. Only a probe sees its coordinates.
#[derive(Drop)]
pub(crate) struct HeldPoint<I: IntNumber> {
    point: IntPoint<I>,
}

impl<I: IntNumber> Model for HeldPoint<I> {
    ghost Value = { IntPoint I };

    ghost view = { λ p. p.point };

    ghost invariant = { λ p. IsSafe I.width (point_of I.value p.point) };
}

impl<'a, I: IntNumber, P: ContourPoint<Coordinate = I>> Model for Probe<'a, I, P> {
    ghost Value = { Seen I };

    ghost view = { λ p. record { contour = P.points p.points.now; visits = p.count } };

    ghost invariant = { λ p. IsSafeContour I.width (read I.value P.points p.points.now) };
}

impl<'a, I: IntNumber, P: ContourPoint<Coordinate = I>> Probe<'a, I, P> {
    /// Returns a probe of a contour, with nothing visited. Requires safe points.
    pub fn new(contour: &'a [P]) -> Probe<'a, I, P>
        requires { IsSafeContour I.width (read I.value P.points contour.now) }
        ensures contour { result.contour ≡ P.points contour.now }
        ensures visits { result.visits ≡ 0 }
    {
        Probe {
            points: contour,
            count: 0,
        }
    }

    /// Returns the number of points.
    pub fn len(&self) -> usize
        ensures { result ≡ length self.now.contour }
    {
        self.points.len()
    }

    /// Returns how the contour turns at `place` between these neighbours, which may be any places of it. Counts one
    /// visit.
    pub fn turn(&mut self, previous: usize, place: usize, next: usize) -> Turn
        requires previous_within { previous < length self.old.contour }
        requires place_within { place < length self.old.contour }
        requires next_within { next < length self.old.contour }
        requires room { self.old.visits < u128.MAX }
        ensures turn { let c = contour_of I.value self.old.contour
            in IsTurn (point_at c previous) (point_at c place) (point_at c next) result }
        ensures contour { self.new.contour ≡ self.old.contour }
        ensures visits { self.new.visits ≡ self.old.visits + 1 }
    {
        self.count += 1;
        turn_at(self.points, previous, place, next)
    }

    /// Returns the point at `place` for `turn_over`. A walk sees nothing of it, so this counts no visit.
    pub(crate) fn hold(&self, place: usize) -> HeldPoint<I>
        requires { place < length self.now.contour }
        ensures { point_of I.value result ≡ point_at (contour_of I.value self.now.contour) place }
    {
        let points = self.points;
        HeldPoint {
            point: points[place].to_point(),
        }
    }

    /// Returns how the path from `before` over `here` to `after` turns. Counts one visit.
    pub(crate) fn turn_over(
        &mut self,
        before: &HeldPoint<I>,
        here: &HeldPoint<I>,
        after: &HeldPoint<I>,
    ) -> Turn
        requires { self.old.visits < u128.MAX }
        ensures turn { IsTurn (point_of I.value before.now) (point_of I.value here.now)
            (point_of I.value after.now) result }
        ensures contour { self.new.contour ≡ self.old.contour }
        ensures visits { self.new.visits ≡ self.old.visits + 1 }
    {
        self.count += 1;
        turn_of(before.point, here.point, after.point)
    }

    /// Counts one visit.
    pub fn skip(&mut self)
        requires { self.old.visits < u128.MAX }
        ensures contour { self.new.contour ≡ self.old.contour }
        ensures visits { self.new.visits ≡ self.old.visits + 1 }
    {
        self.count += 1;
    }

    /// The number of visits so far.
    pub fn visits(&self) -> u128
        ensures { result ≡ self.now.visits }
    {
        self.count
    }

    /// Returns all points, and the number of visits.
    ///
    /// # Errors
    ///
    /// `OutOfMemory`, which can't occur if there is no point.
    pub fn keep_all(self, alloc: Global) -> Result<(Vec<P>, u128), ShapeError>
        ensures points { IfOk result (λ kept. P.points kept.0.items ≡ self.entry.contour) }
        ensures visits { IfOk result (λ kept. kept.1 ≡ self.entry.visits) }
        ensures none { self.entry.contour ≡ [] → IsOk result }
        ensures memory { IsOkUnless result ShapeError.OutOfMemory }
    {
        let kept = copied(alloc, self.points)?;
        Ok((kept, self.visits()))
    }

    /// Returns the points at these places of the contour, in the given order, and the number of visits.
    ///
    /// # Errors
    ///
    /// `OutOfMemory`, which can't occur if there is no place.
    pub fn keep(self, alloc: Global, indices: &[usize]) -> Result<(Vec<P>, u128), ShapeError>
        requires { All (λ k. k < length self.contour) indices.now }
        ensures points { IfOk result (λ kept. map (λ p. Some p) (P.points kept.0.items)
            ≡ map (slice_get self.entry.contour) indices.now) }
        ensures visits { IfOk result (λ kept. kept.1 ≡ self.entry.visits) }
        ensures none { indices.now ≡ [] → IsOk result }
        ensures memory { IsOkUnless result ShapeError.OutOfMemory }
    {
        let mut kept = Vec::with_capacity(alloc, indices.len())?;
        for index in indices {
            kept.push_reserved(self.points[*index]);
        }
        Ok((kept, self.visits()))
    }

    /// Returns all points, as what is left of the contour, and the number of visits. The only error is `OutOfMemory`.
    pub(crate) fn keep_whole(self, alloc: Global) -> Result<(Option<Vec<P>>, u128), ShapeError>
        ensures kept { IfOk result (λ kept. (answered (read I.value P.points) kept.0
            ≡ Some (contour_of I.value self.entry.contour)) × (kept.1 ≡ self.entry.visits)) }
        ensures memory { IsOkUnless result ShapeError.OutOfMemory }
    {
        let (kept, visits) = self.keep_all(alloc)?;
        Ok((Some(kept), visits))
    }

    /// Returns the points at the places left, or `None` if `left` is, and the number of visits. The only error is
    /// `OutOfMemory`.
    pub(crate) fn keep_left(
        self,
        alloc: Global,
        left: Option<&[usize]>,
    ) -> Result<(Option<Vec<P>>, u128), ShapeError>
        requires { IfSome left (λ places. All (λ k. k < length self.contour) places.now) }
        ensures kept { let c = contour_of I.value self.entry.contour
            in IfOk result (λ kept. (answered (read I.value P.points) kept.0
            ≡ option_map (λ places. map (point_at c) places.now) left.entry)
            × (kept.1 ≡ self.entry.visits)) }
        ensures memory { IsOkUnless result ShapeError.OutOfMemory }
    {
        let Some(places) = left else {
            return Ok((None, self.visits()));
        };
        let (kept, visits) = self.keep(alloc, places)?;
        Ok((Some(kept), visits))
    }
}
