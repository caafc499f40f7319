//! Contours without spikes: the tests, the cleaned copy, and the cleaner.

ghost use Rattle.std.specs.Prelude.{◌≡◌, ◌↔◌, ◌+◌, ◌-◌, ◌*◌, ◌<◌, ◌<ℤ◌, ◌≤◌, pos, List, Some, length, map, false, IsTrue, IfOk, OnOk, IsOk, IsOkUnless, vec_capacity};
ghost use Rattle.i_shape_core.specs.IntPoint.{contour_of, point_of, answered, IsSafeContour};
ghost use Rattle.i_shape_core.specs.Reading.{read};
ghost use Rattle.i_shape_core.specs.Point.{Point, IsBack, cross_of, dot_of};
ghost use Rattle.i_shape_core.specs.Contour.{point_at};
ghost use Rattle.i_shape_core.specs.Convex.{NoSpikes};
ghost use Rattle.i_shape_core.specs.Cleaners.{IsDespikedAlready, VisitsAnswer};
ghost use Rattle.i_shape_core.specs.Steps.Walks.{RisingPlaces, Finds, Falls, FirstAnswer, IsRingState, from_contour_first, ring_of_all};
ghost use Rattle.i_shape_core.specs.Refusals.{OkUnlessMemory};
ghost use Rattle.i_shape_core.specs.Cleaning.{despiking};
ghost use Rattle.i_shape_core.specs.Written.{CleansInOrder, IsWritten};
ghost use Rattle.i_shape_core.specs.Room.{HoldsNoMemoryToDespike, HasRoomToDespike, KeepsRoomToDespike};

use crate::clean::place_ring::Ring;
use crate::clean::probe::{HeldPoint, Probe};
use crate::clean::scan::{BackTurn, has_none};
use crate::clean::write::write_at;
use crate::error::ShapeError;
use crate::number::{IntNumber, WideIntNumber};
use crate::point::{ContourPoint, IntContour, IntPoint};
use crate::turn::Turn;
use crate::turn::repeats::{are_same, last_other};
use std::alloc::Global;
use std::mem;

/// Tests a contour of safe points for spikes, and copies it without them.
pub trait DeSpikeContour<I: IntNumber> {
    /// The contour in unbounded integers.
    ghost contour: { Self → List Point };

    /// Returns whether the contour has no spike and at least three points. At the tip of a spike it turns back on
    /// itself. Consecutive duplicates count once, also across the closing edge. Allocates nothing.
    fn has_no_spikes(&self) -> bool
        requires { IsSafeContour I.width (contour self.now) }
        ensures { IsTrue result ↔ NoSpikes (contour self.now) };

    /// Returns the contour without spikes and repeated points, in the order of the input: vertices at which the path
    /// turns back or stands still are removed until none is left. Returns `None` exactly where removing zero turns in
    /// any order leaves fewer than three points. Otherwise removing zero turns from the result leads to the same
    /// contour, up to rotation, as removing them from the input. Double area, containment and winding numbers stay the
    /// same, and the points are safe again.
    ///
    /// # Errors
    ///
    /// `OutOfMemory`. It can't occur below three points, nor at three points that collapse: there the call allocates
    /// nothing.
    fn despiked_contour(&self, alloc: Global) -> Result<Option<IntContour<I>>, ShapeError>
        requires { IsSafeContour I.width (contour self.now) }
        ensures answer { OkUnlessMemory result
            (CleansInOrder despiking I.width I.value (contour self.now)) }
        ensures short { length (contour self.now) < 3 → result ≡ Ok None }
        ensures spared { (IsDespikedAlready (contour self.now) → ⊥)
            → length (contour self.now) < 4 → IsOk result };

    /// Returns what `despiked_contour` does, and the number of vertices visited. For n points this is at least n, or
    /// n - 2 if the contour collapses, and at most 3n. It is n if no point is removed, and 0 below three points.
    ///
    /// # Errors
    ///
    /// `OutOfMemory`. It can't occur below three points, nor at three points that collapse.
    fn despiked_counted(&self, alloc: Global) -> Result<(Option<IntContour<I>>, u128), ShapeError>
        requires { IsSafeContour I.width (contour self.now) }
        ensures answer { OkUnlessMemory result
            (λ r. CleansInOrder despiking I.width I.value (contour self.now) r.0) }
        ensures visits { IfOk result
            (λ r. VisitsAnswer (contour self.now) (answered (contour_of I.value) r.0) r.1) }
        ensures clean_visits { IfOk result
            (λ r. IsDespikedAlready (contour self.now) → r.1 ≡ length (contour self.now)) }
        ensures short { length (contour self.now) < 3 → result ≡ Ok (None, 0) }
        ensures spared { (IsDespikedAlready (contour self.now) → ⊥)
            → length (contour self.now) < 4 → IsOk result };
}

impl<I: IntNumber> DeSpikeContour<I> for &[IntPoint<I>] {
    ghost contour = { λ points. contour_of I.value points.now };

    fn has_no_spikes(&self) -> bool {
        has_no_spikes(*self)
    }

    #[tactic(auto, using(crate::proofs::Plane::Contours::counted))]
    fn despiked_contour(&self, alloc: Global) -> Result<Option<IntContour<I>>, ShapeError> {
        ContourDeSpiker::new(alloc).despike_contour(*self)
    }

    #[tactic(auto, using(crate::proofs::Plane::Contours::counted))]
    fn despiked_counted(&self, alloc: Global) -> Result<(Option<IntContour<I>>, u128), ShapeError> {
        ContourDeSpiker::new(alloc).despike_counted(*self)
    }
}

impl<I: IntNumber> DeSpikeContour<I> for IntContour<I> {
    ghost contour = { λ contour. contour_of I.value contour.items };

    fn has_no_spikes(&self) -> bool {
        self.as_slice().has_no_spikes()
    }

    fn despiked_contour(&self, alloc: Global) -> Result<Option<IntContour<I>>, ShapeError> {
        self.as_slice().despiked_contour(alloc)
    }

    fn despiked_counted(&self, alloc: Global) -> Result<(Option<IntContour<I>>, u128), ShapeError> {
        self.as_slice().despiked_counted(alloc)
    }
}

/// Removes spikes and repeated points from contours, and keeps its memory from one contour to the next.
#[derive(Drop)]
pub struct ContourDeSpiker {
    places: Vec<usize>,
}

impl ContourDeSpiker {
    /// Returns a despiker that allocates from `alloc`, and holds no memory yet.
    pub fn new(alloc: Global) -> ContourDeSpiker
        ensures { HoldsNoMemoryToDespike result }
    {
        ContourDeSpiker {
            places: Vec::new(alloc),
        }
    }

    /// Returns its allocator.
    pub(crate) fn allocator(&self) -> Global {
        *self.places.allocator()
    }

    /// Returns the contour without spikes and repeated points, as `DeSpikeContour::despiked_contour` does. Earlier
    /// calls don't affect the result, even if they failed. Makes room for a contour with spikes or repeated points, and
    /// keeps it.
    ///
    /// # Errors
    ///
    /// `OutOfMemory`, which can't occur below three points, nor at three points that collapse.
    pub fn despike_contour<I: IntNumber>(
        &mut self,
        contour: &[IntPoint<I>],
    ) -> Result<Option<IntContour<I>>, ShapeError>
        requires { IsSafeContour I.width (contour_of I.value contour.now) }
        ensures answer { let c = contour_of I.value contour.now in
            OkUnlessMemory result (CleansInOrder despiking I.width I.value c) }
        ensures short { length contour.now < 3 → result ≡ Ok None }
        ensures spared { (IsDespikedAlready (contour_of I.value contour.now) → ⊥)
            → length contour.now < 4 → IsOk result }
        ensures keeps_room { KeepsRoomToDespike self.old self.new }
        ensures takes_room { OnOk result ((IsDespikedAlready (contour_of I.value contour.now) → ⊥)
            → HasRoomToDespike self.new (length contour.now)) }
    {
        let (kept, _visits) = self.despike_counted(contour)?;
        Ok(kept)
    }

    /// Returns what `despike_contour` does, and the number of vertices visited. For n points this is at least n, or
    /// n - 2 if the contour collapses, and at most 3n. It is n if no point is removed, and 0 below three points.
    ///
    /// # Errors
    ///
    /// `OutOfMemory`, which can't occur below three points, nor at three points that collapse.
    pub fn despike_counted<I: IntNumber>(
        &mut self,
        contour: &[IntPoint<I>],
    ) -> Result<(Option<IntContour<I>>, u128), ShapeError>
        requires { IsSafeContour I.width (contour_of I.value contour.now) }
        ensures answer { let c = contour_of I.value contour.now in
            OkUnlessMemory result (λ r. CleansInOrder despiking I.width I.value c r.0) }
        ensures visits { IfOk result
            (λ r. VisitsAnswer (contour_of I.value contour.now)
            (answered (contour_of I.value) r.0) r.1) }
        ensures clean_visits { let c = contour_of I.value contour.now in
            IfOk result (λ r. IsDespikedAlready c → r.1 ≡ length c) }
        ensures short { length contour.now < 3 → result ≡ Ok (None, 0) }
        ensures spared { (IsDespikedAlready (contour_of I.value contour.now) → ⊥)
            → length contour.now < 4 → IsOk result }
        ensures keeps_room { KeepsRoomToDespike self.old self.new }
        ensures takes_room { OnOk result ((IsDespikedAlready (contour_of I.value contour.now) → ⊥)
            → HasRoomToDespike self.new (length contour.now)) }
    {
        if contour.len() < 3 {
            return Ok((None, 0));
        }
        let alloc = self.allocator();
        let (probe, first) = first_back(Probe::new(contour));
        let Some(place) = first else {
            return probe.keep_whole(alloc);
        };
        if contour.len() == 3 {
            return Ok((None, probe.visits()));
        }
        self.reserve(contour.len())?;
        let mut ring = self.ring_at(contour.len(), place);
        ring.remove();
        let (probe, is_left) = self.walk(probe, ring);
        if !is_left {
            return Ok((None, probe.visits()));
        }
        probe.keep_left(alloc, Some(self.places.as_slice()))
    }

    /// Makes room for contours of up to `points` points, and allocates nothing below four. It never reduces the room.
    ///
    /// # Errors
    ///
    /// `OutOfMemory`, which can't occur if there is room.
    pub fn reserve(&mut self, points: usize) -> Result<(), ShapeError>
        ensures room { IfOk result (λ _. HasRoomToDespike self.new points) }
        ensures reserved { HasRoomToDespike self.old points → IsOk result }
        ensures untouched { points < 4 → self.new ≡ self.old }
        ensures keeps_room { KeepsRoomToDespike self.old self.new }
        ensures memory { IsOkUnless result ShapeError.OutOfMemory }
    {
        if points < 4 {
            return Ok(());
        }
        self.places.clear();
        self.places.reserve(points)?;
        Ok(())
    }

    /// Writes what `despike_contour` returns to the front of `out`, for points of any type, without testing the contour
    /// first. Returns the number of points written, 0 if the contour collapses. Requires a contour that isn't clean, and
    /// room for its places, so it allocates nothing and can't fail.
    pub(crate) fn walk_into<P: ContourPoint>(&mut self, contour: &[P], out: &mut [P]) -> usize
        requires points_safe { IsSafeContour P.Coordinate.width
            (read P.Coordinate.value P.points contour.now) }
        requires room { length contour.now ≤ length out.old }
        requires unclean { IsDespikedAlready (read P.Coordinate.value P.points contour.now) → ⊥ }
        requires reserved { HasRoomToDespike self.old (length contour.now) }
        ensures written { IsWritten despiking P.Coordinate.width
            (read P.Coordinate.value P.points) contour.now out.old out.new result }
        ensures len { length out.new ≡ length out.old }
        ensures short { length contour.now < 3 → result ≡ 0 }
        ensures keeps_room { KeepsRoomToDespike self.old self.new }
    {
        if contour.len() < 4 {
            return 0;
        }
        let ring = self.ring_at(contour.len(), 0);
        let (_probe, is_left) = self.walk(Probe::new(contour), ring);
        if !is_left {
            return 0;
        }
        write_at(contour, self.places.as_slice(), out)
    }

    /// Returns the ring of all places below `count`, with the walk at `place` and the places before it tested. Requires
    /// room for them. The ring takes the memory of `places`, which `walk` gives back.
    fn ring_at(&mut self, count: usize, place: usize) -> Ring
        requires within { place < count }
        requires room { count ≤ vec_capacity self.old.places }
        ensures { result ≡ ring_of_all count place (vec_capacity self.old.places) }
    {
        let alloc = self.allocator();
        Ring::starting_at(
            mem::replace(&mut self.places, Vec::new(alloc)),
            count,
            place,
        )
    }

    /// Walks around a ring. Returns whether at least three places are left; then `places` holds them.
    fn walk<'a, P: ContourPoint>(
        &mut self,
        probe: Probe<'a, P::Coordinate, P>,
        mut ring: Ring,
    ) -> (Probe<'a, P::Coordinate, P>, bool)
        requires state { IsRingState IsBack (contour_of P.Coordinate.value probe.contour)
            ring probe.visits }
        requires room { length probe.contour ≤ usize.MAX }
        ensures contour { result.0.contour ≡ probe.entry.contour }
        ensures left { let c = contour_of P.Coordinate.value probe.entry.contour in
            IsTrue result.1
            → Finds IsBack c (map (point_at c) self.new.places.items) result.0.visits }
        ensures rising { IsTrue result.1
            → RisingPlaces (length probe.entry.contour) self.new.places.items }
        ensures falls { let c = contour_of P.Coordinate.value probe.entry.contour in
            result.1 ≡ false → Falls IsBack c result.0.visits }
        ensures room { vec_capacity self.new.places ≡ ring.room }
    {
        let (probe, is_left) = walk_round(probe, &mut ring);
        self.places = ring.into_order();
        (probe, is_left)
    }
}

/// Returns the first place at which the contour turns back or stands still. Allocates nothing.
fn first_back<'a, P: ContourPoint>(
    mut probe: Probe<'a, P::Coordinate, P>,
) -> (Probe<'a, P::Coordinate, P>, Option<usize>)
    requires enough { 3 ≤ length probe.contour }
    requires fresh { probe.visits ≡ 0 }
    ensures answer { FirstAnswer IsBack (contour_of P.Coordinate.value probe.entry.contour)
        result.1 result.0.visits }
    ensures contour { result.0.contour ≡ probe.entry.contour }
{
    let last = probe.len() - 1;
    if is_back_between(&mut probe, last, 0, 1) {
        return (probe, Some(0));
    }
    for place in 1..last {
        if is_back_between(&mut probe, place - 1, place, place + 1) {
            return (probe, Some(place));
        }
    }
    if is_back_between(&mut probe, last - 1, last, 0) {
        return (probe, Some(last));
    }
    (probe, None)
}

/// Returns whether the contour turns back or stands still at `place`, between these neighbours. Counts one visit.
fn is_back_between<P: ContourPoint>(
    probe: &mut Probe<'_, P::Coordinate, P>,
    previous: usize,
    place: usize,
    next: usize,
) -> bool
    requires previous_within { previous < length probe.old.contour }
    requires place_within { place < length probe.old.contour }
    requires next_within { next < length probe.old.contour }
    requires room { probe.old.visits < u128.MAX }
    ensures test { let c = contour_of P.Coordinate.value probe.old.contour in IsTrue result
        ↔ IsBack (point_at c previous) (point_at c place) (point_at c next) }
    ensures contour { probe.new.contour ≡ probe.old.contour }
    ensures visits { probe.new.visits ≡ probe.old.visits + 1 }
{
    probe.turn(previous, place, next) == Turn::Back
}

/// Returns whether the way from `before` over `here` to `after` turns back or stands still. Counts one visit.
fn is_back_over<P: ContourPoint>(
    probe: &mut Probe<'_, P::Coordinate, P>,
    before: &HeldPoint<P::Coordinate>,
    here: &HeldPoint<P::Coordinate>,
    after: &HeldPoint<P::Coordinate>,
) -> bool
    requires { probe.old.visits < u128.MAX }
    ensures test { let value = P.Coordinate.value in IsTrue result
        ↔ IsBack (point_of value before.now) (point_of value here.now) (point_of value after.now) }
    ensures contour { probe.new.contour ≡ probe.old.contour }
    ensures visits { probe.new.visits ≡ probe.old.visits + 1 }
{
    probe.turn_over(before, here, after) == Turn::Back
}

/// Walks around the ring until each of its places is tested, and removes those that turn back. Returns whether at least
/// three are left.
fn walk_round<'a, P: ContourPoint>(
    mut probe: Probe<'a, P::Coordinate, P>,
    ring: &mut Ring,
) -> (Probe<'a, P::Coordinate, P>, bool)
    requires state { IsRingState IsBack (contour_of P.Coordinate.value probe.contour)
        ring.old probe.visits }
    requires room { length probe.contour ≤ usize.MAX }
    ensures contour { result.0.contour ≡ probe.entry.contour }
    ensures left { let c = contour_of P.Coordinate.value probe.entry.contour in
        IsTrue result.1
        → Finds IsBack c (map (point_at c) (from_contour_first ring.new.places ring.new.lead))
        result.0.visits }
    ensures rising { IsTrue result.1 → RisingPlaces (length probe.entry.contour)
        (from_contour_first ring.new.places ring.new.lead) }
    ensures falls { result.1 ≡ false
        → Falls IsBack (contour_of P.Coordinate.value probe.entry.contour) result.0.visits }
    ensures room { ring.new.room ≡ ring.old.room }
{
    let mut before = probe.hold(ring.before());
    let mut here = probe.hold(ring.place());
    let mut after = probe.hold(ring.after());
    while ring.untested() > 0 {
        if !is_back_over(&mut probe, &before, &here, &after) {
            ring.keep();
            before = here;
            here = after;
            after = probe.hold(ring.after());
        } else if ring.len() > 3 {
            ring.remove();
            here = before;
            before = probe.hold(ring.before());
        } else {
            return (probe, false);
        }
    }
    (probe, true)
}

/// Returns whether there are at least three points, and the path over them never turns back or stands still. Despiking
/// leaves such a contour as it is.
pub fn is_despiked<P: ContourPoint>(points: &[P]) -> bool
    requires { IsSafeContour P.Coordinate.width (read P.Coordinate.value P.points points.now) }
    ensures { IsTrue result ↔ IsDespikedAlready (read P.Coordinate.value P.points points.now) }
{
    has_none::<P, BackTurn>(points)
}

/// Returns whether the contour has no spike, and has at least three points. Consecutive duplicates count once, also
/// across the closing edge.
pub fn has_no_spikes<P: ContourPoint>(points: &[P]) -> bool
    requires { IsSafeContour P.Coordinate.width (read P.Coordinate.value P.points points.now) }
    ensures { IsTrue result ↔ NoSpikes (read P.Coordinate.value P.points points.now) }
{
    let Some(last) = points.last() else {
        return false;
    };
    let mut here = last.to_point();
    let Some(behind) = last_other(points, here) else {
        return false;
    };
    let mut edge = here - behind;
    for given in points {
        let point = given.to_point();
        if !are_same(here, point) {
            let next = point - here;
            if goes_back(edge, next) {
                return false;
            }
            edge = next;
        }
        here = point;
    }
    true
}

/// Returns whether a path that comes along `edge` goes back along `next`. Requires that the `x` of `next` isn't
/// `I::MIN`.
fn goes_back<I: IntNumber>(edge: IntPoint<I>, next: IntPoint<I>) -> bool
    requires { ¬ (next.x ≡ I.MIN) }
    ensures { IsTrue result ↔ (cross_of (point_of I.value edge) (point_of I.value next) ≡ pos 0)
        × (dot_of (point_of I.value edge) (point_of I.value next) <ℤ pos 0) }
{
    edge.is_parallel_to(next) && edge.dot_product(next) < I::Wide::ZERO
}
