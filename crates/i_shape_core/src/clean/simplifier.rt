//! The cleaner that removes zero turns.

ghost use Rattle.std.specs.Prelude.{◌≡◌, ◌↔◌, ◌+◌, ◌-◌, ◌*◌, ◌<◌, ◌≤◌, map, take, drop, min, option_map, IsTrue, length, vec_len, vec_capacity, IfOk, OnOk, IsOk, IsOkUnless, None};
ghost use Rattle.std.specs.Option.{IfSome};
ghost use Rattle.std.specs.List.{range_with_len};
ghost use Rattle.i_shape_core.specs.IntPoint.{contour_of, answered, IsSafeContour};
ghost use Rattle.i_shape_core.specs.Reading.{read};
ghost use Rattle.i_shape_core.specs.Point.{IsZeroTurn};
ghost use Rattle.i_shape_core.specs.Contour.{IsSimple, point_at};
ghost use Rattle.i_shape_core.specs.Cleaners.{VisitsAnswer};
ghost use Rattle.i_shape_core.specs.Steps.Walks.{Finds, RisingPlaces, IsStart, IsWalked, IsStacked, IsSettled, WalkAnswer};
ghost use Rattle.i_shape_core.specs.Refusals.{OkUnlessMemory};
ghost use Rattle.i_shape_core.specs.Cleaning.{simplifying};
ghost use Rattle.i_shape_core.specs.Written.{CleansInOrder, IsWritten};
ghost use Rattle.i_shape_core.specs.Room.{HoldsNoMemoryToSimplify, HasRoomToSimplify, KeepsRoomToSimplify};

use crate::clean::probe::Probe;
use crate::clean::scan::is_simple;
use crate::clean::write::write_at;
use crate::error::ShapeError;
use crate::number::IntNumber;
use crate::point::{ContourPoint, IntContour, IntPoint};
use crate::turn::Turn;
use std::alloc::Global;

/// Removes zero turns from contours, and keeps its memory from one contour to the next.
#[derive(Drop)]
pub struct ContourSimplifier {
    stack: Vec<usize>,
}

impl ContourSimplifier {
    /// Returns a simplifier that allocates from `alloc`, and holds no memory yet.
    pub fn new(alloc: Global) -> ContourSimplifier
        ensures { HoldsNoMemoryToSimplify result }
    {
        ContourSimplifier {
            stack: Vec::new(alloc),
        }
    }

    /// Returns its allocator.
    pub(crate) fn allocator(&self) -> Global {
        *self.stack.allocator()
    }

    /// Returns the contour without zero turns, as `SimpleContour::simplified` does. Earlier calls don't affect the
    /// result, even if they failed. Makes room for a contour with zero turns, and keeps it.
    ///
    /// # Errors
    ///
    /// `OutOfMemory`, which can't occur below three points.
    pub fn simplify_contour<I: IntNumber>(
        &mut self,
        contour: &[IntPoint<I>],
    ) -> Result<Option<IntContour<I>>, ShapeError>
        requires { IsSafeContour I.width (contour_of I.value contour.now) }
        ensures answer { let c = contour_of I.value contour.now in
            OkUnlessMemory result (CleansInOrder simplifying I.width I.value c) }
        ensures short { length contour.now < 3 → result ≡ Ok None }
        ensures keeps_room { KeepsRoomToSimplify self.old self.new }
        ensures takes_room { OnOk result ((IsSimple (contour_of I.value contour.now) → ⊥)
            → HasRoomToSimplify self.new (length contour.now)) }
    {
        let (kept, _visits) = self.simplify_counted(contour)?;
        Ok(kept)
    }

    /// Returns what `simplify_contour` does, and the number of vertices visited. For n points this is at least n, or
    /// n - 2 if the contour collapses, and at most 3n. It is n if there is no zero turn, and 0 below three points.
    ///
    /// # Errors
    ///
    /// `OutOfMemory`, which can't occur below three points.
    pub fn simplify_counted<I: IntNumber>(
        &mut self,
        contour: &[IntPoint<I>],
    ) -> Result<(Option<IntContour<I>>, u128), ShapeError>
        requires { IsSafeContour I.width (contour_of I.value contour.now) }
        ensures answer { let c = contour_of I.value contour.now in
            OkUnlessMemory result (λ r. CleansInOrder simplifying I.width I.value c r.0) }
        ensures visits { IfOk result
            (λ r. VisitsAnswer (contour_of I.value contour.now)
            (answered (contour_of I.value) r.0) r.1) }
        ensures clean_visits { let c = contour_of I.value contour.now in
            IfOk result (λ r. IsSimple c → r.1 ≡ length c) }
        ensures short { length contour.now < 3 → result ≡ Ok (None, 0) }
        ensures keeps_room { KeepsRoomToSimplify self.old self.new }
        ensures takes_room { OnOk result ((IsSimple (contour_of I.value contour.now) → ⊥)
            → HasRoomToSimplify self.new (length contour.now)) }
    {
        if contour.len() < 3 {
            return Ok((None, 0));
        }
        let alloc = self.allocator();
        let (probe, start) = start_of_walk(Probe::new(contour));
        let Some(start) = start else {
            return probe.keep_whole(alloc);
        };
        self.reserve(contour.len())?;
        let probe = stack_places(probe, &mut self.stack, start);
        let (probe, left) = close(probe, self.stack.as_slice());
        probe.keep_left(alloc, left)
    }

    /// Makes room for contours of up to `points` points, and allocates nothing below three. It never reduces the room.
    ///
    /// # Errors
    ///
    /// `OutOfMemory`, which can't occur if there is room.
    pub fn reserve(&mut self, points: usize) -> Result<(), ShapeError>
        ensures room { IfOk result (λ _. HasRoomToSimplify self.new points) }
        ensures reserved { HasRoomToSimplify self.old points → IsOk result }
        ensures untouched { points < 3 → self.new ≡ self.old }
        ensures keeps_room { KeepsRoomToSimplify self.old self.new }
        ensures memory { IsOkUnless result ShapeError.OutOfMemory }
    {
        if points < 3 {
            return Ok(());
        }
        self.stack.clear();
        self.stack.reserve(points)?;
        Ok(())
    }

    /// Writes what `simplify_contour` returns to the front of `out`, for points of any type, without testing the contour
    /// first. Returns the number of points written, 0 if the contour collapses. Requires room for its places, so it
    /// allocates nothing and can't fail.
    pub(crate) fn walk_into<P: ContourPoint>(&mut self, contour: &[P], out: &mut [P]) -> usize
        requires points_safe { IsSafeContour P.Coordinate.width
            (read P.Coordinate.value P.points contour.now) }
        requires room { length contour.now ≤ length out.old }
        requires reserved { HasRoomToSimplify self.old (length contour.now) }
        ensures written { IsWritten simplifying P.Coordinate.width
            (read P.Coordinate.value P.points) contour.now out.old out.new result }
        ensures len { length out.new ≡ length out.old }
        ensures short { length contour.now < 3 → result ≡ 0 }
        ensures keeps_room { KeepsRoomToSimplify self.old self.new }
    {
        if contour.len() < 3 {
            return 0;
        }
        let start = WalkStart {
            first: 0,
            end: 0,
            next: 0,
        };
        let probe = stack_places(Probe::new(contour), &mut self.stack, start);
        let (_probe, left) = close(probe, self.stack.as_slice());
        let Some(places) = left else {
            return 0;
        };
        write_at(contour, places, out)
    }
}

/// Where the walk starts: with the places `first..end` on the stack, and `next` as the place to push.
#[derive(Clone, Copy)]
struct WalkStart {
    first: usize,
    end: usize,
    next: usize,
}

/// Returns where the walk starts. No place between two others of the stack is a zero turn then. Returns `None` if there
/// is no zero turn. Allocates nothing.
fn start_of_walk<'a, P: ContourPoint>(
    probe: Probe<'a, P::Coordinate, P>,
) -> (Probe<'a, P::Coordinate, P>, Option<WalkStart>)
    requires fresh { probe.visits ≡ 0 }
    requires enough { 3 ≤ length probe.contour }
    ensures contour { result.0.contour ≡ probe.entry.contour }
    ensures start { IfSome result.1
        (λ s. IsStart IsZeroTurn (contour_of P.Coordinate.value probe.entry.contour)
        s.first s.end s.next result.0.visits) }
    ensures clean { let c = contour_of P.Coordinate.value probe.entry.contour in
        result.1 ≡ None → Finds IsZeroTurn c c result.0.visits }
    ensures counted { let c = contour_of P.Coordinate.value probe.entry.contour in
        IsSimple c → (result.1 ≡ None) × (result.0.visits ≡ length c) }
{
    let (mut probe, place) = clean_prefix(probe);
    let count = probe.len();
    if place < count {
        let start = WalkStart {
            first: 0,
            end: place - 1,
            next: place,
        };
        return (probe, Some(start));
    }
    let last = count - 1;
    if is_zero_at(&mut probe, last, 0, 1) {
        let start = WalkStart {
            first: 1,
            end: count,
            next: count,
        };
        return (probe, Some(start));
    }
    if is_zero_at(&mut probe, last - 1, last, 0) {
        let start = WalkStart {
            first: 0,
            end: last,
            next: count,
        };
        return (probe, Some(start));
    }
    (probe, None)
}

/// Returns the first place that makes the one before it a zero turn, or the number of points if there is none. The
/// closing turns aren't tested. No list of places is kept yet: it would double the time of a clean contour.
fn clean_prefix<'a, P: ContourPoint>(
    mut probe: Probe<'a, P::Coordinate, P>,
) -> (Probe<'a, P::Coordinate, P>, usize)
    requires fresh { probe.visits ≡ 0 }
    requires enough { 3 ≤ length probe.contour }
    ensures contour { result.0.contour ≡ probe.entry.contour }
    ensures least { 2 ≤ result.1 }
    ensures most { result.1 ≤ length probe.entry.contour }
    ensures clean { IsStacked IsZeroTurn (contour_of P.Coordinate.value probe.entry.contour)
        (range_with_len 0 result.1) result.1 }
    ensures zero_turn { let c = contour_of P.Coordinate.value probe.entry.contour in
        result.1 < length c → IsZeroTurn (point_at c (result.1 - 2))
        (point_at c (result.1 - 1)) (point_at c result.1) }
    ensures visits { result.0.visits + 2 ≡ min (result.1 + 1) (length probe.entry.contour) }
{
    let count = probe.len();
    for place in 2..count {
        if is_zero_at(&mut probe, place - 2, place - 1, place) {
            return (probe, place);
        }
    }
    (probe, count)
}

/// Returns whether the contour has a zero turn at `place`, between these neighbours. Counts one visit.
fn is_zero_at<P: ContourPoint>(
    probe: &mut Probe<'_, P::Coordinate, P>,
    previous: usize,
    place: usize,
    next: usize,
) -> bool
    requires previous_within { previous < length probe.old.contour }
    requires place_within { place < length probe.old.contour }
    requires next_within { next < length probe.old.contour }
    requires room { probe.old.visits < u128.MAX }
    ensures test { let c = contour_of P.Coordinate.value probe.old.contour in IsTrue result
        ↔ IsZeroTurn (point_at c previous) (point_at c place) (point_at c next) }
    ensures contour { probe.new.contour ≡ probe.old.contour }
    ensures visits { probe.new.visits ≡ probe.old.visits + 1 }
{
    probe.turn(previous, place, next) != Turn::Turning
}

/// Pops places while the top of the stack is a zero turn between the one below it and `place`.
fn pop_zero_turns<'a, P: ContourPoint>(
    mut probe: Probe<'a, P::Coordinate, P>,
    stack: &mut Vec<usize>,
    place: usize,
) -> Probe<'a, P::Coordinate, P>
    requires within { place < length probe.contour }
    requires walked { IsWalked IsZeroTurn (contour_of P.Coordinate.value probe.contour)
        stack.old.items place probe.visits }
    ensures contour { result.contour ≡ probe.entry.contour }
    ensures stacked { IsStacked IsZeroTurn (contour_of P.Coordinate.value probe.entry.contour)
        stack.new.items place }
    ensures settled { IsSettled IsZeroTurn (contour_of P.Coordinate.value probe.entry.contour)
        stack.new.items place }
    ensures fewer { vec_len stack.new ≤ place }
    ensures room { vec_capacity stack.new ≡ vec_capacity stack.old }
    ensures most { result.visits + vec_len stack.new ≤ 2 * place + 1 }
    ensures least { place ≤ result.visits + min (vec_len stack.new) 1 }
    ensures counted { result.visits + vec_len stack.new
        ≡ probe.entry.visits + vec_len stack.old + min (vec_len stack.new - 1) 1 }
{
    while stack.len() >= 2 {
        let top = stack.len() - 1;
        if !is_zero_at(&mut probe, stack[top - 1], stack[top], place) {
            return probe;
        }
        stack.pop();
    }
    probe
}

/// Pushes the places of the contour one by one, from the start of the walk on, and pops the zero turns that each makes.
fn stack_places<'a, P: ContourPoint>(
    mut probe: Probe<'a, P::Coordinate, P>,
    stack: &mut Vec<usize>,
    start: WalkStart,
) -> Probe<'a, P::Coordinate, P>
    requires start { IsStart IsZeroTurn (contour_of P.Coordinate.value probe.contour)
        start.first start.end start.next probe.visits }
    requires room { length probe.contour ≤ vec_capacity stack.old }
    ensures contour { result.contour ≡ probe.entry.contour }
    ensures walked { let c = contour_of P.Coordinate.value
        probe.entry.contour in IsWalked IsZeroTurn c stack.new.items (length c) result.visits }
    ensures room { vec_capacity stack.new ≡ vec_capacity stack.old }
{
    fill(stack, start.first, start.end);
    for place in start.next..probe.len() {
        probe = pop_zero_turns(probe, stack, place);
        stack.push_reserved(place);
    }
    probe
}

/// Replaces what the stack holds with the places `first..end`.
fn fill(stack: &mut Vec<usize>, first: usize, end: usize)
    requires rising { first ≤ end }
    requires room { end - first ≤ vec_capacity stack.old }
    ensures items { stack.new.items ≡ range_with_len first (end - first) }
    ensures room { vec_capacity stack.new ≡ vec_capacity stack.old }
{
    stack.clear();
    for place in first..end {
        stack.push_reserved(place);
    }
}

/// Removes zero turns from both ends of the stack, where it closes to a cycle. Returns the places left, or `None` if
/// they are fewer than three.
fn close<'a, 's, P: ContourPoint>(
    mut probe: Probe<'a, P::Coordinate, P>,
    stack: &'s [usize],
) -> (Probe<'a, P::Coordinate, P>, Option<&'s [usize]>)
    requires walked { let c = contour_of P.Coordinate.value
        probe.contour in IsWalked IsZeroTurn c stack.now (length c) probe.visits }
    requires room { length probe.contour ≤ usize.MAX }
    ensures contour { result.0.contour ≡ probe.entry.contour }
    ensures answer { let c = contour_of P.Coordinate.value
        probe.entry.contour in WalkAnswer IsZeroTurn c
        (option_map (λ places. map (point_at c) places.now) result.1) result.0.visits }
    ensures rising { IfSome result.1
        (λ places. RisingPlaces (length probe.entry.contour) places.now) }
{
    let mut left = stack;
    while left.len() >= 3 {
        let last = left.len() - 1;
        if is_zero_at(&mut probe, left[last], left[0], left[1]) {
            left = without_first(left);
        } else if is_zero_at(&mut probe, left[last - 1], left[last], left[0]) {
            left = without_last(left);
        } else {
            return (probe, Some(left));
        }
    }
    (probe, None)
}

fn without_first(places: &[usize]) -> &[usize]
    requires { 0 < length places.now }
    ensures { result.now ≡ drop 1 places.now }
{
    &places[1..]
}

fn without_last(places: &[usize]) -> &[usize]
    requires { 0 < length places.now }
    ensures { result.now ≡ take (length places.now - 1) places.now }
{
    &places[..places.len() - 1]
}
