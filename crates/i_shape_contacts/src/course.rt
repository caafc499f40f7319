//! Which point follows which: round one contour, or round each of several rings.

ghost use Rattle.std.specs.Prelude.{◌≡◌, ◌↔◌, ◌<◌, ◌-◌, ℕ, length, IfOk, IsTrue};
ghost use Rattle.i_shape_core.specs.Rings.{offset, AreRising};
ghost use Rattle.i_shape_core.specs.Contour.{place_after};
ghost use Rattle.i_shape_contacts.specs.Contacts.{IsNext, IsAfter};
ghost use Rattle.i_shape_contacts.specs.Courses.{Divides, DividesPoints, IsTable};

use std::alloc::{AllocError, Global};

/// Which of a number of points follows which.
pub trait Course: Copy {
    /// The number of points.
    ghost count: { Self → ℕ };

    /// What the course must meet.
    ghost can_follow: { Self → Type 0 };

    /// Whether the point at the second place follows the one at the first.
    ghost follows: { Self → ℕ → ℕ → Type 0 };

    /// Returns the place of the point that follows the one at `place`.
    fn next(self, place: usize) -> usize
        requires can { can_follow self }
        requires within { place < count self }
        ensures is { follows self place result }
        ensures only { (m : ℕ) → follows self place m → m ≡ result }
        ensures within { result < count self };
}

/// The course round one contour of so many points.
#[derive(Clone, Copy)]
pub struct Cycle {
    pub count: usize,
}

impl Course for Cycle {
    ghost count = { λ it. it.count };

    ghost can_follow = { λ it. Unit {0} };

    ghost follows = { λ it. IsNext it.count };

    fn next(self, place: usize) -> usize {
        next_place(self.count, place)
    }
}

/// Returns the place after a place of a cycle of so many places.
fn next_place(count: usize, place: usize) -> usize
    requires { place < count }
    ensures is { result ≡ place_after count place }
    ensures within { result < count }
{
    let next = place + 1;
    if next == count { 0 } else { next }
}

/// Returns whether no offset is less than the one before it.
fn are_rising(offsets: &[usize]) -> bool
    ensures { IsTrue result ↔ AreRising offsets.now (length offsets.now) }
{
    for place in 1..offsets.len() {
        if offsets[place] < offsets[place - 1] {
            return false;
        }
    }
    true
}

/// Returns whether the offsets divide so many points into rings: they begin with 0, none is less than the one before
/// it, and they end with the number of points.
pub fn do_divide(offsets: &[usize], count: usize) -> bool
    ensures { IsTrue result ↔ DividesPoints count offsets.now }
{
    if offsets.is_empty() {
        return false;
    }
    let first = offsets[0];
    let last = offsets[offsets.len() - 1];
    if first != 0 {
        return false;
    }
    last == count && are_rising(offsets)
}

/// The course round each of the rings into which offsets divide points.
#[derive(Clone, Copy)]
pub struct Rings<'a> {
    pub offsets: &'a [usize],
}

impl<'a> Course for Rings<'a> {
    ghost count = { λ it. offset it.offsets.now (length it.offsets.now - 1) };

    ghost can_follow = { λ it. Divides it.offsets.now };

    ghost follows = { λ it. IsAfter it.offsets.now };

    fn next(self, place: usize) -> usize {
        next_in_ring(self.offsets, place)
    }
}

/// Returns the place after a place in its ring.
fn next_in_ring(offsets: &[usize], place: usize) -> usize
    requires divides { Divides offsets.now }
    requires within { place < offset offsets.now (length offsets.now - 1) }
    ensures is { IsAfter offsets.now place result }
    ensures only { (m : ℕ) → IsAfter offsets.now place m → m ≡ result }
    ensures within { result < offset offsets.now (length offsets.now - 1) }
{
    let mut low = 0;
    let mut high = offsets.len() - 1;
    while high - low > 1 {
        let middle = low + (high - low) / 2;
        if offsets[middle] <= place {
            low = middle;
        } else {
            high = middle;
        }
    }
    if place + 1 < offsets[low + 1] {
        place + 1
    } else {
        offsets[low]
    }
}

/// The course round each of the rings into which offsets divide points, by a table.
#[derive(Clone, Copy)]
pub struct Tabled<'a> {
    pub offsets: &'a [usize],
    pub table: &'a [usize],
}

impl<'a> Course for Tabled<'a> {
    ghost count = { λ it. offset it.offsets.now (length it.offsets.now - 1) };

    ghost can_follow = { λ it. IsTable it.offsets.now it.table.now };

    ghost follows = { λ it. IsAfter it.offsets.now };

    fn next(self, place: usize) -> usize {
        listed_place(self.offsets, self.table, place)
    }
}

/// Returns what the table has at a place.
fn listed_place(_offsets: &[usize], table: &[usize], place: usize) -> usize
    requires table { IsTable _offsets.now table.now }
    requires within { place < offset _offsets.now (length _offsets.now - 1) }
    ensures is { IsAfter _offsets.now place result }
    ensures only { (m : ℕ) → IsAfter _offsets.now place m → m ≡ result }
    ensures within { result < offset _offsets.now (length _offsets.now - 1) }
{
    table[place]
}

/// Returns the table of the rings into which offsets divide points.
///
/// # Errors
///
/// `AllocError`, if an allocation fails.
pub fn table_of(alloc: Global, offsets: &[usize]) -> Result<Vec<usize>, AllocError>
    requires { Divides offsets.now }
    ensures { IfOk result (λ v. IsTable offsets.now v.items) }
{
    let count = offsets[offsets.len() - 1];
    let mut table = Vec::with_capacity(alloc, count)?;
    for place in 0..count {
        table.push(next_in_ring(offsets, place))?;
    }
    Ok(table)
}
