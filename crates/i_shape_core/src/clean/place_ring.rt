//! The ring of the places that a walk has left.

ghost use Rattle.std.specs.Prelude.{◌≡◌, ◌+◌, ◌-◌, ◌<◌, ◌≤◌, ◌∷◌, ◌++◌, [], min, max, take, drop, length, slice_index, vec_len, vec_capacity};
ghost use Rattle.i_shape_core.specs.Steps.Walks.{PlacedRing, LeadKept, LeadRemoved, around_gap, lead_over_gap, from_contour_first, ring_of_all};

use std::marker::Model;

/// The places left, as a cycle from the walk's place on. They lie in one list with a gap: those from `ahead` to `end`,
/// and then those before `behind`.
#[derive(Drop)]
pub struct Ring {
    places: Vec<usize>,
    behind: usize,
    ahead: usize,
    end: usize,
    /// The index of the contour's first place left, in the list without the gap.
    first: usize,
    untested: usize,
}

impl Model for Ring {
    ghost Value = { PlacedRing };

    ghost view = { λ r. record { places = around_gap r.places.items r.behind r.ahead r.end; untested = r.untested; lead = lead_over_gap (r.behind + (r.end - r.ahead)) r.first r.behind; room = vec_capacity r.places } };

    ghost invariant = { λ r. record { gap : r.behind ≤ r.ahead; some : r.ahead < r.end; within : r.end ≤ vec_len r.places; start : r.first < r.behind + (r.end - r.ahead) } };
}

impl Ring {
    /// Returns the ring of all places below `count`, in this memory, with the walk at `place` and the places before it
    /// tested. Requires memory for so many places.
    pub fn starting_at(memory: Vec<usize>, count: usize, place: usize) -> Ring
        requires within { place < count }
        requires room { count ≤ vec_capacity memory }
        ensures { result ≡ ring_of_all count place (vec_capacity memory) }
    {
        let mut places = memory;
        places.clear();
        for each in 0..count {
            places.push_reserved(each);
        }
        Ring {
            places,
            behind: place,
            ahead: place,
            end: count,
            first: 0,
            untested: count - place,
        }
    }

    /// Returns how many places are left.
    pub fn len(&self) -> usize
        ensures { result ≡ length self.now.places }
    {
        self.behind + (self.end - self.ahead)
    }

    /// Returns how many places, from the walk's on, are still to be tested.
    pub fn untested(&self) -> usize
        ensures { result ≡ self.now.untested }
    {
        self.untested
    }

    /// Returns the place before the walk's.
    pub fn before(&self) -> usize
        ensures { result ≡ slice_index self.now.places (length self.now.places - 1) }
    {
        let end = if self.behind > 0 {
            self.behind
        } else {
            self.end
        };
        self.places[end - 1]
    }

    /// Returns the walk's place.
    pub fn place(&self) -> usize
        ensures { result ≡ slice_index self.now.places 0 }
    {
        self.places[self.ahead]
    }

    /// Returns the place after the walk's. Requires at least two places.
    pub fn after(&self) -> usize
        requires { 1 < length self.now.places }
        ensures { result ≡ slice_index self.now.places 1 }
    {
        let next = self.ahead + 1;
        self.places[if next < self.end { next } else { 0 }]
    }

    /// Keeps the walk's place as tested, and moves on. Requires a place that is still to be tested.
    pub fn keep(&mut self)
        requires { 0 < self.old.untested }
        ensures places { self.new.places ≡ drop 1 self.old.places
            ++ slice_index self.old.places 0 ∷ [] }
        ensures untested { self.new.untested + 1 ≡ self.old.untested }
        ensures lead { LeadKept (length self.old.places) self.old.lead self.new.lead }
        ensures room { self.new.room ≡ self.old.room }
    {
        self.untested -= 1;
        self.places[self.behind] = self.places[self.ahead];
        self.behind += 1;
        self.ahead += 1;
        if self.ahead == self.end {
            self.end = self.behind;
            self.behind = 0;
            self.ahead = 0;
        }
    }

    /// Removes the walk's place, and moves back. The new place and the one after it are to be tested. Requires at least
    /// two places.
    pub fn remove(&mut self)
        requires { 1 < length self.old.places }
        ensures places { self.new.places ≡ slice_index self.old.places (length self.old.places - 1)
            ∷ drop 1 (take (length self.old.places - 1) self.old.places) }
        ensures untested { self.new.untested
            ≡ min (length self.old.places - 1) (max self.old.untested 2) }
        ensures lead { LeadRemoved (length self.old.places) self.old.lead self.new.lead }
        ensures room { self.new.room ≡ self.old.room }
    {
        let before = self.before();
        let left = self.len() - 1;
        self.places[self.ahead] = before;
        self.first = first_without(self.first, self.behind, left);
        self.untested = self.untested.max(2).min(left);
        if self.behind > 0 {
            self.behind -= 1;
        } else {
            self.end -= 1;
        }
    }

    /// Returns the places left, in the order of the contour.
    pub fn into_order(self) -> Vec<usize>
        ensures places { result.items ≡ from_contour_first self.places self.lead }
        ensures room { vec_capacity result ≡ self.room }
    {
        let mut places = self.places;
        places.copy_within(self.ahead..self.end, self.behind);
        places.truncate(self.behind + (self.end - self.ahead));
        places.rotate_left(self.first);
        places
    }
}

/// Returns where the contour's first place lies once the walk's place, with `behind` places before it in the list, is
/// removed and `left` are left.
fn first_without(first: usize, behind: usize, left: usize) -> usize
    requires some { 0 < left }
    requires first { first ≤ left }
    requires behind { behind ≤ left }
    ensures within { result < left }
    ensures lead { LeadRemoved (left + 1) (lead_over_gap (left + 1) first behind)
        (lead_over_gap left result (behind - 1)) }
{
    let moved = if behind == 0 {
        first.max(1)
    } else if behind < first {
        first - 1
    } else {
        first
    };
    if moved == left { 0 } else { moved }
}
