//! Plain loops over lists of points, which the cleaners are compared with. They follow the definitions, not the
//! library's code.

ghost use Rattle.std.specs.Prelude.{◌<◌, length, IfSome};

use std::alloc::{AllocError, Global};

pub type Pair = [i32; 2];

/// The neighbours of `place` on the cycle.
fn before(count: usize, place: usize) -> usize
    requires { place < count }
    ensures { result < count }
{
    if place == 0 { count - 1 } else { place - 1 }
}

fn after(count: usize, place: usize) -> usize
    requires { place < count }
    ensures { result < count }
{
    if place + 1 == count { 0 } else { place + 1 }
}

fn way(a: Pair, b: Pair) -> Pair {
    [b[0].wrapping_sub(a[0]), b[1].wrapping_sub(a[1])]
}

fn is_zero_turn(a: Pair, b: Pair, c: Pair) -> bool {
    let v = way(a, b);
    let w = way(b, c);
    v[0].wrapping_mul(w[1]) == v[1].wrapping_mul(w[0])
}

fn is_back(a: Pair, b: Pair, c: Pair) -> bool {
    let v = way(a, b);
    let w = way(b, c);
    is_zero_turn(a, b, c)
        && v[0]
            .wrapping_mul(w[0])
            .wrapping_add(v[1].wrapping_mul(w[1]))
            <= 0
}

/// Returns the points before and after a place on the cycle.
fn neighbours(list: &[Pair], place: usize) -> [Pair; 2]
    requires { place < length list.now }
{
    [
        list[before(list.len(), place)],
        list[after(list.len(), place)],
    ]
}

/// Returns whether the vertex at a place is a zero turn.
fn is_zero_turn_at(list: &[Pair], place: usize) -> bool
    requires { place < length list.now }
{
    let [a, c] = neighbours(list, place);
    is_zero_turn(a, list[place], c)
}

/// Returns whether the vertex at a place is a back vertex: the tip of a spike, or a repeated point.
fn is_back_at(list: &[Pair], place: usize) -> bool
    requires { place < length list.now }
{
    let [a, c] = neighbours(list, place);
    is_back(a, list[place], c)
}

/// Whether some vertex of the list is a back vertex, the closing edge included.
pub fn has_back_vertex(list: &[Pair]) -> bool {
    for place in 0..list.len() {
        if is_back_at(list, place) {
            return true;
        }
    }
    false
}

/// Which of the zero turns goes first.
#[derive(Clone, Copy)]
pub enum Order {
    First,
    Last,
}

fn zero_turn(list: &[Pair], order: Order) -> Option<usize>
    ensures { IfSome result (λ place. place < length list.now) }
{
    for step in 0..list.len() {
        let place = match order {
            Order::First => step,
            Order::Last => list.len() - 1 - step,
        };
        if is_zero_turn_at(list, place) {
            return Some(place);
        }
    }
    None
}

/// What is left once zero turns are deleted one by one, in this order, until none is left: nothing if it collapses.
pub fn deleted(alloc: Global, list: &[Pair], order: Order) -> Result<Vec<Pair>, AllocError> {
    let mut left = Vec::from_slice(alloc, list)?;
    for _ in 0..list.len() {
        if let Some(place) = zero_turn(left.as_slice(), order) {
            left.remove(place);
        }
    }
    Ok(left)
}

/// Whether one list is the other from another start.
pub fn is_rotation(one: &[Pair], other: &[Pair]) -> bool {
    if one.len() != other.len() {
        return false;
    }
    for start in 0..one.len() {
        if other.starts_with(&one[start..]) && other.ends_with(&one[..start]) {
            return true;
        }
    }
    one.is_empty()
}

/// The walk that keeps points on a stack, and then takes zero turns from both of its ends: what it leaves, nothing if
/// it collapses, and its visits.
pub fn stack_walk(alloc: Global, list: &[Pair]) -> Result<(Vec<Pair>, u128), AllocError> {
    let mut visits: u128 = 0;
    let mut stack: Vec<Pair> = Vec::new(alloc);
    for point in list {
        for _ in 0..list.len() {
            let count = stack.len();
            if count < 2 {
                break;
            }
            visits = visits.wrapping_add(1);
            if !is_zero_turn(stack[count - 2], stack[count - 1], *point) {
                break;
            }
            stack.pop();
        }
        stack.push(*point)?;
    }
    for _ in 0..list.len() {
        let count = stack.len();
        if count < 3 {
            break;
        }
        visits = visits.wrapping_add(1);
        if is_zero_turn(stack[count - 1], stack[0], stack[1]) {
            stack.remove(0);
            continue;
        }
        visits = visits.wrapping_add(1);
        if !is_zero_turn(stack[count - 2], stack[count - 1], stack[0]) {
            break;
        }
        stack.pop();
    }
    if stack.len() < 3 {
        stack.clear();
    }
    Ok((stack, visits))
}

/// The walk round the ring that removes back vertices, with the number of those, from its place on, that are untested:
/// what it leaves, nothing if it collapses, and its visits.
pub fn ring_walk(alloc: Global, list: &[Pair]) -> Result<(Vec<Pair>, u128), AllocError> {
    let mut ring = Vec::from_slice(alloc, list)?;
    let mut place = 0;
    let mut untested = ring.len();
    let mut visits: u128 = 0;
    for _ in 0..list.len().wrapping_mul(3) {
        let count = ring.len();
        if count < 3 || untested == 0 || place >= count {
            break;
        }
        visits = visits.wrapping_add(1);
        if is_back_at(ring.as_slice(), place) {
            ring.remove(place);
            untested = untested.max(2).min(count - 1);
            place = if place == 0 { count - 2 } else { place - 1 };
        } else {
            untested = untested - 1;
            place = after(count, place);
        }
    }
    if ring.len() < 3 {
        ring.clear();
    }
    Ok((ring, visits))
}
