//! Lists of points of a small grid, cleaned as by plain loops.

use i_shape_core::despike::DeSpikeContour;
use i_shape_core::simplifier::ContourSimplifier;
use i_shape_test_data::given::{contour, pairs};
use i_shape_test_data::plain::{Order, Pair, deleted, is_rotation, ring_walk, stack_walk};
use i_shape_test_data::row::Row;
use std::alloc::{AllocError, Global};
use std::env;
use std::ops::Range;
use std::test::Fail;

const GRID: [Pair; 6] = [[0, 0], [1, 0], [2, 0], [0, 1], [1, 1], [2, 1]];

/// The list of so many points of the grid whose places in the grid are the digits of the code.
fn list_of(alloc: Global, count: usize, code: usize) -> Result<Vec<Pair>, AllocError> {
    let mut list = Vec::new(alloc);
    let mut rest = code;
    for _ in 0..count {
        list.push(GRID[rest % 6])?;
        rest = rest / 6;
    }
    Ok(list)
}

/// `simplify_counted` leaves what the plain walk over a stack leaves, with its visits. Both orders of deletion end in
/// rotations of that ring, or collapse if it is `None`.
fn simplifies_as_the_stack_walk(
    row: &Row<'_>,
    simplifier: &mut ContourSimplifier,
    list: &[Pair],
) -> Result<Vec<Pair>, Fail> {
    let points = contour::<i32>(row.alloc, list)?;
    let (kept, visits) = simplifier.simplify_counted(points.as_slice())?;
    let kept = pairs(row.alloc, kept.unwrap_or(Vec::new(row.alloc)).as_slice())?;
    let (left, walked) = stack_walk(row.alloc, list)?;
    row.holds(kept == left, "what the walk over a stack leaves")?;
    row.equal(visits, walked, "the visits of the walk over a stack")?;
    for order in [Order::First, Order::Last] {
        let left = deleted(row.alloc, list, order)?;
        row.holds(is_rotation(left.as_slice(), kept.as_slice()), "any order")?;
    }
    Ok(kept)
}

/// `despiked_counted` is `None` exactly if no ring is left, its `Some` is what the plain walk round the ring leaves and
/// is simplified to the same ring, and its visits are those of the plain walk.
fn despikes_as_the_ring_walk(
    row: &Row<'_>,
    simplifier: &mut ContourSimplifier,
    list: &[Pair],
    kept: &[Pair],
) -> Result<(), Fail> {
    let (despiked, visits) = contour::<i32>(row.alloc, list)?.despiked_counted(row.alloc)?;
    let (left, walked) = ring_walk(row.alloc, list)?;
    row.equal(visits, walked, "the visits of the walk round the ring")?;
    let Some(despiked) = despiked else {
        return row.holds(kept.is_empty() && left.is_empty(), "it collapsed");
    };
    let again = simplifier
        .simplify_contour(despiked.as_slice())?
        .ok_or("it collapsed")?;
    let survivors = pairs(row.alloc, despiked.as_slice())?;
    row.holds(survivors == left, "what the walk round the ring leaves")?;
    let again = pairs(row.alloc, again.as_slice())?;
    row.holds(is_rotation(again.as_slice(), kept), "the one ring")
}

/// Both counted cleaners leave what the plain walks leave, by as many visits, of the lists of so many points that have
/// these codes, each times the factor.
fn are_cleaned_as_by_plain_loops(
    row: &Row<'_>,
    count: usize,
    codes: Range<usize>,
    factor: usize,
) -> Result<(), Fail> {
    let mut simplifier = ContourSimplifier::new(row.alloc);
    for code in codes {
        let list = list_of(row.alloc, count, code.wrapping_mul(factor))?;
        let kept = simplifies_as_the_stack_walk(row, &mut simplifier, list.as_slice())?;
        despikes_as_the_ring_walk(row, &mut simplifier, list.as_slice(), kept.as_slice())?;
    }
    Ok(())
}

/// There are 9,331 lists of so few points of the grid.
#[test]
fn every_small_list_is_cleaned_as_by_plain_loops(rt: HostRuntime) -> Result<(), Fail> {
    let row = Row::new(rt.alloc(), "at most five points");
    for (count, codes) in &[(0, 1), (1, 6), (2, 36), (3, 216), (4, 1296), (5, 7776)] {
        are_cleaned_as_by_plain_loops(&row, *count, 0..*codes, 1)?;
    }
    Ok(())
}

/// One of eleven lists of six points is cleaned, or each if the variable LONG_TESTS is set.
#[test]
fn lists_of_six_points_are_cleaned_as_by_plain_loops(rt: HostRuntime) -> Result<(), Fail> {
    let row = Row::new(rt.alloc(), "six points");
    match env::var(&rt, "LONG_TESTS") {
        Ok(_) => are_cleaned_as_by_plain_loops(&row, 6, 0..46656, 1),
        Err(_) => are_cleaned_as_by_plain_loops(&row, 6, 0..4242, 11),
    }
}

/// The codes are spread over all.
#[test]
fn longer_lists_are_cleaned_as_by_plain_loops(rt: HostRuntime) -> Result<(), Fail> {
    let row = Row::new(rt.alloc(), "seven points or more");
    for count in 7..13 {
        are_cleaned_as_by_plain_loops(&row, count, 0..1000, 11400714819323198485)?;
    }
    Ok(())
}
