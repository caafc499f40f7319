//! How many pairs of points the search for the least rotation compares.

use i_shape_core::canonical::least_start_counted;
use i_shape_test_data::given::contour;
use i_shape_test_data::plain::Pair;
use i_shape_test_data::row::Row;
use std::alloc::{AllocError, Global};
use std::cmp::Ordering;
use std::test::Fail;

/// The order of the rotations of a list from two places, and the number of pairs of points that decide it.
fn compared(list: &[Pair], one: usize, other: usize) -> (usize, Ordering) {
    let count = list.len();
    for step in 0..count {
        let ours = list[one.wrapping_add(step) % count];
        let theirs = list[other.wrapping_add(step) % count];
        let order = ours.cmp(&theirs);
        if order != Ordering::Equal {
            return (step + 1, order);
        }
    }
    (count, Ordering::Equal)
}

/// Where the least rotation starts, and the number of pairs compared: each start in turn is compared with the best so
/// far, and the one that loses rules out the starts up to where it lost.
fn plain_search(list: &[Pair]) -> (usize, u128) {
    let count = list.len();
    let mut best = 0;
    let mut next = 1;
    let mut pairs: u128 = 0;
    for _ in 0..count {
        if next >= count {
            break;
        }
        let (told, order) = compared(list, best, next);
        pairs = pairs.wrapping_add(told as u128);
        match order {
            Ordering::Equal => break,
            Ordering::Less => next = next.wrapping_add(told),
            Ordering::Greater => {
                best = next.max(best.wrapping_add(told));
                next = best.wrapping_add(1);
            }
        }
    }
    (best, pairs)
}

/// The list of so many points on a line whose x are the digits of the code to base 3.
fn list_of(alloc: Global, count: usize, code: usize) -> Result<Vec<Pair>, AllocError> {
    let mut list = Vec::new(alloc);
    let mut rest = code;
    for _ in 0..count {
        list.push([(rest % 3) as i32, 0])?;
        rest = rest / 3;
    }
    Ok(list)
}

/// Each list of one to six such points.
#[test]
fn comparisons_of_each_short_list_are_those_of_a_plain_loop(rt: HostRuntime) -> Result<(), Fail> {
    for (count, codes) in &[(1, 3), (2, 9), (3, 27), (4, 81), (5, 243), (6, 729)] {
        for code in 0..*codes {
            let row = Row::new(rt.alloc(), "a short list");
            let list = list_of(row.alloc, *count, code)?;
            let points = contour::<i32>(row.alloc, list.as_slice())?;
            row.holds(!points.is_empty(), "a point")?;
            let found = least_start_counted(points.as_slice());
            row.equal(found, plain_search(list.as_slice()), "the search")?;
        }
    }
    Ok(())
}
