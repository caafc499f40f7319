//! What no clause of the callers says: that calls succeed if there is memory.

use callers::chain::clean_list;
use callers::consumer::{all_points, count_paths, same_safe_range};
use callers::copies::copied_paths;
use callers::corners::corners;
use callers::pipeline::cleaned_contours;
use i_shape::int::IntPoint;
use i_shape_test_data::given::WholePoint;
use i_shape_test_data::row::Row;
use i_shape_test_data::texts;
use std::test::Fail;

#[test]
fn consumers_answer_from_the_law(rt: HostRuntime) -> Result<(), Fail> {
    let row = Row::new(rt.alloc(), "consumers");
    row.equal(corners(row.alloc)?, 3, "a point on an edge is no corner")?;
    let points = [IntPoint::new(7, 1), IntPoint::new(2, -3)];
    row.equal(count_paths(&points), 1, "paths")?;
    let safe = same_safe_range(&points, points.as_slice());
    row.equal(safe, (true, true), "safe")?;
    row.equal(all_points(&points, row.alloc)?.len(), 2, "points")?;
    let paths = [[WholePoint { x: 7, y: 1 }].to_vec(row.alloc)?];
    let copies = copied_paths(row.alloc, &paths)?;
    row.holds(copies.as_slice() == paths.as_slice(), "copies")
}

#[test]
fn callers_clean_lists_and_contours(rt: HostRuntime) -> Result<(), Fail> {
    let row = Row::new(rt.alloc(), "a square with a spike");
    let left = texts::shapes(row.alloc, "0 0 4 0 4 4 0 4;/")?;
    let mut given = texts::shapes(row.alloc, "0 0 2 0 4 0 9 0 4 0 4 4 0 4;/")?;
    let changed = clean_list(&mut given).unwrap_or(false);
    row.holds(changed && given == left, "what is left")?;
    let row = Row::new(rt.alloc(), "four contours, of which two collapse");
    let given = texts::shape(row.alloc, "0 0 2 0 4 0 4 4 0 4;0 0 0 512 0 1;;1 1 1 3 3 3;")?;
    let kept = cleaned_contours(row.alloc, given.as_slice())?;
    let wanted = texts::shape(row.alloc, "0 0 4 0 4 4 0 4;1 1 1 3 3 3;")?;
    row.holds(kept == wanted, "what is left")
}
