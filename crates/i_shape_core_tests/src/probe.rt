//! Three points: the products of the two ways at the second of them, and the turn there.

use i_shape_core::number::IntNumber;
use i_shape_core::point::IntPoint;
use i_shape_core::probe::Probe;
use i_shape_core::turn::Turn;
use i_shape_test_data::given::contour;
use i_shape_test_data::row::Row;
use std::test::Fail;

/// The turn at the second of three points is this one, and counts one visit; one that is skipped counts another.
fn turns<I: IntNumber>(row: &Row<'_>, points: [[I; 2]; 3], wanted: Turn) -> Result<(), Fail> {
    let given = contour(row.alloc, &points)?;
    let mut probe = Probe::new(given.as_slice());
    row.holds(given.len() == 3 && probe.len() == 3, "three points")?;
    let none = probe.visits();
    let turn = probe.turn(0, 1, 2);
    let one = probe.visits();
    probe.skip();
    let (kept, two) = probe.keep(row.alloc, &[2, 0, 2])?;
    row.equal((none, turn, one, two), (0, wanted, 1, 2), "turn, visits")?;
    let wanted = [given[2], given[0], given[2]];
    row.holds(kept.as_slice() == wanted.as_slice(), "keep")
}

/// Three points, the cross product, the dot product and the turn.
const TURNS: [([[i32; 2]; 3], i64, i64, Turn); 8] = [
    ([[0, 0], [2, 0], [2, 3]], 6, 0, Turn::Turning),
    ([[0, 0], [2, 0], [2, -3]], -6, 0, Turn::Turning),
    ([[0, 0], [2, 0], [5, 0]], 0, 6, Turn::Straight),
    ([[0, 0], [2, 0], [1, 0]], 0, -2, Turn::Back),
    ([[0, 0], [2, 0], [0, 0]], 0, -4, Turn::Back),
    ([[0, 0], [0, 0], [1, 4]], 0, 0, Turn::Back),
    ([[3, 1], [5, 5], [5, 5]], 0, 0, Turn::Back),
    ([[1, 1], [3, 5], [4, 7]], 0, 10, Turn::Straight),
];

#[test]
fn a_turn_is_told_by_its_three_points(rt: HostRuntime) -> Result<(), Fail> {
    for (points, cross, dot, turn) in &TURNS {
        let row = Row::new(rt.alloc(), "three points");
        turns::<i32>(&row, *points, *turn)?;
        let [[ax, ay], [bx, by], [cx, cy]] = *points;
        let first = IntPoint::new(bx.wrapping_sub(ax), by.wrapping_sub(ay));
        let second = IntPoint::new(cx.wrapping_sub(bx), cy.wrapping_sub(by));
        row.holds(i32::MIN < first.x, "too long for the product")?;
        row.equal(first.cross_product(second), *cross, "cross")?;
        row.equal(first.dot_product(second), *dot, "dot")?;
    }
    Ok(())
}

#[test]
fn the_widest_turn_of_16_bits(rt: HostRuntime) -> Result<(), Fail> {
    let row = Row::new(rt.alloc(), "the widest");
    let far: i16 = 16383;
    turns::<i16>(&row, [[-far, -far], [far, far], [far, -far]], Turn::Turning)?;
    let first = IntPoint::new(far, far) - IntPoint::new(-far, -far);
    let second = IntPoint::new(far, -far) - IntPoint::new(far, far);
    row.equal(first.cross_product(second), -1073610756, "cross")?;
    row.equal(first.dot_product(second), -1073610756, "dot")
}
