//! Polygons whose rings may touch at single points.

use i_shape_contacts::{Contact, do_divide};
use i_shape_source::int::safe_range::IntSafeRange;
use i_shape_test_data::row::Row;
use i_shape_test_data::texts;
use i_shape_touching::{TouchingValidity, touching_validity_of};
use std::test::Fail;

/// Points, the offsets that divide them into a polygon's rings, and its first fault.
const POLYGONS: [(&str, &str, TouchingValidity); 23] = [
    ("0 0 8 0 8 8 0 8", "0 4", TouchingValidity::Valid),
    (
        "0 0 8 0 8 8 0 8 2 2 2 4 4 4 4 2",
        "0 4 8",
        TouchingValidity::Valid,
    ),
    (
        "0 0 8 0 8 8 0 8 0 4 2 3 2 5",
        "0 4 7",
        TouchingValidity::Valid,
    ),
    (
        "0 0 8 0 8 8 0 8 0 8 2 3 3 5",
        "0 4 7",
        TouchingValidity::Valid,
    ),
    (
        "0 0 9 0 9 9 0 9 2 2 4 2 4 4 4 4 6 4 6 6",
        "0 4 7 10",
        TouchingValidity::Valid,
    ),
    (
        "0 0 9 0 9 9 0 9 4 4 1 5 1 3 4 4 3 1 5 1 4 4 7 3 7 5",
        "0 4 7 10 13",
        TouchingValidity::Valid,
    ),
    (
        "0 0 8 0 8 8 4 4 0 8 4 4 3 1 5 1",
        "0 5 8",
        TouchingValidity::Valid,
    ),
    ("", "0 0", TouchingValidity::TooFewPoints { contour: 0 }),
    (
        "0 0 8 0 8 8 0 8 2 2 2 2 2 2",
        "0 4 7",
        TouchingValidity::TooFewPoints { contour: 1 },
    ),
    (
        "0 0 8 8 8 0 0 8",
        "0 4",
        TouchingValidity::Contact(Contact {
            first: 0,
            second: 2,
        }),
    ),
    (
        "0 0 8 0 8 8 0 8 1 1 9 4 1 7",
        "0 4 7",
        TouchingValidity::Contact(Contact {
            first: 1,
            second: 4,
        }),
    ),
    (
        "0 0 8 0 8 8 0 8 2 0 4 0 3 2",
        "0 4 7",
        TouchingValidity::Contact(Contact {
            first: 0,
            second: 4,
        }),
    ),
    (
        "0 0 4 0 4 4 0 4 0 0 4 0 4 4 0 4",
        "0 4 8",
        TouchingValidity::Contact(Contact {
            first: 0,
            second: 4,
        }),
    ),
    (
        "0 0 8 0 4 4 2 0 1 3",
        "0 5",
        TouchingValidity::Contact(Contact {
            first: 0,
            second: 2,
        }),
    ),
    (
        "0 0 8 0 8 8 0 8 9 2 9 4 11 4",
        "0 4 7",
        TouchingValidity::HoleOutside { contour: 1 },
    ),
    (
        "0 0 8 0 8 8 4 4 0 8 4 4 2 7 6 7",
        "0 5 8",
        TouchingValidity::HoleOutside { contour: 1 },
    ),
    (
        "0 0 8 0 8 8 6 4 4 8 2 4 0 8 2 4 2 2 6 2 6 4 4 9",
        "0 7 12",
        TouchingValidity::HoleOutside { contour: 1 },
    ),
    (
        "0 0 9 0 9 9 6 9 6 3 3 3 3 9 0 9 6 5 3 7 4 3",
        "0 8 11",
        TouchingValidity::HoleOutside { contour: 1 },
    ),
    (
        "0 0 9 0 9 9 0 9 1 1 7 1 7 7 1 7 1 3 3 2 3 4",
        "0 4 8 11",
        TouchingValidity::HoleWithin {
            contour: 2,
            other: 1,
        },
    ),
    (
        "0 0 9 0 9 9 0 9 1 3 3 2 3 4 1 1 7 1 7 7 1 7",
        "0 4 7 11",
        TouchingValidity::HoleWithin {
            contour: 1,
            other: 2,
        },
    ),
    (
        "0 0 8 0 8 8 0 8 0 4 8 4 4 6",
        "0 4 7",
        TouchingValidity::Disconnected(Contact {
            first: 1,
            second: 4,
        }),
    ),
    (
        "0 0 9 0 9 9 0 9 2 2 6 2 4 4 6 6 2 6 6 2 7 4 6 6",
        "0 4 9 12",
        TouchingValidity::Disconnected(Contact {
            first: 6,
            second: 10,
        }),
    ),
    (
        "0 0 9 0 9 9 0 9 1 1 4 1 4 2 4 2 7 4 6 5 6 5 1 6 1 1",
        "0 4 7 10 13",
        TouchingValidity::Disconnected(Contact {
            first: 8,
            second: 10,
        }),
    ),
];

#[test]
fn first_faults_where_rings_may_touch(rt: HostRuntime) -> Result<(), Fail> {
    for (list, parts, wanted) in &POLYGONS {
        let row = Row::new(rt.alloc(), *list);
        let given = texts::contour(row.alloc, *list)?;
        let parts = texts::offsets(row.alloc, *parts)?;
        let (points, parts) = (given.as_slice(), parts.as_slice());
        row.holds(points.is_in_safe_range(), "safe points")?;
        row.holds(do_divide(parts, points.len()), "rings")?;
        let found = touching_validity_of(row.alloc, points, parts)?;
        row.equal(found, *wanted, "the first fault")?;
    }
    Ok(())
}
