//! Contacts of edges of a contour, or of several rings: they touch, cross or overlap.

use i_shape_contacts::course::{Cycle, Rings};
use i_shape_contacts::plain::{self, Contact};
use i_shape_contacts::{
    Validity, do_divide, first_contact, first_contact_of_rings, is_simple_polygon, validity_of,
};
use i_shape_core::number::IntNumber;
use i_shape_core::point::IntPoint;
use i_shape_source::int::safe_range::IntSafeRange;
use i_shape_test_data::given::{contour, reversed, rotated};
use i_shape_test_data::row::Row;
use i_shape_test_data::texts;
use std::alloc::{AllocError, Global};
use std::test::Fail;

/// A contact as a pair of edges.
fn pair(contact: Option<Contact>) -> Option<[usize; 2]> {
    contact.map(|it| [it.first, it.second])
}

/// Contours, their first contact, and whether they are the boundary of a simple polygon.
const CONTOURS: [(&str, Option<[usize; 2]>, bool); 27] = [
    ("", None, false),
    ("1 2", None, false),
    ("1 2 3 4", Some([0, 1]), false),
    ("1 2 1 2", None, false),
    ("0 0 0 0 0 0", None, false),
    ("0 0 0 0 0 0 0 0", Some([0, 2]), false),
    ("0 0 0 0 4 0", Some([1, 2]), false),
    ("0 0 4 0 2 2", None, true),
    ("0 0 4 0 2 0", Some([0, 1]), false),
    ("0 0 2 0 4 0", Some([0, 2]), false),
    ("0 0 0 4 0 2", Some([0, 1]), false),
    ("0 0 4 0 4 4 0 4", None, true),
    ("0 0 4 4 4 0 0 4", Some([0, 2]), false),
    ("0 0 4 0 4 4 0 4 0 0", Some([0, 3]), false),
    ("0 0 4 0 4 0 4 4 0 4", Some([0, 2]), false),
    ("0 0 2 0 4 0 4 4 0 4", None, true),
    ("0 0 4 0 4 4 2 0 0 4", Some([0, 2]), false),
    ("0 0 4 0 4 4 2 4 2 0 0 4", Some([0, 3]), false),
    ("0 0 4 0 4 4 2 -1 0 4", Some([0, 2]), false),
    ("0 0 6 0 3 0 3 3", Some([0, 1]), false),
    ("0 0 0 6 0 3 3 3", Some([0, 1]), false),
    ("0 0 4 0 4 4 6 4 4 4 0 4", Some([1, 3]), false),
    ("0 0 4 0 4 4 0 4 0 -2", Some([0, 3]), false),
    ("0 0 4 0 4 4 0 4 0 2 -2 2 0 2", Some([3, 5]), false),
    ("1 0 4 0 4 4 0 4 0 1 3 1 3 3 1 3", Some([4, 7]), false),
    ("0 0 3 0 3 3 6 3 6 6 3 6 3 3 0 3", Some([1, 5]), false),
    ("0 0 8 0 8 2 1 1 7 1 0 2", Some([2, 4]), false),
];

#[test]
fn first_contacts_of_contours(rt: HostRuntime) -> Result<(), Fail> {
    for (list, wanted, is_simple) in &CONTOURS {
        let row = Row::new(rt.alloc(), *list);
        let given = texts::contour(row.alloc, *list)?;
        let found = pair(first_contact(row.alloc, given.as_slice()));
        row.equal(found, *wanted, "the first contact")?;
        let answer = is_simple_polygon(row.alloc, given.as_slice());
        row.equal(answer, *is_simple, "a simple polygon")?;
    }
    Ok(())
}

/// Whether the contour has a contact, and is the boundary of a simple polygon.
fn answers(row: &Row<'_>, list: &[[i32; 2]]) -> Result<(bool, bool), Fail> {
    let given = contour::<i32>(row.alloc, list)?;
    let points = given.as_slice();
    let found = first_contact(row.alloc, points).is_some();
    Ok((found, is_simple_polygon(row.alloc, points)))
}

#[test]
fn starts_and_directions_keep_contacts(rt: HostRuntime) -> Result<(), Fail> {
    for (name, contact, is_simple) in &CONTOURS {
        let row = Row::new(rt.alloc(), *name);
        let list = texts::points(row.alloc, *name)?;
        let wanted = (contact.is_some(), *is_simple);
        for start in 0..list.len() {
            let turned = rotated(row.alloc, list.as_slice(), start)?;
            row.equal(
                answers(&row, turned.as_slice())?,
                wanted,
                "from another start",
            )?;
        }
        let backwards = reversed(row.alloc, list.as_slice())?;
        row.equal(answers(&row, backwards.as_slice())?, wanted, "backwards")?;
    }
    Ok(())
}

/// The number that is so many eighths of the way between two, times eight.
fn on_way(from: i32, to: i32, share: i32) -> i32 {
    let way = to.wrapping_sub(from).wrapping_mul(share);
    from.wrapping_mul(8).wrapping_add(way)
}

/// The contour, eight times as large, with seven points more on each edge.
fn refined(alloc: Global, list: &[[i32; 2]]) -> Result<Vec<[i32; 2]>, AllocError> {
    let mut points = Vec::new(alloc);
    for place in 0..list.len() {
        let next = if place + 1 < list.len() { place + 1 } else { 0 };
        let ([a, b], [c, d]) = (list[place], list[next]);
        for share in 0..8 {
            points.push([on_way(a, c, share), on_way(b, d, share)])?;
        }
    }
    Ok(points)
}

#[test]
fn many_points_are_tried_as_all_pairs_are(rt: HostRuntime) -> Result<(), Fail> {
    for (name, _, is_simple) in &CONTOURS {
        let row = Row::new(rt.alloc(), *name);
        let list = texts::points(row.alloc, *name)?;
        let finer = refined(row.alloc, list.as_slice())?;
        let given = contour::<i32>(row.alloc, finer.as_slice())?;
        let points = given.as_slice();
        let count = points.len();
        let wanted = pair(plain::first_contact_by(points, Cycle { count }));
        row.equal(
            pair(first_contact(row.alloc, points)),
            wanted,
            "the first contact",
        )?;
        row.equal(
            is_simple_polygon(row.alloc, points),
            *is_simple,
            "a simple polygon",
        )?;
    }
    Ok(())
}

/// Contours at the corners of the safe range, and their first contact. Of a coordinate 0 is the least number, 3 the
/// greatest, and 1 and 2 are the numbers beside them.
const CORNERS: [([[u8; 2]; 4], Option<[usize; 2]>); 7] = [
    ([[0, 0], [3, 0], [3, 3], [0, 3]], None),
    ([[0, 0], [3, 3], [3, 0], [0, 3]], Some([0, 2])),
    ([[0, 0], [3, 3], [2, 3], [0, 1]], None),
    ([[0, 0], [3, 3], [2, 3], [1, 1]], Some([0, 2])),
    ([[0, 0], [3, 2], [3, 3], [1, 1]], None),
    ([[0, 2], [0, 0], [3, 0], [0, 1]], Some([0, 2])),
    ([[0, 0], [3, 0], [3, 3], [1, 0]], Some([0, 2])),
];

/// One of four numbers.
fn number<I: IntNumber>([least, low, high, most]: [I; 4], place: u8) -> I {
    match place {
        0 => least,
        1 => low,
        2 => high,
        _ => most,
    }
}

/// The first contacts of the contours at the corners of the safe range, of which these are the numbers.
fn corners<I: IntNumber>(row: &Row<'_>, numbers: [I; 4]) -> Result<(), Fail> {
    for (places, wanted) in &CORNERS {
        let mut list = Vec::new(row.alloc);
        for [x, y] in places {
            list.push([number(numbers, *x), number(numbers, *y)])?;
        }
        let given = contour::<I>(row.alloc, list.as_slice())?;
        let found = pair(first_contact(row.alloc, given.as_slice()));
        row.equal(found, *wanted, "at the corners")?;
    }
    Ok(())
}

#[test]
fn contacts_at_the_corners_of_each_width(rt: HostRuntime) -> Result<(), Fail> {
    let row = Row::new(rt.alloc(), "16 bits");
    corners::<i16>(&row, [-16383, -16382, 16382, 16383])?;
    let row = Row::new(rt.alloc(), "32 bits");
    let m: i32 = 1073741823;
    corners::<i32>(&row, [-m, 1 - m, m - 1, m])?;
    let row = Row::new(rt.alloc(), "64 bits");
    let m: i64 = 4611686018427387903;
    corners::<i64>(&row, [-m, 1 - m, m - 1, m])
}

/// The first contact of rings, by the call and by all pairs.
fn of_rings(
    row: &Row<'_>,
    points: &[IntPoint<i32>],
    offsets: &[usize],
) -> Result<[Option<[usize; 2]>; 2], Fail> {
    row.holds(points.is_in_safe_range(), "safe points")?;
    row.holds(do_divide(offsets, points.len()), "rings")?;
    Ok([
        pair(first_contact_of_rings(row.alloc, points, offsets)),
        pair(plain::first_contact_by(points, Rings { offsets })),
    ])
}

/// Points, the offsets that divide them into rings, and the first contact.
const RINGS: [(&str, &str, Option<[usize; 2]>); 21] = [
    ("", "0", None),
    ("", "0 0 0", None),
    ("1 2", "0 1", None),
    ("1 2 1 2", "0 1 2", Some([0, 1])),
    ("1 2 3 4", "0 1 2", None),
    ("1 2 3 4", "0 2", Some([0, 1])),
    ("0 0 4 0 4 4 0 4 2 0", "0 4 5", Some([0, 4])),
    ("0 0 4 0 4 4 0 4 2 1", "0 4 5", None),
    ("0 0 4 0 4 4 0 4 0 2", "0 4 4 5", Some([3, 4])),
    ("2 0 0 0 4 0 4 4 0 4", "0 1 5", Some([0, 1])),
    ("0 0 8 0 8 8 0 8 0 4 2 3 2 5", "0 4 7", Some([3, 4])),
    ("0 0 8 0 8 8 0 8 8 8 2 3 2 5", "0 4 7", Some([1, 4])),
    ("0 0 8 0 8 8 0 8 2 2 2 4 4 4 4 2", "0 4 8", None),
    ("0 0 8 0 8 8 0 8 2 2 2 9 4 4", "0 4 7", Some([2, 4])),
    ("0 0 8 0 8 8 0 8 2 2 4 4", "0 4 6", Some([4, 5])),
    ("0 0 4 0 4 4 0 4 4 0 8 0 8 4 4 4", "0 4 8", Some([0, 4])),
    ("0 0 4 0 4 4 0 4 4 1 8 1 8 2 4 2", "0 4 8", Some([1, 4])),
    ("0 0 4 0 4 4 0 4 0 0 4 0 4 4 0 4", "0 4 8", Some([0, 4])),
    ("2 0 2 9 0 1 4 1", "0 1 2 4", Some([2, 3])),
    ("1 1 3 3 2 2", "0 2 3", Some([0, 1])),
    ("5 5 5 5 5 5 6 6 6 6", "0 3 5", None),
];

#[test]
fn first_contacts_of_rings(rt: HostRuntime) -> Result<(), Fail> {
    for (list, parts, wanted) in &RINGS {
        let row = Row::new(rt.alloc(), *list);
        let given = texts::contour(row.alloc, *list)?;
        let parts = texts::offsets(row.alloc, *parts)?;
        let found = of_rings(&row, given.as_slice(), parts.as_slice())?;
        row.equal(found, [*wanted, *wanted], "the first contact")?;
    }
    Ok(())
}

/// Points, the offsets that divide them into a polygon's rings, and its first fault.
const POLYGONS: [(&str, &str, Validity); 17] = [
    ("", "0", Validity::Valid),
    ("0 0 8 0 8 8 0 8", "0 4", Validity::Valid),
    ("0 0 8 0 8 8 0 8 2 2 2 4 4 4 4 2", "0 4 8", Validity::Valid),
    ("0 0 0 8 8 8 8 0 2 2 2 4 4 4 4 2", "0 4 8", Validity::Valid),
    (
        "0 0 9 0 9 9 0 9 1 1 1 3 3 3 3 1 4 4 6 4 6 6 4 6",
        "0 4 8 12",
        Validity::Valid,
    ),
    ("", "0 0", Validity::TooFewPoints { contour: 0 }),
    ("0 0 8 0", "0 2", Validity::TooFewPoints { contour: 0 }),
    (
        "0 0 8 0 8 8 0 8 2 2 2 2 2 2",
        "0 4 7",
        Validity::TooFewPoints { contour: 1 },
    ),
    (
        "0 0 8 8 8 0 0 8 2 2 2 4",
        "0 4 6",
        Validity::TooFewPoints { contour: 1 },
    ),
    (
        "0 0 8 8 8 0 0 8 9 9 9 10 10 10",
        "0 4 7",
        Validity::Contact(Contact {
            first: 0,
            second: 2,
        }),
    ),
    (
        "0 0 8 0 8 8 0 8 0 4 2 3 2 5",
        "0 4 7",
        Validity::Contact(Contact {
            first: 3,
            second: 4,
        }),
    ),
    (
        "0 0 8 0 8 8 0 8 9 2 9 4 11 4 11 2",
        "0 4 8",
        Validity::HoleOutside { contour: 1 },
    ),
    (
        "2 2 4 2 4 4 2 4 0 0 8 0 8 8 0 8",
        "0 4 8",
        Validity::HoleOutside { contour: 1 },
    ),
    (
        "0 0 9 0 9 9 0 9 1 1 7 1 7 7 1 7 2 2 2 4 4 4 4 2 10 2 10 4 12 4",
        "0 4 8 12 15",
        Validity::HoleOutside { contour: 3 },
    ),
    (
        "0 0 9 0 9 9 0 9 1 1 7 1 7 7 1 7 2 2 2 4 4 4 4 2",
        "0 4 8 12",
        Validity::HoleWithin {
            contour: 2,
            other: 1,
        },
    ),
    (
        "0 0 9 0 9 9 0 9 2 2 2 4 4 4 4 2 1 1 7 1 7 7 1 7",
        "0 4 8 12",
        Validity::HoleWithin {
            contour: 1,
            other: 2,
        },
    ),
    (
        "0 0 9 0 9 9 0 9 1 1 8 1 8 8 1 8 2 2 2 7 7 7 7 2 3 3 6 3 6 6 3 6",
        "0 4 8 12 16",
        Validity::HoleWithin {
            contour: 2,
            other: 1,
        },
    ),
];

#[test]
fn first_faults_of_polygons(rt: HostRuntime) -> Result<(), Fail> {
    for (list, parts, wanted) in &POLYGONS {
        let row = Row::new(rt.alloc(), *list);
        let given = texts::contour(row.alloc, *list)?;
        let parts = texts::offsets(row.alloc, *parts)?;
        let (points, parts) = (given.as_slice(), parts.as_slice());
        row.holds(points.is_in_safe_range(), "safe points")?;
        row.holds(do_divide(parts, points.len()), "rings")?;
        let found = validity_of(row.alloc, points, parts);
        row.equal(found, *wanted, "the first fault")?;
    }
    Ok(())
}

/// Squares of a grid, eight in a row, in an order that jumps. The one at place `wide` touches the square beside it.
fn squares(alloc: Global, wide: usize) -> Result<Vec<[i32; 2]>, AllocError> {
    let mut points = Vec::new(alloc);
    for step in 0..64_usize {
        let place = step * 27 % 64;
        let x = i32::from((place % 8) as u8) * 10;
        let y = i32::from((place / 8) as u8) * 10;
        let end = if place == wide { x + 10 } else { x + 6 };
        points.extend_from_slice(&[[x, y], [end, y], [end, y + 6], [x, y + 6]])?;
    }
    Ok(points)
}

#[test]
fn many_rings_are_tried_as_all_pairs_are(rt: HostRuntime) -> Result<(), Fail> {
    let alloc = rt.alloc();
    let row = Row::new(alloc, "squares of a grid");
    let mut parts = Vec::new(alloc);
    for place in 0..65_usize {
        parts.push(4 * place)?;
    }
    for wide in 0..65_usize {
        let list = squares(alloc, wide)?;
        let given = contour::<i32>(row.alloc, list.as_slice())?;
        let [found, wanted] = of_rings(&row, given.as_slice(), parts.as_slice())?;
        row.equal(found, wanted, "the first contact")?;
        row.equal(found.is_some(), wide % 8 != 7 && wide < 64, "a contact")?;
    }
    Ok(())
}

/// Offsets, a number of points, and whether the offsets divide so many.
const PARTS: [(&str, usize, bool); 9] = [
    ("", 0, false),
    ("0", 0, true),
    ("0", 1, false),
    ("1", 1, false),
    ("0 2 1", 1, false),
    ("0 0 3 3", 3, true),
    ("0 3", 2, false),
    ("1 3", 3, false),
    ("0 1 3", 3, true),
];

#[test]
fn offsets_divide_points_or_do_not(rt: HostRuntime) -> Result<(), Fail> {
    for (parts, count, wanted) in &PARTS {
        let row = Row::new(rt.alloc(), *parts);
        let parts = texts::offsets(row.alloc, *parts)?;
        row.equal(do_divide(parts.as_slice(), *count), *wanted, "divide")?;
    }
    Ok(())
}
