//! Contacts of edges, by calls that can do without memory.

use crate::given::{SQUARE, points, safe};
use crate::told::{answered, begun, call, ended, spared};
use i_shape::ShapeError;
use i_shape::int::IntPoint;
use i_shape_contacts::{
    Contact, contacts, contacts_of_rings, do_divide, first_contact, first_contact_of_rings,
    is_simple_polygon, validity_of,
};
use i_shape_touching::touching_validity_of;

/// Steps, of which the last edge touches one before it.
const STEPS: [IntPoint<i32>; 18] = points![
    [0, 0],
    [2, 0],
    [2, 2],
    [4, 2],
    [4, 4],
    [6, 4],
    [6, 6],
    [8, 6],
    [8, 8],
    [7, 8],
    [7, 7],
    [5, 7],
    [5, 5],
    [3, 5],
    [3, 3],
    [1, 3],
    [1, 1],
    [2, 1]
];

/// The points of `STEPS` without the last two.
const CLEAR: usize = 16;

/// A square, a hole, and a hole in it.
const NESTED: [IntPoint<i32>; 12] = points![
    [0, 0],
    [9, 0],
    [9, 9],
    [0, 9],
    [1, 1],
    [8, 1],
    [8, 8],
    [1, 8],
    [3, 3],
    [5, 3],
    [5, 5],
    [3, 5]
];

/// Room for two contacts.
const BLANK: [Contact; 2] = [Contact {
    first: 0,
    second: 0,
}; 2];

#[test]
fn meetings_of_a_contour(rt: HostRuntime) {
    let alloc = rt.alloc();
    let points = safe(&rt, STEPS.as_slice());
    spared!(rt, "first_contact" => first_contact(alloc, points));
    spared!(rt, "is_simple_polygon" => is_simple_polygon(alloc, points));
    let clear = safe(&rt, &STEPS[..CLEAR]);
    spared!(rt, "first_contact of a contour without one" => first_contact(alloc, clear));
    let few = safe(&rt, SQUARE.as_slice());
    spared!(rt, "first_contact of few points" => first_contact(alloc, few));
    let mut out = BLANK;
    spared!(rt, "contacts" => contacts(alloc, points, out.as_mut_slice()));
}

/// A square, and a hole that touches it.
const TOUCHING: [IntPoint<i32>; 7] = points![
    [0, 0],
    [8, 0],
    [8, 8],
    [0, 8],
    [0, 4],
    [2, 3],
    [2, 5]
];

#[test]
fn rings_that_touch(rt: HostRuntime) {
    let alloc = rt.alloc();
    let points = safe(&rt, TOUCHING.as_slice());
    let offsets = [0, 4, TOUCHING.len()];
    let offsets = offsets.as_slice();
    assert!(rt; do_divide(offsets, points.len()), "offsets");
    call!(rt, "touching_validity_of" => touching_validity_of(alloc, points, offsets).or(Err(ShapeError::OutOfMemory)));
    let points = safe(&rt, &TOUCHING[..4]);
    let offsets = [0, 4];
    let offsets = offsets.as_slice();
    assert!(rt; do_divide(offsets, points.len()), "offsets");
    call!(rt, "touching_validity_of a square" => touching_validity_of(alloc, points, offsets).or(Err(ShapeError::OutOfMemory)));
}

/// Rings of a point each.
const RINGS: usize = 64;

#[test]
fn meetings_of_rings(rt: HostRuntime) {
    let alloc = rt.alloc();
    let mut points = [IntPoint { x: 0, y: 0 }; RINGS];
    let mut offsets = [0; RINGS + 1];
    for place in 0..RINGS {
        points[place] = IntPoint {
            x: (place % 8) as i32,
            y: (place / 9) as i32,
        };
        offsets[place + 1] = place + 1;
    }
    let points = safe(&rt, points.as_slice());
    let offsets = offsets.as_slice();
    assert!(rt; do_divide(offsets, points.len()), "offsets");
    spared!(rt, "first_contact_of_rings" => first_contact_of_rings(alloc, points, offsets));
    let few = safe(&rt, SQUARE.as_slice());
    let mut offsets = [few.len(); RINGS + 1];
    offsets[0] = 0;
    let offsets = offsets.as_slice();
    assert!(rt; do_divide(offsets, few.len()), "offsets");
    spared!(rt, "first_contact_of_rings of few points" => first_contact_of_rings(alloc, few, offsets));
    let few = safe(&rt, STEPS.as_slice());
    let offsets = [0, 9, STEPS.len()];
    let offsets = offsets.as_slice();
    assert!(rt; do_divide(offsets, few.len()), "offsets");
    spared!(rt, "first_contact_of_rings of few rings" => first_contact_of_rings(alloc, few, offsets));
    spared!(rt, "validity_of" => validity_of(alloc, few, offsets));
    let nested = safe(&rt, NESTED.as_slice());
    let offsets = [0, 4, 8, NESTED.len()];
    let offsets = offsets.as_slice();
    assert!(rt; do_divide(offsets, nested.len()), "offsets");
    spared!(rt, "validity_of with two holes" => validity_of(alloc, nested, offsets));
    let offsets = [0, 9, STEPS.len()];
    let offsets = offsets.as_slice();
    let mut out = BLANK;
    spared!(rt, "contacts_of_rings" => contacts_of_rings(alloc, few, offsets, out.as_mut_slice()));
}
