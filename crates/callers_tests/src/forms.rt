//! The forms of contours, shapes and lists, and stores by form.

use callers::polygons::PolygonStore;
use callers::store::{CanonicalStore, Insertion};
use i_shape::int::canonical::{CanonicalShape, CanonicalShapes};
use i_shape::int::simple::SimpleContour;
use i_shape_test_data::row::Row;
use i_shape_test_data::texts;
use std::test::Fail;

/// A shape, its form, and its form either way round. The holes of the first are out of order, and its outer contour has
/// a point on an edge.
const FORMS: [[&str; 3]; 2] = [
    [
        "10 0 10 10 0 10 0 0 5 0; 8 6 6 6 6 8 7 7; 2 4 4 2 2 2; 1 1 2 2 3 3;",
        "0 0 10 0 10 10 0 10; 2 2 2 4 4 2; 6 6 6 8 8 6;",
        "0 0 0 10 10 10 10 0; 2 2 2 4 4 2; 6 6 6 8 8 6;",
    ],
    ["", "", ""],
];

#[test]
fn forms_of_shapes(rt: HostRuntime) -> Result<(), Fail> {
    let alloc = rt.alloc();
    for [name, form, either] in &FORMS {
        let row = Row::new(alloc, *name);
        let given = texts::shape(row.alloc, *name)?;
        let kept = given.as_slice().canonical(alloc)?.ok_or("it collapsed")?;
        row.holds(kept == texts::shape(row.alloc, *form)?, "the form")?;
        let kept = given
            .as_slice()
            .canonical_unoriented(alloc)?
            .ok_or("it collapsed")?;
        row.holds(
            kept == texts::shape(row.alloc, *either)?,
            "either way round",
        )?;
    }
    Ok(())
}

/// Shapes are sorted, and those whose outer contour collapses are left out.
#[test]
fn forms_of_lists(rt: HostRuntime) -> Result<(), Fail> {
    let row = Row::new(rt.alloc(), "a list");
    let given = "8 6 6 6 6 8 7 7;/1 1 2 2 3 3; 2 4 4 2 2 2;/2 4 4 2 2 2;//";
    let list = texts::shapes(row.alloc, given)?;
    let wanted = texts::shapes(row.alloc, "/2 2 2 4 4 2;/6 6 6 8 8 6;/")?;
    row.holds(list.as_slice().canonical(row.alloc)? == wanted, "the form")?;
    let kept = list.as_slice().canonical_unoriented(row.alloc)?;
    row.holds(kept == wanted, "the form either way round")
}

#[test]
fn the_form_of_a_contour_either_way_round(rt: HostRuntime) -> Result<(), Fail> {
    let row = Row::new(rt.alloc(), "a square");
    let given = texts::contour(row.alloc, "10 0 10 10 0 10 0 0 5 0")?;
    let form = given.as_slice().canonical_unoriented(row.alloc)?;
    texts::leaves(&row, form, "0 0 0 10 10 10 10 0", "the form")
}

/// A store has what was inserted, and what is joined to it.
#[test]
fn joined_contours_are_one_in_a_store(rt: HostRuntime) -> Result<(), Fail> {
    let row = Row::new(rt.alloc(), "a spike, and the same from another start");
    let given = texts::contour(row.alloc, "6 0 0 0 2 0 1 0 1 5")?;
    let joined = texts::contour(row.alloc, "2 0 1 0 1 5 6 0 0 0")?;
    let mut store = CanonicalStore::new(rt.alloc());
    let answer = store.insert(given.as_slice())?;
    row.equal(answer, Insertion::New, "a contour")?;
    row.holds(store.contains(joined.as_slice())?, "a joined contour")
}

/// The same of polygons.
#[test]
fn same_polygons_are_one_in_a_store(rt: HostRuntime) -> Result<(), Fail> {
    let row = Row::new(rt.alloc(), "two polygons");
    let given = texts::shape(row.alloc, "6 0 0 0 2 0 1 0 1 5;")?;
    let same = texts::shape(row.alloc, "2 0 1 0 1 5 6 0 0 0;")?;
    let mut store = PolygonStore::new(rt.alloc());
    let answer = store.insert(given.as_slice())?;
    row.equal(answer, Insertion::New, "a polygon")?;
    row.holds(store.contains(same.as_slice())?, "the same polygon")
}
