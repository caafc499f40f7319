//! Shapes and lists without zero turns, and without spikes: as copies, in place, and through a buffer.

use i_shape::int::despike::{DeSpike, DeSpikeShape, DeSpikeShapes};
use i_shape::int::shape::{IntShape, IntShapes};
use i_shape::int::simple::{SimpleShape, SimpleShapes, Simplify};
use i_shape_test_data::row::Row;
use i_shape_test_data::texts;
use i_shape_tool::{clean_through_buffer, despike_through_buffer};
use std::test::Fail;

/// Removing zero turns leaves `left` of the list; in place the call returns whether it changed the list.
fn list_is_simplified(row: &Row<'_>, given: &str, left: &IntShapes<i32>) -> Result<(), Fail> {
    let mut list = texts::shapes(row.alloc, given)?;
    let is_clean = list == *left;
    row.equal(list.as_slice().is_simple(), is_clean, "simple")?;
    let kept = list.as_slice().simplified(row.alloc)?;
    row.holds(kept == *left, "simplified")?;
    let kept = clean_through_buffer(row.alloc, list.as_slice())?;
    row.holds(kept == *left, "simplified through a buffer")?;
    row.equal(list.simplify_contour()?, !is_clean, "what is told")?;
    row.holds(list == *left, "simplified in place")
}

/// The same without spikes.
fn list_is_despiked(row: &Row<'_>, given: &str, left: &IntShapes<i32>) -> Result<(), Fail> {
    let mut list = texts::shapes(row.alloc, given)?;
    let is_clean = list == *left;
    row.equal(list.has_no_spikes(), is_clean, "no spikes")?;
    row.holds(list.despiked_shapes(row.alloc)? == *left, "despiked")?;
    let kept = despike_through_buffer(row.alloc, list.as_slice())?;
    row.holds(kept == *left, "despiked through a buffer")?;
    row.equal(list.remove_spikes()?, !is_clean, "spikes told")?;
    row.holds(list == *left, "despiked in place")
}

/// The answer is the shape of the list, or none if the list has none, and what is left in place is that shape or empty.
fn is_of(answer: Option<IntShape<i32>>, left: &IntShape<i32>, list: &IntShapes<i32>) -> bool {
    match (answer, list.first()) {
        (Some(shape), Some(wanted)) => shape == *wanted && left == wanted,
        (answer, wanted) => answer.is_none() && wanted.is_none() && left.is_empty(),
    }
}

/// The shape is cleaned as the list of it, and is left empty in place if the list is.
fn shape_is_cleaned(
    row: &Row<'_>,
    given: &str,
    simple: &IntShapes<i32>,
    blunt: &IntShapes<i32>,
) -> Result<(), Fail> {
    let mut shape = texts::shape(row.alloc, given)?;
    let answer = shape.as_slice().simplified(row.alloc)?;
    let is_clean = simple.first() == Some(&shape);
    row.equal(shape.as_slice().is_simple(), is_clean, "a simple shape")?;
    row.equal(shape.simplify_contour()?, !is_clean, "a shape told")?;
    row.holds(is_of(answer, &shape, simple), "a simplified shape")?;
    let mut shape = texts::shape(row.alloc, given)?;
    let answer = shape.despiked_shape(row.alloc)?;
    let is_clean = blunt.first() == Some(&shape);
    row.equal(shape.has_no_spikes(), is_clean, "no spikes of a shape")?;
    row.equal(shape.remove_spikes()?, !is_clean, "its spikes told")?;
    row.holds(is_of(answer, &shape, blunt), "a despiked shape")
}

/// All calls clean the list so, and those of a shape, if it has one.
fn is_cleaned(row: &Row<'_>, [given, simple, blunt]: [&str; 3]) -> Result<(), Fail> {
    let (simple, blunt) = (
        texts::shapes(row.alloc, simple)?,
        texts::shapes(row.alloc, blunt)?,
    );
    list_is_simplified(row, given, &simple)?;
    list_is_despiked(row, given, &blunt)?;
    match given.strip_suffix('/') {
        Some(shape) if !shape.contains('/') => shape_is_cleaned(row, shape, &simple, &blunt),
        _ => Ok(()),
    }
}

/// A list, what is left of it without zero turns, and what is left without spikes.
const LISTS: &str = "\
||
/|/|/
-10 -10 -10 10 10 10 10 -10; -5 -5 5 -5 5 5 -5 5;/|-10 -10 -10 10 10 10 10 -10; -5 -5 5 -5 5 5 -5 5;/|-10 -10 -10 10 10 10 10 -10; -5 -5 5 -5 5 5 -5 5;/
-10 -10 -10 10 10 10 10 -10; -5 -5 5 -5 -5 -5;/|-10 -10 -10 10 10 10 10 -10;/|-10 -10 -10 10 10 10 10 -10;/
0 0 4 0 4 4 0 4; 1 1 2 2 3 3;/|0 0 4 0 4 4 0 4;/|0 0 4 0 4 4 0 4;/
0 0 4 0 4 4 0 4; 1 1 2 2 3 3;//|0 0 4 0 4 4 0 4;//|0 0 4 0 4 4 0 4;//
0 0 512 0 1 0;/||
0 0 1 0 1 0 2 0 2 2 0 2 0 0;/|2 0 2 2 0 2 0 0;/|0 0 1 0 1 0 2 0 2 2 0 2 0 0;/
0 0 2 0 4 0 2 0 2 2 0 2; 1 1 2 2 3 3;/|0 0 2 0 2 2 0 2;/|0 0 2 0 2 2 0 2;/
-10 -10 -10 10 10 10 -10 10 -10 -10 10 -10; -5 -5 5 -5 5 5 -5 5; -5 -5 5 -5 5 5 -5 5;/||
-10 -10 -10 10 10 10 -10 10 -10 -10 10 -10; -5 -5 5 -5 5 5 -5 5; -5 -5 5 -5 5 5 -5 5;/-10 -10 -10 10 10 10 10 -10;/|-10 -10 -10 10 10 10 10 -10;/|-10 -10 -10 10 10 10 10 -10;/
-10 -10 -10 10 10 10 -10 10 -10 -10 10 -10; -5 -5 5 -5 5 5 -5 5; -5 -5 5 -5 5 5 -5 5;/-10 -10 -10 10 10 10 -10 10 -10 -10 10 -10; -5 -5 5 -5 5 5 -5 5; -5 -5 5 -5 5 5 -5 5;/||
;/||
/0 0 0 512 0 1;/0 0 4 0 4 4;/|/0 0 4 0 4 4;/|/0 0 4 0 4 4;/
0 0 1 0 1 1;/5 5 6 5 6 6; 7 7 8 7 8 8;/|0 0 1 0 1 1;/5 5 6 5 6 6; 7 7 8 7 8 8;/|0 0 1 0 1 1;/5 5 6 5 6 6; 7 7 8 7 8 8;/";

#[test]
fn lists_and_shapes_are_cleaned(rt: HostRuntime) -> Result<(), Fail> {
    for line in LISTS.lines() {
        let columns: Vec<&str> = line.split('|').collect(rt.alloc())?;
        let [given, simple, blunt] = columns.as_slice() else {
            return Err(Fail::new("a row has three columns"));
        };
        is_cleaned(&Row::new(rt.alloc(), line), [*given, *simple, *blunt])?;
    }
    Ok(())
}

#[test]
fn a_thousand_flat_holes_are_left_out(rt: HostRuntime) -> Result<(), Fail> {
    let mut list = String::from_str(rt.alloc(), "0 0 10 0 10 10 0 10;")?;
    for _ in 0..1000 {
        list.push_str("1 1 2 2 3 3;")?;
    }
    list.push('/')?;
    let left = "0 0 10 0 10 10 0 10;/";
    let row = Row::new(rt.alloc(), "flat holes");
    is_cleaned(&row, [list.as_str(), left, left])
}
