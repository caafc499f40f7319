//! Tests and areas of many contours, one file for each width.

mod i16;
mod i32;
mod i64;
