//! The calls from C, one file for each width.

mod i16;
mod i32;
mod i64;
mod measures;
