//! Names for lists of points of any kind.

pub mod data;
