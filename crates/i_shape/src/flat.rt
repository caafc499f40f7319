//! Flat buffers: one list of points, and lists of ranges into it.

pub mod buffer;
pub mod float;
pub(crate) mod lists;
