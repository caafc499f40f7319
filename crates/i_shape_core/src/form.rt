//! Canonical forms: the least rotation of a contour, in its direction or in either.

pub mod canonical;
mod comparer;
pub(crate) mod unoriented;
