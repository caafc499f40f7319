//! Borrowed paths.

pub mod float;
pub mod int;
