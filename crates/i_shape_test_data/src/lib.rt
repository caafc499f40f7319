//! Contours for tests, and plain loops over lists of points.
#![tactic(auto)]

pub mod given;
pub mod plain;
pub mod row;
pub mod texts;
