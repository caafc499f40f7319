//! Whether a polygon is valid if its rings may touch at single points, as the rules of OGC allow.
#![tactic(auto)]

mod circles;
mod marks;
mod middle;
mod nesting;
mod touches;
pub mod validity;

pub use validity::{TouchingValidity, touching_validity_of};
