//! Contours, shapes and shape lists with integer coordinates, their flat buffers, and iterators over their paths.
#![tactic(auto)]

pub mod base;
pub mod flat;
pub mod int;
pub mod laws;
mod macros;
pub mod source;

pub use i_shape_core::error::ShapeError;
pub use i_shape_core::fill_rule::FillRule;
pub use i_shape_core::number::IntNumber;
