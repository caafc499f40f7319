//! What is measured of a contour: area, winding numbers, its boundary, whether its points are safe.

pub mod area;
pub mod boundary;
pub mod fill_rule;
pub mod heights;
pub mod safe_range;
pub mod winding;
