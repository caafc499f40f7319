//! Resources of paths of integer points.
pub mod member;
pub mod nested;
pub mod resource;
pub mod safe_range;
