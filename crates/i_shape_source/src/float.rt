//! Resources of paths over points of any type.
pub mod member;
pub mod nested;
pub mod resource;
