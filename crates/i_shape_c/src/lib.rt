//! What the calls for C do: cleaners, tests and measures of contours, whose points and results lie in the caller's
//! arrays. Each checks its preconditions, and returns a code if one isn't met.
#![tactic(auto)]

pub mod area;
pub mod batch;
pub mod canonical;
pub mod codes;
pub mod compact;
pub mod contacts;
pub mod contour;
mod edges;
pub mod features;
pub mod forms;
pub mod holders;
pub mod kinds;
mod lists;
pub mod location;
pub mod measures;
pub mod places;
pub mod point;
pub mod polygons;
pub mod predicates;
pub mod touching;
pub mod validity;
pub mod version;
pub mod winding;
