//! Contours with integer coordinates: numbers and points, turns, measures, the cleaners of one contour, and its
//! canonical form.
//!
//! A *zero turn* is a degenerate vertex: a collinear vertex, a repeated point, or the tip of a spike. A contour
//! *collapses* if removing zero turns leaves fewer than three points. A point is *safe* if both coordinates lie
//! strictly between -2^(BITS-2) and 2^(BITS-2).
#![tactic(auto)]

pub mod clean;
pub mod contour;
pub mod equality;
pub mod error;
pub mod form;
pub mod laws;
pub mod measure;
pub mod number;
pub mod point;
pub mod turn;

pub use clean::probe::Probe;
pub use clean::{batch, cleaner, copies, despike, probe, simple, simplifier};
pub use form::canonical;
pub use measure::fill_rule::FillRule;
pub use measure::{area, boundary, fill_rule, heights, safe_range, winding};
pub use number::{IntNumber, WideIntNumber};
pub use turn::triangle::Triangle;
pub use turn::{Turn, triangle};
