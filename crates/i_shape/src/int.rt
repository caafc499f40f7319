//! Contours, shapes and shape lists of integer points.

pub mod area;
pub mod canonical;
pub(crate) mod cleaning;
pub mod count;
pub mod despike;
mod in_place;
pub mod path;
pub mod shape;
pub mod simple;
pub mod winding;

pub use i_shape_core::point::{ContourPoint, IntPoint, Origin};

/// The cleaners of single contours, and what shapes and lists require of their results.
pub mod cleaner {
    pub use crate::int::cleaning::{CleanerLaws, InPlaceCleaner};
    pub use i_shape_core::cleaner::{
        Canonicalizer, ContourCleaner, SpikeRemover, UnorientedCanonicalizer,
    };
    pub use i_shape_core::despike::ContourDeSpiker;
    pub use i_shape_core::simplifier::ContourSimplifier;
}

/// The test that the points of a resource are safe.
pub mod safe_range {
    pub use i_shape_source::int::safe_range::IntSafeRange;
}
