//! The cleaners of a contour, the walks behind them, and the cleaning of many contours by offsets.

pub mod batch;
pub mod cleaner;
pub mod copies;
pub mod despike;
mod place_ring;
pub mod probe;
pub(crate) mod scan;
pub mod simple;
pub mod simplifier;
mod write;
